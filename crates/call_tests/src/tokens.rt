//! Tokens of Verilog.
use emh_base::FILE_LIMIT;
use samples::texts::repeated;
use std::alloc::Global;
use std::str::from_utf8;
use std::test::Fail;
use vlog_lex::{Token, TokenKind, tokens};

/// Bytes as their tokens, each with its span, or as their fault.
fn shown(alloc: Global, bytes: &[u8]) -> Result<String, Fail> {
    let mut text = String::new(alloc);
    match tokens(alloc, &bytes[..bytes.len().min(FILE_LIMIT)]) {
        Ok(read) => {
            for token in read.items.as_slice() {
                text.push_str(&shown_token(alloc, token)?)?;
            }
        }
        Err(fault) => text.push_str(&format!(in alloc; "{fault:?}")?)?,
    }
    Ok(text)
}

fn shown_token(alloc: Global, token: &Token<'_>) -> Result<String, Fail> {
    let Token { kind, at, end } = token;
    Ok(match kind {
        TokenKind::Ident(name) => format!(in alloc;
            "{at}-{end} ident {}; ",
            from_utf8(name.as_bytes())?
        )?,
        TokenKind::Reserved(row) => format!(in alloc; "{at}-{end} reserved {row}; ")?,
        TokenKind::Cell => format!(in alloc; "{at}-{end} cell; ")?,
        TokenKind::EndCell => format!(in alloc; "{at}-{end} endcell; ")?,
        TokenKind::Number(value) => format!(in alloc; "{at}-{end} number {value}; ")?,
        TokenKind::Literal { size, value } => format!(in alloc;
            "{at}-{end} {size} bits {value}; "
        )?,
        TokenKind::Mark(byte) => format!(in alloc; "{at}-{end} mark {byte}; ")?,
    })
}

/// Texts with their tokens.
const TOKENS: &[(&[u8], &str)] = &[
    (b"", ""),
    (b" \t\n\x0c\r", ""),
    (b"\\cpu3 cpu3", "0-5 ident cpu3; 6-10 ident cpu3; "),
    (b"\\wire ", "0-5 ident wire; "),
    (b"wire", "0-4 reserved 120; "),
    (
        b"module m$1_;",
        "0-6 reserved 57; 7-11 ident m$1_; 11-12 mark 59; ",
    ),
    (b"\\a", "0-2 ident a; "),
    (b"\\a\\b\rc", "0-4 ident a\\b; 5-6 ident c; "),
    (b"a\rb", "0-1 ident a; 2-3 ident b; "),
    (b"(* \"*)\" *)x", "10-11 ident x; "),
    (b"(* \"\\\"*)\" * ) **)x", "17-18 ident x; "),
    (b"(* // \" /* \" *)x", "15-16 ident x; "),
    (b"/* * / **/x//\r", "10-11 ident x; "),
    (b"//a\nb// c", "4-5 ident b; "),
    (b"a/b", "0-1 ident a; 1-2 mark 47; 2-3 ident b; "),
    (b"4'h1_F", "0-6 4 bits 15; "),
    (b"1'h0", "0-4 1 bits 0; "),
    (b"8'HfF)", "0-5 8 bits 255; 5-6 mark 41; "),
    (b"4'b1_0_1_0", "0-10 4 bits 10; "),
    (b"3'O17", "0-5 3 bits 7; "),
    (b"1_2'd4097", "0-9 12 bits 1; "),
    (
        b"128'd340282366920938463463374607431768211455",
        "0-44 128 bits 340282366920938463463374607431768211455; ",
    ),
    (b"0_042", "0-5 number 42; "),
    (b"4294967295", "0-10 number 4294967295; "),
    (b"`celldefine`endcelldefine", "0-11 cell; 11-25 endcell; "),
    (b"`timescale 1ns / 1ps /* \xff\na", "26-27 ident a; "),
    (b"`timescale", ""),
    (b"`default_nettype \t wire\ra", "24-25 ident a; "),
    (
        b"[3:0]",
        "0-1 mark 91; 1-2 number 3; 2-3 mark 58; 3-4 number 0; 4-5 mark 93; ",
    ),
    (b"\"a", "0-1 mark 34; 1-2 ident a; "),
];

#[test]
fn tokens_are_read_by_the_first_rule_that_applies(rt: HostRuntime) -> Result<(), Fail> {
    for (bytes, expected) in TOKENS {
        assert_eq!(rt; shown(rt.alloc(), bytes)?.as_str(), *expected);
    }
    Ok(())
}

/// Texts with the first fault from the left.
const FAULTS: &[(&[u8], &str)] = &[
    (b"\x00", "BadByte { at: 0 }"),
    (b"a \x7f b", "BadByte { at: 2 }"),
    (b"ab\x80", "BadByte { at: 2 }"),
    (b"\xff", "BadByte { at: 0 }"),
    (b"\\", "BadByte { at: 0 }"),
    (b"\\ a", "BadByte { at: 0 }"),
    (b"\\a\x7f", "BadByte { at: 2 }"),
    (b"\\\x80", "BadByte { at: 0 }"),
    (b"/*", "OpenComment { at: 0 }"),
    (b"/*/", "OpenComment { at: 0 }"),
    (b"module t(); /* cut", "OpenComment { at: 12 }"),
    (b"a/*", "OpenComment { at: 1 }"),
    (b"(*)", "OpenAttribute { at: 0 }"),
    (b"a (* \"*)", "OpenAttribute { at: 2 }"),
    (b"a(*", "OpenAttribute { at: 1 }"),
    (b"(* \"\\\" *)", "OpenAttribute { at: 0 }"),
    (b"4'hx", "BadLiteral { at: 0 }"),
    (b"0'h1", "BadLiteral { at: 0 }"),
    (b"129'h1", "BadLiteral { at: 0 }"),
    (b"4'", "BadLiteral { at: 0 }"),
    (b"4'h", "BadLiteral { at: 0 }"),
    (b"4'h_1", "BadLiteral { at: 0 }"),
    (b"4'b2", "BadLiteral { at: 0 }"),
    (b"4'h$", "BadLiteral { at: 0 }"),
    (b"4 'h1", "BadLiteral { at: 2 }"),
    (b"a 4294967296 b", "BadLiteral { at: 2 }"),
    (b"a'", "BadLiteral { at: 1 }"),
    (b"4294967297'h1", "BadLiteral { at: 0 }"),
    (b"4'd?", "BadLiteral { at: 0 }"),
    (b"`", "Directive { at: 0 }"),
    (b"a `celldefinex b", "Directive { at: 2 }"),
    (b"a`", "Directive { at: 1 }"),
    (b"`celldefine$", "Directive { at: 0 }"),
    (b"`default_nettype\nwire", "Directive { at: 0 }"),
    (b"`default_nettype none", "Directive { at: 0 }"),
    (b"`default_nettype wires", "Directive { at: 0 }"),
    (b"`define", "Directive { at: 0 }"),
];

#[test]
fn the_first_fault_is_told_by_its_place(rt: HostRuntime) -> Result<(), Fail> {
    for (bytes, expected) in FAULTS {
        assert_eq!(rt; shown(rt.alloc(), bytes)?.as_str(), *expected);
    }
    Ok(())
}

#[test]
fn long_words_and_long_numbers(rt: HostRuntime) -> Result<(), Fail> {
    let alloc = rt.alloc();
    let cases: [(&[u8], u8, usize, &[u8], &str); 8] = [
        (b"", b'a', 1025, b"", "LongName { at: 0 }"),
        (b"x ", b'a', 1025, b" y", "LongName { at: 2 }"),
        (b"\\", b'/', 1025, b" y", "LongName { at: 0 }"),
        (b"\\", b'/', 1025, b"\x80", "BadByte { at: 1026 }"),
        (b"8'd1", b'0', 198, b"7", "0-203 8 bits 7; "),
        (b"128'd1", b'0', 198, b"7", "0-205 128 bits 7; "),
        (
            b"128'd",
            b'9',
            200,
            b"",
            "0-205 128 bits 340282366920938463463374607431768211455; ",
        ),
        (b"9", b'9', 200, b"'h1", "BadLiteral { at: 0 }"),
    ];
    for (before, byte, count, after, expected) in cases {
        let bytes = repeated(alloc, before, byte, count, after)?;
        assert_eq!(rt; shown(alloc, bytes.as_slice())?.as_str(), expected);
    }
    let named = repeated(alloc, b"\\", b'a', 1024, b"")?;
    assert_eq!(rt;
        shown(alloc, named.as_slice())?.len(),
        "0-1025 ident ; ".len() + 1024
    );
    Ok(())
}
