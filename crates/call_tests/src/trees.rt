//! Trees of the grammar of Verilog.
mod shown;

use emh_base::{FILE_LIMIT, List};
use samples::texts::{COUNTER, repeated};
use shown::{shown, shown_tokens};
use std::str::from_utf8;
use std::test::Fail;
use vlog_lex::{Token, TokenKind, Tokens, tokens};

/// Sentences with their trees.
const TREES: &[(&[u8], &str)] = &[
    (b"", ""),
    (b"module t; endmodule", "t@7 names { }"),
    (b"module t(); endmodule", "t@7 names { }"),
    (b"module t(a, b); endmodule", "t@7 names a@9 b@12 { }"),
    (
        b"module t(input [3:0] a, b, output c); endmodule",
        "t@7 decls input [3:0]@16 a@21 b@24 output c@34 { }",
    ),
    (
        b"module t(inout wire \\x/y , input wire [0:7] d); endmodule",
        "t@7 decls inout wire x/y@20 input wire [0:7]@39 d@44 { }",
    ),
    (
        b"module a; endmodule module b; endmodule",
        "a@7 names { } b@27 names { }",
    ),
    (
        b"`celldefine module a; endmodule module b; endmodule `endcelldefine module c; endmodule",
        "marked a@19 names { } marked b@39 names { } c@74 names { }",
    ),
    (
        b"`celldefine `endcelldefine `celldefine module a; endmodule `celldefine",
        "marked a@46 names { }",
    ),
    (
        b"`celldefine `endcelldefine module a; endmodule `endcelldefine",
        "a@34 names { }",
    ),
    (
        b"module t; input a, b; output wire [7:4] c; inout d; endmodule",
        "t@7 names { input a@16 b@19; output wire [7:4]@35 c@40; inout d@49; }",
    ),
    (
        b"module t(a); wire e, f; wire [2:0] g; endmodule",
        "t@7 names a@9 { wire e@18 f@21; wire [2:0]@30 g@35; }",
    ),
    (
        b"module t; INV u(), v( ); endmodule",
        "t@7 names { INV@10 u@14() v@19(); }",
    ),
    (
        b"module t; i u(a, b); endmodule",
        "t@7 names { i@10 u@12(<@14 @14: a@14><@17 @17: b@17>); }",
    ),
    (
        b"module t; i u(,); endmodule",
        "t@7 names { i@10 u@12(<@14 @14:><@15 @15:>); }",
    ),
    (
        b"module t; i u(a, , b , ); endmodule",
        "t@7 names { i@10 u@12(<@14 @14: a@14><@17 @17:><@19 @19: b@19><@23 @23:>); }",
    ),
    (
        b"module t; i u(.p(a), .q( )); endmodule",
        "t@7 names { i@10 u@12(<@14 .p@15 @17: a@17><@21 .q@22 @25:>); }",
    ),
    (
        b"module t; i u(.p()); endmodule",
        "t@7 names { i@10 u@12(<@14 .p@15 @17:>); }",
    ),
    (
        b"module t; i u(.p(a), b); endmodule",
        "t@7 names { i@10 u@12(<@14 .p@15 @17: a@17><@21 @21: b@21>); }",
    ),
    (
        b"module t; i u(a[3], b[1:0], 4'd10); endmodule",
        "t@7 names { i@10 u@12(<@14 @14: a@14[3]><@20 @20: b@20[1:0]><@28 @28: 4'd10>); }",
    ),
    (
        b"module t; i u({a}, .p({{b, {1'b1}}, c[7:0], {{d}, e[2]}})); endmodule",
        "t@7 names { i@10 u@12(<@14 @14: a@15><@19 .p@20 @22: b@24 1'd1 c@36[7:0] d@46 e@50[2]>); }",
    ),
    (
        b"module t (); wire \\a/b ; wire \\wire ; wire \\bus[3] ; wire [3:0] bus; INV \\x.y (.A(\\bus[3] ), .Y(bus[3])); endmodule",
        "t@7 names { wire a/b@18; wire wire@30; wire bus[3]@43; wire [3:0]@59 bus@64; INV@69 x.y@73(<@79 .A@80 @82: bus[3]@82><@93 .Y@94 @96: bus@96[3]>); }",
    ),
    (
        COUNTER,
        "cnt@107 names clk@111 en@116 q@120 { wire _0_@131; input clk@175; wire clk@187; input en@200; wire en@211; output [1:0]@225 q@230; wire [1:0]@241 q@246; wire [1:0]@257 d$x@262; XOR2@271 _1_@276(<@281 .A@282 @284: q@284[0]><@291 .B@292 @294: en@294><@299 .Y@300 @302: d$x@302[0]>); AND2@316 _2_@321(<@326 .A@327 @329: q@329[0]><@336 .B@337 @339: en@339><@344 .Y@345 @347: _0_@347>); XOR2@356 _3_@361(<@366 .A@367 @369: q@369[1]><@376 .B@377 @379: _0_@379><@385 .Y@386 @388: d$x@388[1]>); DFF2@402 r@407(<@410 .CK@411 @414: clk@414><@420 .D@421 @423: d$x@423><@431 .Q@432 @434: q@434><@438 .SE@439 @442: 1'd0>); }",
    ),
];

#[test]
fn sentences_are_read_to_their_trees(rt: HostRuntime) -> Result<(), Fail> {
    for (bytes, expected) in TREES {
        assert_eq!(rt; from_utf8(shown(rt.alloc(), bytes)?.as_slice())?, *expected);
    }
    Ok(())
}

/// Bytes with the fault of their tokens.
const FAULTS: &[(&[u8], &str)] = &[
    (b"module t(); INV #(3) u(); endmodule", "unsupported #@16"),
    (b"module t(.a({x,y})); endmodule", "unsupported .@9"),
    (
        b"module t(); assign a = b; endmodule",
        "unsupported assign@12",
    ),
    (b"module t(wire a); endmodule", "unexpected @9"),
    (b"module t(reg a); endmodule", "unsupported reg@9"),
    (b"module t(a, input b); endmodule", "unexpected @12"),
    (b"module t(a,); endmodule", "unexpected @11"),
    (b"module t(input a, wire b); endmodule", "unexpected @18"),
    (b"module t(input reg a); endmodule", "unsupported reg@15"),
    (b"module t(input [3] a); endmodule", "unexpected @17"),
    (b"module module; endmodule", "unexpected @7"),
    (b"module t() endmodule", "unexpected @11"),
    (b"INV u();", "unexpected @0"),
    (b"`celldefine ; module t; endmodule", "unexpected @12"),
    (b"module t; `celldefine endmodule", "unexpected @10"),
    (b"module t; endmodule; module", "unexpected @19"),
    (b"module t; wire a = b; endmodule", "unsupported =@17"),
    (b"module t; wire a[3:0]; endmodule", "unsupported [@16"),
    (b"module t; wire wire a; endmodule", "unexpected @15"),
    (b"module t; i {u}(); endmodule", "unsupported {@12"),
    (b"module t; i u(a.b); endmodule", "unsupported .@15"),
    (b"module t; i u(4); endmodule", "unexpected @14"),
    (b"module t; i u(a[b]); endmodule", "unexpected @16"),
    (b"module t; i u(a[1:0:2]); endmodule", "unexpected @19"),
    (b"module t; i u({}); endmodule", "unexpected @15"),
    (b"module t; i u({a,}); endmodule", "unexpected @17"),
    (b"module t; i u({a)); endmodule", "unexpected @16"),
    (b"module t; i u(a}); endmodule", "unexpected @15"),
    (b"module t; i u({a}}); endmodule", "unexpected @17"),
    (b"module t; i u(.p(a, b)); endmodule", "unexpected @18"),
    (b"module t; i u(.p() b); endmodule", "unexpected @19"),
    (b"module t; i u(a b); endmodule", "unexpected @16"),
    (b"module t; i u() endmodule", "unexpected @16"),
    (b"module t; begin endmodule", "unsupported begin@10"),
    (b"module t(); // cut", "unexpected @18"),
    (b"`celldefine module", "unexpected @18"),
];

#[test]
fn the_first_token_that_may_not_stand_there_is_told(rt: HostRuntime) -> Result<(), Fail> {
    for (bytes, expected) in FAULTS {
        assert_eq!(rt; from_utf8(shown(rt.alloc(), bytes)?.as_slice())?, *expected);
    }
    Ok(())
}

#[test]
fn a_sentence_that_is_cut_ends_too_early(rt: HostRuntime) -> Result<(), Fail> {
    let alloc = rt.alloc();
    let sentences: [&[u8]; 3] = [
        b"module t; endmodule",
        b"module t(inout [3:0] a, b, output wire c); i u(); endmodule",
        b"module t(a, b); input a; output wire [3:0] b, c; wire [1:0] d, e;
        INV u(a, , {b[2], {c[1:0]}, 4'hA}), v(.p(), .q({a})); endmodule",
    ];
    for sentence in sentences {
        let read = tokens(alloc, &sentence[..sentence.len().min(FILE_LIMIT)])?;
        if let [before @ .., _] = read.items.as_slice() {
            for token in before {
                let cut = &sentence[..(token.end as usize).min(sentence.len())];
                let expected = format!(in alloc; "unexpected @{}", token.end)?;
                assert_eq!(rt;
                    from_utf8(shown(alloc, cut)?.as_slice())?,
                    expected.as_str()
                );
            }
        }
    }
    Ok(())
}

#[test]
fn braces_nest_to_any_depth(rt: HostRuntime) -> Result<(), Fail> {
    let alloc = rt.alloc();
    let mut bytes = repeated(alloc, b"module t; i u(", b'{', 10_000, b"")?;
    assert_eq!(rt;
        from_utf8(shown(alloc, bytes.as_slice())?.as_slice())?,
        "unexpected @10014"
    );
    bytes.extend(repeated(alloc, b"a", b'}', 10_000, b"); endmodule")?.as_slice())?;
    assert_eq!(rt;
        from_utf8(shown(alloc, bytes.as_slice())?.as_slice())?,
        "t@7 names { i@10 u@12(<@14 @14: a@10014>); }"
    );
    Ok(())
}

#[test]
fn a_row_past_the_reserved_words_is_no_word(rt: HostRuntime) -> Result<(), Fail> {
    let mut items = List::new(rt.alloc());
    items.push(Token {
        kind: TokenKind::Reserved(124),
        at: 3,
        end: 7,
    })?;
    let read = Tokens { items, len: 9 };
    assert_eq!(rt;
        from_utf8(shown_tokens(rt.alloc(), &read)?.as_slice())?,
        "unexpected @3"
    );
    Ok(())
}
