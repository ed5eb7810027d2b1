ghost use Rattle.std.specs.Prelude.{◌≡◌, ◌+◌, ◌<◌, ◌≤◌, ◌^◌, true, false, None, length, position, bytes_eq, slice_index, slice_range, IsTrue};
ghost use Rattle.std.specs.Option.{SomeIff};
ghost use Rattle.emh_base.specs.Name.{IsName};
ghost use Rattle.word_table.specs.Reserved.{reserved_texts};
ghost use Rattle.vlog_lex.specs.Byte.{begins_word, is_digit};
ghost use Rattle.vlog_lex.specs.Number.{written};
ghost use Rattle.vlog_lex.specs.Piece.{case_of, Piece, PieceBy, NumberIs, word_kind};
ghost use Rattle.vlog_lex.specs.Found.{Finds};

use crate::attribute::attribute_end;
use crate::case::Case;
use crate::class::Class;
use crate::directive::directive;
use crate::found::Found;
use crate::number::{are_digits, base_of, decimal, low_bits};
use crate::place::{byte_at, comment_end, line_end};
use crate::token::{LexFault, TokenKind};
use emh_base::{FILE_LIMIT, LentName, NAME_LIMIT};
use word_table::reserved_words;

/// What stands at a place: the first rule that applies there is taken.
pub fn piece(bytes: &[u8], at: usize) -> Result<Found<'_>, LexFault>
    requires place { at < length bytes.now }
    requires limit { length bytes.now ≤ FILE_LIMIT }
    ensures { Finds (Piece bytes.now at) result }
{
    match case_of(bytes[at], byte_at(bytes, at + 1)) {
        Case::White => Ok(Found::blank(Class::White.run_end(bytes, at))),
        Case::LineComment => Ok(Found::blank(line_end(bytes, at + 2))),
        Case::BlockComment => block_comment(bytes, at),
        Case::Attribute => attribute(bytes, at),
        Case::Directive => directive(bytes, at),
        Case::Escaped => escaped(bytes, at),
        Case::Word => word(bytes, at),
        Case::Number => number(bytes, at),
        Case::Apostrophe => Err(LexFault::BadLiteral { at: at as u32 }),
        Case::Mark => Ok(Found::token(at + 1, TokenKind::Mark(bytes[at]))),
        Case::Unfit => Err(LexFault::BadByte { at: at as u32 }),
    }
}

/// Which rule applies where two bytes stand.
fn case_of(first: u8, second: u8) -> Case
    ensures { result ≡ case_of first second }
{
    match first {
        b' ' | b'\t' | b'\n' | 12 | b'\r' => Case::White,
        b'/' if second == b'/' => Case::LineComment,
        b'/' if second == b'*' => Case::BlockComment,
        b'(' if second == b'*' => Case::Attribute,
        b'`' => Case::Directive,
        b'\\' => Case::Escaped,
        b'A'..=b'Z' | b'a'..=b'z' | b'_' => Case::Word,
        b'0'..=b'9' => Case::Number,
        b'\'' => Case::Apostrophe,
        33..=126 => Case::Mark,
        _ => Case::Unfit,
    }
}

/// The comment at a `/*`.
fn block_comment(bytes: &[u8], at: usize) -> Result<Found<'_>, LexFault>
    requires place { at + 2 ≤ length bytes.now }
    requires limit { length bytes.now ≤ FILE_LIMIT }
    ensures { Finds (PieceBy Case.BlockComment bytes.now at) result }
{
    match comment_end(bytes, at + 2) {
        Some(end) => Ok(Found::blank(end + 2)),
        None => Err(LexFault::OpenComment { at: at as u32 }),
    }
}

/// The attribute at a `(*`.
fn attribute(bytes: &[u8], at: usize) -> Result<Found<'_>, LexFault>
    requires place { at + 2 ≤ length bytes.now }
    requires limit { length bytes.now ≤ FILE_LIMIT }
    ensures { Finds (PieceBy Case.Attribute bytes.now at) result }
{
    match attribute_end(bytes, at + 2) {
        Some(end) => Ok(Found::blank(end + 2)),
        None => Err(LexFault::OpenAttribute { at: at as u32 }),
    }
}

/// The escaped identifier at a backslash.
fn escaped(bytes: &[u8], at: usize) -> Result<Found<'_>, LexFault>
    requires place { at < length bytes.now }
    requires limit { length bytes.now ≤ FILE_LIMIT }
    ensures { Finds (PieceBy Case.Escaped bytes.now at) result }
{
    let end = Class::Graphic.run_end(bytes, at + 1);
    if end == at + 1 {
        return Err(LexFault::BadByte { at: at as u32 });
    }
    if end < bytes.len() && !Class::White.has(bytes[end]) {
        return Err(LexFault::BadByte { at: end as u32 });
    }
    if end > at + 1 + NAME_LIMIT {
        return Err(LexFault::LongName { at: at as u32 });
    }
    let name = LentName::new(&bytes[at + 1..end]);
    Ok(Found::token(end, TokenKind::Ident(name)))
}

/// The word that begins at a place.
fn word(bytes: &[u8], at: usize) -> Result<Found<'_>, LexFault>
    requires place { at < length bytes.now }
    requires limit { length bytes.now ≤ FILE_LIMIT }
    requires first { IsTrue (begins_word (slice_index bytes.now at)) }
    ensures { Finds (PieceBy Case.Word bytes.now at) result }
{
    let end = Class::Word.run_end(bytes, at);
    if end > at + NAME_LIMIT {
        return Err(LexFault::LongName { at: at as u32 });
    }
    Ok(Found::token(end, word_kind(&bytes[at..end])))
}

/// A reserved word, or else the identifier of that name.
fn word_kind(text: &[u8]) -> TokenKind<'_>
    requires { IsName text.now }
    ensures { result ≡ word_kind text.now }
{
    if !begins_as_reserved(text) {
        return TokenKind::Ident(LentName::new(text));
    }
    match reserved_words().find(text) {
        Some(row) => TokenKind::Reserved(row),
        None => TokenKind::Ident(LentName::new(text)),
    }
}

/// Whether the first two bytes of a text are such as those of each reserved word: not below a
/// small letter. Most names of a netlist have a digit or a capital there, or one byte alone, and
/// aren't looked for in the table of reserved words.
#[tactic(auto, using(crate::proofs::Reserved::not_reserved))]
fn begins_as_reserved(text: &[u8]) -> bool
    ensures { result ≡ false → position (bytes_eq text.now) reserved_texts ≡ None }
{
    text.len() > 1 && text[0] >= b'a' && text[1] >= b'a'
}

/// The number or literal that begins at a place.
fn number(bytes: &[u8], at: usize) -> Result<Found<'_>, LexFault>
    requires place { at < length bytes.now }
    requires limit { length bytes.now ≤ FILE_LIMIT }
    ensures { Finds (PieceBy Case.Number bytes.now at) result }
{
    let end = Class::Number.run_end(bytes, at);
    let value = decimal(&bytes[at..end]);
    if byte_at(bytes, end) == b'\'' {
        return literal(bytes, at, end, value);
    }
    match value {
        Some(value) => Ok(Found::token(end, TokenKind::Number(value))),
        None => Err(LexFault::BadLiteral { at: at as u32 }),
    }
}

/// The literal at a place whose digits before the apostrophe write `size`, if that fits in 32 bits.
fn literal(
    bytes: &[u8],
    at: usize,
    apostrophe: usize,
    size: Option<u32>,
) -> Result<Found<'_>, LexFault>
    requires place { at ≤ apostrophe }
    requires within { apostrophe < length bytes.now }
    requires limit { length bytes.now ≤ FILE_LIMIT }
    requires here { slice_index bytes.now apostrophe ≡ 39 }
    requires size { let written = written 10 (slice_range bytes.now at apostrophe) in
        SomeIff size (written < 2 ^ 32) written }
    ensures { Finds (NumberIs true bytes.now at apostrophe) result }
{
    let fault = LexFault::BadLiteral { at: at as u32 };
    let Some(base) = base_of(byte_at(bytes, apostrophe + 1)) else {
        return Err(fault);
    };
    let end = Class::Literal.run_end(bytes, apostrophe + 2);
    let digits = &bytes[apostrophe + 2..end];
    let Some(size) = size else {
        return Err(fault);
    };
    if size < 1 || size > 128 || !are_digits(base, digits) {
        return Err(fault);
    }
    let value = low_bits(base, size as u8, digits);
    Ok(Found::token(
        end,
        TokenKind::Literal {
            size: size as u8,
            value,
        },
    ))
}
