ghost use Rattle.std.specs.Prelude.{◌≡◌, true};
ghost use Rattle.emh_base.specs.Name.{IsName};
ghost use Rattle.vlog_lex.specs.declared.token.TokenKind.TheVariants.{Mark, Reserved};
ghost use Rattle.vlog_read.specs.declared.fault.ParseFault.TheVariants.{Unsupported};
ghost use Rattle.vlog_read.specs.Sentence.{fault_of, fault_at};
ghost use Rattle.vlog_read.specs.inside.Machine.Reads.{is_real};

use crate::fault::ParseFault;
use crate::word;
use emh_base::{LentName, NoMemory};
use std::alloc::Global;
use vlog_lex::{Token, TokenKind};
use word_table::reserved_words;

/// The fault at a token that may not stand where it does.
pub fn fault_at(alloc: Global, token: &Token<'_>) -> ParseFault
    ensures { is_real result ≡ true → result ≡ fault_at token.now }
{
    match token.kind {
        TokenKind::Reserved(row) => at_word(alloc, token.at, row),
        TokenKind::Mark(byte) => at_mark(alloc, token.at, byte),
        _ => ParseFault::Unexpected { at: token.at },
    }
}

/// The fault at the reserved word of a row.
#[tactic(auto, using(crate::proofs::Reserved::reserved_is_name, crate::proofs::Reserved::past_reserved))]
fn at_word(alloc: Global, at: u32, row: u16) -> ParseFault
    ensures { is_real result ≡ true → result ≡ fault_of (Reserved row) at }
{
    if word::is_used(row) {
        return ParseFault::Unexpected { at };
    }
    if row >= word::COUNT {
        return ParseFault::Unexpected { at };
    }
    unsupported(alloc, at, reserved_words().at(row))
}

/// The fault at a mark.
fn at_mark(alloc: Global, at: u32, byte: u8) -> ParseFault
    ensures { is_real result ≡ true → result ≡ fault_of (Mark byte) at }
{
    match byte {
        b'#' | b'=' | b'.' | b'[' | b'{' => unsupported(alloc, at, &[byte]),
        _ => ParseFault::Unexpected { at },
    }
}

/// The fault at a token of a part of the language that isn't read.
fn unsupported(alloc: Global, at: u32, text: &[u8]) -> ParseFault
    requires { IsName text.now }
    ensures { is_real result ≡ true → result ≡ Unsupported at text.now }
{
    match LentName::new(text).to_name(alloc) {
        Ok(word) => ParseFault::Unsupported { at, word },
        Err(NoMemory) => ParseFault::NoMemory,
    }
}
