ghost use Rattle.std.specs.Prelude.{◌≡◌, ◌≤◌, List, length, All, IfOk, IfErr, MatchResult};
ghost use Rattle.vlog_lex.specs.declared.token.Token.{Token};
ghost use Rattle.vlog_lex.specs.declared.token.LexFault.{LexFault};
ghost use Rattle.vlog_lex.specs.Found.{UnlessNoMemory};
ghost use Rattle.vlog_lex.specs.Lexes.{Lexes, HasFault, IsInRange};

use crate::found::Found;
use crate::piece::piece;
use crate::token::{LexFault, Token, Tokens};
use emh_base::{FILE_LIMIT, List};
use std::alloc::Global;

/// The tokens of a netlist, or its first fault from the left. Each byte is looked at a bounded number of times.
pub fn tokens(alloc: Global, bytes: &[u8]) -> Result<Tokens<'_>, LexFault>
    requires { length bytes.now ≤ FILE_LIMIT }
    ensures tokens { IfOk result (λ read. Lexes bytes.now read.items) }
    ensures len { IfOk result (λ read. read.len ≡ length bytes.now) }
    ensures fault { IfErr result (UnlessNoMemory (HasFault bytes.now)) }
    ensures few { IfOk result (λ read. length read.items ≤ length bytes.now) }
    ensures in_range { IfOk result (λ read. All (λ token. IsInRange token.kind) read.items) }

    // Bytes that have tokens give these, and bytes that have a fault give it, unless memory is wanting.
    ensures each_list { (tokens : List Token) → Lexes bytes.now tokens
        → MatchResult result (λ read. read.items ≡ tokens) (UnlessNoMemory (λ _. ⊥)) }
    ensures each_fault { (fault : LexFault) → HasFault bytes.now fault
        → MatchResult result (λ _. ⊥) (UnlessNoMemory (λ it. it ≡ fault)) }
{
    read(alloc, bytes)
}

/// The same, piece by piece.
fn read(alloc: Global, bytes: &[u8]) -> Result<Tokens<'_>, LexFault>
    requires { length bytes.now ≤ FILE_LIMIT }
    ensures tokens { IfOk result (λ read. Lexes bytes.now read.items) }
    ensures len { IfOk result (λ read. read.len ≡ length bytes.now) }
    ensures fault { IfErr result (UnlessNoMemory (HasFault bytes.now)) }
{
    let mut items = List::new(alloc);
    let mut at = 0;
    while at < bytes.len() {
        let Found { end, token } = piece(bytes, at)?;
        if let Some(kind) = token {
            items.push(Token {
                kind,
                at: at as u32,
                end: end as u32,
            })?;
        }
        at = end;
    }
    Ok(Tokens {
        items,
        len: bytes.len() as u32,
    })
}
