ghost use Rattle.std.specs.Prelude.{◌≡◌, ℕ, ◌≤◌, ◌==◌, ◌&&◌, ◌↔◌, List, length, take, true, false, not, Some, IfOk, IfErr, MatchResult, MatchOption};
ghost use Rattle.emh_base.specs.Name.{IsName};
ghost use Rattle.emh_base.specs.Text.{spell};
ghost use Rattle.emh_base.specs.Spelling.{fits_mark, needs_mark, read_back};

use crate::name::{NAME_LIMIT, Name, NameFault};
use crate::text::is_special;
use std::alloc::Global;

/// Why a word gives no name.
#[derive(Clone, Copy, Debug, PartialEq, Eq)]
pub enum SpellFault {
    /// The word is the spelled text of no name.
    NotSpelled,
    NoMemory,
}

/// The name whose spelled text a word is. Its bytes are 33 to 126; each `/`, `[`, `]`, `.` and `\` in it stands after a
/// `\`, and so does a `=` that is the name's first byte; no other byte does. A word has up to 2,048 bytes, as a name
/// has up to 1,024.
pub fn unspell(alloc: Global, word: &[u8]) -> Result<Name, SpellFault>
    ensures ok { IfOk result (λ name. spell name ≡ word.now) }
    ensures not_spelled { (result ≡ Err SpellFault.NotSpelled)
        ↔ ((name : List ℕ) → IsName name → spell name ≡ word.now → ⊥) }
    ensures each_name { (name : List ℕ) → IsName name → spell name ≡ word.now
        → MatchResult result (λ made. made ≡ name) (λ fault. fault ≡ SpellFault.NoMemory) }
{
    let mut bytes = [0; NAME_LIMIT];
    match take_marks(word, &mut bytes) {
        Some(len) => name_of(alloc, &bytes[..len]),
        None => Err(SpellFault::NotSpelled),
    }
}

/// The name of these bytes.
fn name_of(alloc: Global, bytes: &[u8]) -> Result<Name, SpellFault>
    ensures ok { IfOk result (λ name. name ≡ bytes.now) }
    ensures name { IfOk result IsName }
    ensures err { IfErr result (λ fault. (fault ≡ SpellFault.NoMemory) ↔ IsName bytes.now) }
{
    match Name::new(alloc, bytes) {
        Ok(name) => Ok(name),
        Err(fault) => Err(spell_fault(fault)),
    }
}

/// Bytes that are no name were not spelled.
fn spell_fault(fault: NameFault) -> SpellFault
    ensures { (result ≡ SpellFault.NoMemory) ↔ (fault ≡ NameFault.NoMemory) }
{
    match fault {
        NameFault::NoMemory => SpellFault::NoMemory,
        _ => SpellFault::NotSpelled,
    }
}

/// Puts the bytes that a word spells at the front of a name's room and tells how many there are; none where it spells
/// nothing, or more than there is room for.
fn take_marks(word: &[u8], bytes: &mut [u8]) -> Option<usize>
    requires { length bytes.old ≡ 1024 }
    ensures len { length bytes.new ≡ 1024 }
    ensures bytes { MatchOption result
        ((name : List ℕ) → length name ≤ 1024 → read_back true false word.now ≡ Some name → ⊥)
        (λ len. (len ≤ 1024) × (read_back true false word.now ≡ Some (take len bytes.new))) }
{
    let mut len = 0;
    let mut marked = false;
    for &byte in word {
        if is_mark(marked, byte) {
            marked = true;
        } else {
            if !fits_mark(len == 0, marked, byte) {
                return None;
            }
            if len == NAME_LIMIT {
                return None;
            }
            bytes[len] = byte;
            len += 1;
            marked = false;
        }
    }
    if marked { None } else { Some(len) }
}

/// Whether a byte marks the next one.
fn is_mark(marked: bool, byte: u8) -> bool
    ensures { result ≡ (not marked && byte == 92) }
{
    !marked && byte == b'\\'
}

/// Whether a byte is marked where it has to be, and else not.
fn fits_mark(first: bool, marked: bool, byte: u8) -> bool
    ensures { result ≡ fits_mark first marked byte }
{
    if needs_mark(first, byte) {
        marked
    } else {
        !marked
    }
}

/// Whether a byte is marked in a spelled text, as the name's first byte or another.
fn needs_mark(first: bool, byte: u8) -> bool
    ensures { result ≡ needs_mark first byte }
{
    is_special(byte) || (first && byte == b'=')
}
