ghost use Rattle.std.specs.Prelude.{◌≡◌, ◌<◌, Bool, true, false, ◌==◌, []};
ghost use Rattle.vlog_lex.specs.declared.token.TokenKind.{TokenKind};
ghost use Rattle.vlog_lex.specs.declared.token.TokenKind.TheVariants.{Mark, Number, Reserved};
ghost use Rattle.vlog_read.specs.Grammar.{One, first_at, name, direction};
ghost use Rattle.vlog_read.specs.inside.Machine.Step.{is_mark, is_word, is_name, is_number, is_literal, is_dir, ends_conn};
ghost use Rattle.vlog_read.specs.inside.Machine.Reads.{IsNext, Took, TookSome};
ghost use Rattle.vlog_read.specs.inside.Machine.Taken.{Refuses, Takes, literal, celldefine, is_celldefine};

use crate::fault::ParseFault;
use crate::refusal::fault_at;
use crate::tree::{At, Part};
use crate::word;
use emh_base::Dir;
use std::alloc::Global;
use vlog_lex::{Token, TokenKind};

/// Reads the tokens of a file one after the other. A method that begins with `takes` leaves any other token for what
/// comes next; one that is named after what it reads answers the fault at it.
#[derive(Drop)]
pub struct Reader<'a> {
    pub alloc: Global,
    /// The tokens that aren't read yet.
    pub rest: &'a [Token<'a>],
    /// How many bytes the file has: where it ends.
    pub len: u32,
}

impl Reader<'_> {
    /// The fault at the next token, or at the end.
    pub fn fault(&self) -> ParseFault
        ensures { (test : TokenKind → Bool) → IsNext test self.now.rest.now ≡ false
            → Refuses test self.now.len self.now.rest.now result }
    {
        match self.rest {
            [token, ..] => fault_at(self.alloc, token),
            [] => ParseFault::Unexpected { at: self.len },
        }
    }

    /// The place of the next token, or 0 at the end.
    pub fn at(&self) -> u32
        ensures { result ≡ first_at self.now.rest.now }
    {
        match self.rest {
            [token, ..] => token.at,
            [] => 0,
        }
    }

    /// Takes this mark, if it is next.
    pub fn takes(&mut self, mark: u8) -> bool
        ensures took { Took (is_mark mark) (One (Mark mark)) self.old.rest.now self.new.rest.now result }
        ensures len { self.new.len ≡ self.old.len }
    {
        match self.rest {
            [token, rest @ ..] => match token.kind {
                TokenKind::Mark(found) if found == mark => {
                    self.rest = rest;
                    true
                }
                _ => false,
            },
            [] => false,
        }
    }

    /// This mark, which has to be next.
    pub fn mark(&mut self, mark: u8) -> Result<(), ParseFault>
        ensures taken { Takes (is_mark mark) (λ _. One (Mark mark)) self.old.len self.old.rest.now self.new.rest.now
            result }
        ensures len { self.new.len ≡ self.old.len }
    {
        if self.takes(mark) {
            Ok(())
        } else {
            Err(self.fault())
        }
    }

    /// Takes the reserved word of this row, if it is next.
    pub fn takes_word(&mut self, word: u16) -> bool
        ensures took { Took (is_word word) (One (Reserved word)) self.old.rest.now self.new.rest.now result }
        ensures len { self.new.len ≡ self.old.len }
    {
        match self.rest {
            [token, rest @ ..] => match token.kind {
                TokenKind::Reserved(found) if found == word => {
                    self.rest = rest;
                    true
                }
                _ => false,
            },
            [] => false,
        }
    }

    /// The reserved word of this row, which has to be next.
    pub fn word(&mut self, word: u16) -> Result<(), ParseFault>
        ensures taken { Takes (is_word word) (λ _. One (Reserved word)) self.old.len self.old.rest.now self.new.rest.now
            result }
        ensures len { self.new.len ≡ self.old.len }
    {
        if self.takes_word(word) {
            Ok(())
        } else {
            Err(self.fault())
        }
    }

    /// Takes a direction, if one is next.
    pub fn takes_dir(&mut self) -> Option<Dir>
        ensures took { TookSome is_dir direction self.old.rest.now self.new.rest.now result }
        ensures len { self.new.len ≡ self.old.len }
    {
        if self.takes_word(word::INPUT) {
            return Some(Dir::Input);
        }
        if self.takes_word(word::OUTPUT) {
            return Some(Dir::Output);
        }
        if self.takes_word(word::INOUT) {
            return Some(Dir::Inout);
        }
        None
    }

    /// Takes a celldefine token, if one is next, and tells whether modules after it are marked.
    pub fn takes_celldefine(&mut self) -> Option<bool>
        ensures took { TookSome is_celldefine celldefine self.old.rest.now self.new.rest.now result }
        ensures len { self.new.len ≡ self.old.len }
    {
        match self.rest {
            [token, rest @ ..] => match token.kind {
                TokenKind::Cell => {
                    self.rest = rest;
                    Some(true)
                }
                TokenKind::EndCell => {
                    self.rest = rest;
                    Some(false)
                }
                _ => None,
            },
            [] => None,
        }
    }

    /// Takes a literal, if one is next.
    pub fn takes_literal(&mut self) -> Option<Part>
        ensures took { TookSome is_literal literal self.old.rest.now self.new.rest.now result }
        ensures len { self.new.len ≡ self.old.len }
    {
        match self.rest {
            [token, rest @ ..] => match token.kind {
                TokenKind::Literal { size, value } => {
                    self.rest = rest;
                    Some(Part::Lit { size, value })
                }
                _ => None,
            },
            [] => None,
        }
    }

    /// A name, which has to be next.
    pub fn name(&mut self) -> Result<At, ParseFault>
        ensures taken { Takes is_name name self.old.len self.old.rest.now self.new.rest.now result }
        ensures len { self.new.len ≡ self.old.len }
    {
        match self.rest {
            [token, rest @ ..] => match &token.kind {
                TokenKind::Ident(name) => {
                    let name = name.to_name(self.alloc)?;
                    self.rest = rest;
                    Ok(At { name, at: token.at })
                }
                _ => Err(self.fault()),
            },
            [] => Err(self.fault()),
        }
    }

    /// A number, which has to be next.
    pub fn number(&mut self) -> Result<u32, ParseFault>
        ensures taken { Takes is_number (λ value. One (Number value)) self.old.len self.old.rest.now self.new.rest.now
            result }
        ensures len { self.new.len ≡ self.old.len }
    {
        match self.rest {
            [token, rest @ ..] => match token.kind {
                TokenKind::Number(value) => {
                    self.rest = rest;
                    Ok(value)
                }
                _ => Err(self.fault()),
            },
            [] => Err(self.fault()),
        }
    }

    /// Whether the next token is a comma or a right parenthesis.
    pub fn ends_conn(&self) -> bool
        ensures { result ≡ IsNext ends_conn self.now.rest.now }
    {
        match self.rest {
            [token, ..] => matches!(token.kind, TokenKind::Mark(b',' | b')')),
            [] => false,
        }
    }
}
