ghost use Rattle.std.specs.Prelude.{◌≡◌, ℕ, ◌+◌, ◌<◌, ◌≤◌, ◌^◌, [], false, Option, length, OnOk};
ghost use Rattle.vlog_read.specs.declared.tree.At.{At};
ghost use Rattle.vlog_read.specs.Words.{left_brace, right_brace};
ghost use Rattle.vlog_read.specs.inside.Machine.State.{InConn, InInst, NextExpr, AfterExpr, expr_of, with_part};
ghost use Rattle.vlog_read.specs.inside.Machine.Step.{is_mark, read};
ghost use Rattle.vlog_read.specs.inside.Machine.Reads.{IsNext, Reads};

use crate::fault::ParseFault;
use crate::reader::Reader;
use crate::tree::Part;
use emh_base::{List, Range};

impl Reader<'_> {
    /// `expr`, by its parts from the left. Braces are counted, so that it needs no deeper stack for more of them.
    pub fn expr(&mut self) -> Result<List<Part>, ParseFault>
        ensures read { (i : InInst) (at : ℕ) (port : Option At) (expr_at : ℕ)
            → Reads self.old.len (NextExpr (expr_of i at port expr_at []) 0)
            (λ ps. AfterExpr (expr_of i at port expr_at ps) 0) self.old.rest.now self.new.rest.now result }
        ensures shorter { OnOk result (length self.new.rest.now < length self.old.rest.now) }
        ensures len { self.new.len ≡ self.old.len }
    {
        let mut parts = List::new(self.alloc);
        let mut depth = 0;
        loop {
            depth = self.left_braces(depth);
            let part = self.part()?;
            parts.push(part)?;
            depth = self.right_braces(depth);
            if depth == 0 {
                return Ok(parts);
            }
            self.mark(b',')?;
        }
    }

    /// The left braces that come next, on top of those that are open.
    fn left_braces(&mut self, mut depth: usize) -> usize
        requires { depth + length self.old.rest.now < 2 ^ 64 }
        ensures read { (e : InConn) → read self.old.len (NextExpr e depth) self.old.rest.now
            ≡ read self.old.len (NextExpr e result) self.new.rest.now }
        ensures stops { IsNext (is_mark left_brace) self.new.rest.now ≡ false }
        ensures room { result + length self.new.rest.now ≤ depth + length self.old.rest.now }
        ensures shorter { length self.new.rest.now ≤ length self.old.rest.now }
        ensures len { self.new.len ≡ self.old.len }
    {
        while self.takes(b'{') {
            depth += 1;
        }
        depth
    }

    /// The right braces that come next, as far as as many are open.
    fn right_braces(&mut self, mut depth: usize) -> usize
        ensures read { (e : InConn) → read self.old.len (AfterExpr e depth) self.old.rest.now
            ≡ read self.old.len (AfterExpr e result) self.new.rest.now }
        ensures stops { 0 < result → IsNext (is_mark right_brace) self.new.rest.now ≡ false }
        ensures room { result ≤ depth }
        ensures shorter { length self.new.rest.now ≤ length self.old.rest.now }
        ensures len { self.new.len ≡ self.old.len }
    {
        while depth > 0 && self.takes(b'}') {
            depth -= 1;
        }
        depth
    }

    /// A part of an expression, where no left brace is next.
    #[tactic(auto, using(crate::proofs::Passing::no_select))]
    fn part(&mut self) -> Result<Part, ParseFault>
        requires { IsNext (is_mark left_brace) self.old.rest.now ≡ false }
        ensures read { (e : InConn) (depth : ℕ)
            → Reads self.old.len (NextExpr e depth) (λ p. AfterExpr (with_part e p) depth)
            self.old.rest.now self.new.rest.now result }
        ensures shorter { OnOk result (length self.new.rest.now < length self.old.rest.now) }
        ensures len { self.new.len ≡ self.old.len }
    {
        if let Some(literal) = self.takes_literal() {
            return Ok(literal);
        }
        let name = self.name()?;
        if !self.takes(b'[') {
            return Ok(Part::Name(name));
        }
        let left = self.number()?;
        if self.takes(b']') {
            return Ok(Part::Bit(name, left));
        }
        self.mark(b':')?;
        let right = self.number()?;
        self.mark(b']')?;
        Ok(Part::Bits(name, Range { left, right }))
    }
}
