ghost use Rattle.std.specs.Prelude.{◌≡◌, ◌<◌, ◌≤◌, [], Bool, true, false, Option, Some, None, List, length, OnOk};
ghost use Rattle.emh_base.specs.declared.plain.Dir.{Dir};
ghost use Rattle.vlog_read.specs.declared.tree.At.{At};
ghost use Rattle.vlog_read.specs.declared.tree.Decl.{Decl};
ghost use Rattle.vlog_read.specs.declared.tree.Span.{Span};
ghost use Rattle.vlog_read.specs.Words.{comma};
ghost use Rattle.vlog_read.specs.inside.Machine.State.{DeclFor, InModule, SoFar, ForItem, AfterHeaderName, AfterDir, AfterWire, RangeLeft, DeclName, AfterDeclName, decl_of};
ghost use Rattle.vlog_read.specs.inside.Machine.Step.{is_mark, read};
ghost use Rattle.vlog_read.specs.inside.Machine.Reads.{IsNext, Reads};

use crate::fault::ParseFault;
use crate::reader::Reader;
use crate::tree::{At, Decl, Span};
use crate::word;
use emh_base::{Dir, List, Range};

impl Reader<'_> {
    /// `[ "wire" ]`, after a direction.
    #[tactic(auto, using(crate::proofs::Passing::no_wire))]
    pub fn maybe_wire(&mut self) -> bool
        ensures read { (for : DeclFor) (d : Dir) → read self.old.len (AfterDir for d) self.old.rest.now
            ≡ read self.old.len (AfterWire for (decl_of (Some d) result None [])) self.new.rest.now }
        ensures shorter { length self.new.rest.now ≤ length self.old.rest.now }
        ensures len { self.new.len ≡ self.old.len }
    {
        if self.takes_word(word::WIRE) {
            return true;
        }
        false
    }

    /// `"[" NUM ":" NUM "]"`, after the left bracket.
    fn range(&mut self) -> Result<Span, ParseFault>
        ensures read { (for : DeclFor) (d : Option Dir) (wire : Bool)
            → Reads self.old.len (RangeLeft for (decl_of d wire None []))
            (λ s. DeclName for (decl_of d wire (Some s) [])) self.old.rest.now self.new.rest.now result }
        ensures shorter { OnOk result (length self.new.rest.now < length self.old.rest.now) }
        ensures len { self.new.len ≡ self.old.len }
    {
        let at = self.at();
        let left = self.number()?;
        self.mark(b':')?;
        let right = self.number()?;
        self.mark(b']')?;
        Ok(Span {
            range: Range { left, right },
            at,
        })
    }

    /// `[ range ]`
    #[tactic(auto, using(crate::proofs::Passing::no_range))]
    fn maybe_range(&mut self) -> Result<Option<Span>, ParseFault>
        ensures read { (for : DeclFor) (d : Option Dir) (wire : Bool)
            → Reads self.old.len (AfterWire for (decl_of d wire None [])) (λ r. DeclName for (decl_of d wire r []))
            self.old.rest.now self.new.rest.now result }
        ensures shorter { OnOk result (length self.new.rest.now ≤ length self.old.rest.now) }
        ensures len { self.new.len ≡ self.old.len }
    {
        if !self.takes(b'[') {
            return Ok(None);
        }
        let range = self.range()?;
        Ok(Some(range))
    }

    /// `[ range ] NAME`, after a direction and `wire`, as they are given.
    pub fn decl(&mut self, dir: Option<Dir>, wire: bool) -> Result<Decl, ParseFault>
        ensures read { (for : DeclFor)
            → Reads self.old.len (AfterWire for (decl_of dir wire None [])) (AfterDeclName for)
            self.old.rest.now self.new.rest.now result }
        ensures shorter { OnOk result (length self.new.rest.now < length self.old.rest.now) }
        ensures len { self.new.len ≡ self.old.len }
    {
        let range = self.maybe_range()?;
        let name = self.name()?;
        let mut names = List::new(self.alloc);
        names.push(name)?;
        Ok(Decl {
            dir,
            wire,
            range,
            names,
        })
    }

    /// `{ "," NAME }`, after names.
    pub fn more_names(&mut self, mut names: List<At>) -> Result<List<At>, ParseFault>
        ensures header { (s : SoFar) (n : At)
            → Reads self.old.len (AfterHeaderName s n names) (AfterHeaderName s n) self.old.rest.now self.new.rest.now
            result }
        ensures item { (m : InModule) (d : Option Dir) (wire : Bool) (r : Option Span)
            → Reads self.old.len (AfterDeclName (ForItem m) (decl_of d wire r names))
            (λ ns. AfterDeclName (ForItem m) (decl_of d wire r ns)) self.old.rest.now self.new.rest.now result }
        ensures stops { OnOk result (IsNext (is_mark comma) self.new.rest.now ≡ false) }
        ensures shorter { OnOk result (length self.new.rest.now ≤ length self.old.rest.now) }
        ensures len { self.new.len ≡ self.old.len }
    {
        while self.takes(b',') {
            let name = self.name()?;
            names.push(name)?;
        }
        Ok(names)
    }
}
