ghost use Rattle.std.specs.Prelude.{◌≡◌, ◌<◌, [], None, false, Option, length, OnOk};
ghost use Rattle.emh_base.specs.declared.plain.Dir.{Dir};
ghost use Rattle.vlog_read.specs.declared.tree.At.{At};
ghost use Rattle.vlog_read.specs.Words.{endmodule_word, comma};
ghost use Rattle.vlog_read.specs.inside.Machine.State.{InModule, ForItem, InItems, AfterWire, InstName, AfterInst, decl_of, insts_of, with_item};
ghost use Rattle.vlog_read.specs.inside.Machine.Step.{is_word, is_mark};
ghost use Rattle.vlog_read.specs.inside.Machine.Reads.{IsNext, Reads};

use crate::fault::ParseFault;
use crate::reader::Reader;
use crate::tree::{Decl, Item, TInst};
use crate::word;
use emh_base::{Dir, List};

impl Reader<'_> {
    /// `item`, where no `endmodule` is next.
    pub fn item(&mut self) -> Result<Item, ParseFault>
        requires { IsNext (is_word endmodule_word) self.old.rest.now ≡ false }
        ensures read { (m : InModule)
            → Reads self.old.len (InItems m) (λ i. InItems (with_item m i))
            self.old.rest.now self.new.rest.now result }
        ensures shorter { OnOk result (length self.new.rest.now < length self.old.rest.now) }
        ensures len { self.new.len ≡ self.old.len }
    {
        if let Some(dir) = self.takes_dir() {
            let wire = self.maybe_wire();
            let item = self.decl_item(Some(dir), wire)?;
            return Ok(item);
        }
        if self.takes_word(word::WIRE) {
            let item = self.decl_item(None, true)?;
            return Ok(item);
        }
        let master = self.name()?;
        let insts = self.insts()?;
        self.mark(b';')?;
        Ok(Item::Insts(master, insts))
    }

    /// `[ range ] NAME { "," NAME } ";"`, after a direction and `wire`, as they are given.
    fn decl_item(&mut self, dir: Option<Dir>, wire: bool) -> Result<Item, ParseFault>
        ensures read { (m : InModule)
            → Reads self.old.len (AfterWire (ForItem m) (decl_of dir wire None [])) (λ i. InItems (with_item m i))
            self.old.rest.now self.new.rest.now result }
        ensures shorter { OnOk result (length self.new.rest.now < length self.old.rest.now) }
        ensures len { self.new.len ≡ self.old.len }
    {
        let decl = self.decl(dir, wire)?;
        let names = self.more_names(decl.names)?;
        self.mark(b';')?;
        Ok(Item::Decl(Decl { names, ..decl }))
    }

    /// `inst { "," inst }`
    fn insts(&mut self) -> Result<List<TInst>, ParseFault>
        ensures read { (m : InModule) (master : At)
            → Reads self.old.len (InstName (insts_of m master [])) (λ is. AfterInst (insts_of m master is))
            self.old.rest.now self.new.rest.now result }
        ensures stops { OnOk result (IsNext (is_mark comma) self.new.rest.now ≡ false) }
        ensures shorter { OnOk result (length self.new.rest.now < length self.old.rest.now) }
        ensures len { self.new.len ≡ self.old.len }
    {
        let mut insts = List::new(self.alloc);
        loop {
            let inst = self.inst()?;
            insts.push(inst)?;
            if !self.takes(b',') {
                return Ok(insts);
            }
        }
    }
}
