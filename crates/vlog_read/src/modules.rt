ghost use Rattle.std.specs.Prelude.{◌≡◌, ◌∷◌, ◌++◌, [], ◌<◌, false, Bool, List, length, OnOk};
ghost use Rattle.vlog_read.specs.declared.tree.TModule.{TModule};
ghost use Rattle.vlog_read.specs.declared.tree.At.{At};
ghost use Rattle.vlog_read.specs.declared.tree.Header.{Header};
ghost use Rattle.vlog_read.specs.inside.Machine.State.{Top, InItems, finished};
ghost use Rattle.vlog_read.specs.inside.Machine.Reads.{IsNext, Reads, Gives};
ghost use Rattle.vlog_read.specs.inside.Machine.Taken.{is_celldefine, so_far, inside};

use crate::fault::ParseFault;
use crate::reader::Reader;
use crate::tree::{Item, TModule, Tree};
use crate::word;
use emh_base::List;

impl Reader<'_> {
    /// `` { `celldefine | `endcelldefine | module } ``, to the end.
    pub fn modules(&mut self) -> Result<Tree, ParseFault>
        ensures { Gives self.old.len self.old.rest.now result }
    {
        let mut modules = List::new(self.alloc);
        let mut marked = false;
        while !self.rest.is_empty() {
            match self.takes_celldefine() {
                Some(marks) => marked = marks,
                None => {
                    let one = self.one_module(marked)?;
                    modules.push(one)?;
                }
            }
        }
        Ok(Tree { modules })
    }

    /// `"module" NAME [ "(" [ header ] ")" ] ";" { item } "endmodule"`, marked or not, where some token is next, and no
    /// celldefine token.
    fn one_module(&mut self, marked: bool) -> Result<TModule, ParseFault>
        requires some { 0 < length self.old.rest.now }
        requires other { IsNext is_celldefine self.old.rest.now ≡ false }
        ensures read { (ms : List TModule)
            → Reads self.old.len (Top (so_far ms marked)) (λ m. Top (so_far (ms ++ m ∷ []) marked))
            self.old.rest.now self.new.rest.now result }
        ensures shorter { OnOk result (length self.new.rest.now < length self.old.rest.now) }
        ensures len { self.new.len ≡ self.old.len }
    {
        self.word(word::MODULE)?;
        let name = self.name()?;
        let header = self.ports()?;
        self.mark(b';')?;
        let items = self.items()?;
        Ok(TModule {
            name,
            marked,
            header,
            items,
        })
    }

    /// `{ item } "endmodule"`
    fn items(&mut self) -> Result<List<Item>, ParseFault>
        ensures read { (ms : List TModule) (marked : Bool) (n : At) (h : Header)
            → Reads self.old.len (InItems (inside ms marked n h [])) (λ is. Top (finished (inside ms marked n h is)))
            self.old.rest.now self.new.rest.now result }
        ensures shorter { OnOk result (length self.new.rest.now < length self.old.rest.now) }
        ensures len { self.new.len ≡ self.old.len }
    {
        let mut items = List::new(self.alloc);
        while !self.takes_word(word::ENDMODULE) {
            let item = self.item()?;
            items.push(item)?;
        }
        Ok(items)
    }
}
