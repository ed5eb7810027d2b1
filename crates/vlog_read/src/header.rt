ghost use Rattle.std.specs.Prelude.{◌≡◌, ◌<◌, ◌≤◌, [], Some, length, OnOk};
ghost use Rattle.emh_base.specs.declared.plain.Dir.{Dir};
ghost use Rattle.vlog_read.specs.declared.tree.At.{At};
ghost use Rattle.vlog_read.specs.declared.tree.Header.TheVariants.{Names, Decls};
ghost use Rattle.vlog_read.specs.inside.Machine.State.{DeclFor, SoFar, ForHeader, AfterModuleName, FirstHeader, AfterPorts, AfterDir, AfterDeclName, module_of};
ghost use Rattle.vlog_read.specs.inside.Machine.Reads.{Reads};

use crate::fault::ParseFault;
use crate::reader::Reader;
use crate::tree::{At, Decl, Header};
use emh_base::{Dir, List};

impl Reader<'_> {
    /// `[ "(" [ header ] ")" ]`, where a missing header is one of no name.
    #[tactic(auto, using(crate::proofs::Passing::no_header))]
    pub fn ports(&mut self) -> Result<Header, ParseFault>
        ensures read { (s : SoFar) (n : At)
            → Reads self.old.len (AfterModuleName s n) (λ h. AfterPorts (module_of s n h))
            self.old.rest.now self.new.rest.now result }
        ensures shorter { OnOk result (length self.new.rest.now ≤ length self.old.rest.now) }
        ensures len { self.new.len ≡ self.old.len }
    {
        if !self.takes(b'(') {
            return Ok(Header::Names(List::new(self.alloc)));
        }
        let header = self.header()?;
        Ok(header)
    }

    /// `[ header ] ")"`
    fn header(&mut self) -> Result<Header, ParseFault>
        ensures read { (s : SoFar) (n : At)
            → Reads self.old.len (FirstHeader s n) (λ h. AfterPorts (module_of s n h))
            self.old.rest.now self.new.rest.now result }
        ensures shorter { OnOk result (length self.new.rest.now < length self.old.rest.now) }
        ensures len { self.new.len ≡ self.old.len }
    {
        if self.takes(b')') {
            return Ok(Header::Names(List::new(self.alloc)));
        }
        if let Some(dir) = self.takes_dir() {
            let decls = self.port_decls(dir)?;
            return Ok(Header::Decls(decls));
        }
        let first = self.name()?;
        let mut names = List::new(self.alloc);
        names.push(first)?;
        let names = self.more_names(names)?;
        self.mark(b')')?;
        Ok(Header::Names(names))
    }

    /// `decl { "," ( decl | NAME ) } ")"`, after the first direction.
    fn port_decls(&mut self, dir: Dir) -> Result<List<Decl>, ParseFault>
        ensures read { (s : SoFar) (n : At)
            → Reads self.old.len (AfterDir (ForHeader s n []) dir) (λ ds. AfterPorts (module_of s n (Decls ds)))
            self.old.rest.now self.new.rest.now result }
        ensures shorter { OnOk result (length self.new.rest.now < length self.old.rest.now) }
        ensures len { self.new.len ≡ self.old.len }
    {
        let mut decls = List::new(self.alloc);
        let mut decl = self.port_decl(dir)?;
        while self.takes(b',') {
            match self.takes_dir() {
                Some(dir) => {
                    decls.push(decl)?;
                    decl = self.port_decl(dir)?;
                }
                None => {
                    let name = self.name()?;
                    decl.names.push(name)?;
                }
            }
        }
        self.mark(b')')?;
        decls.push(decl)?;
        Ok(decls)
    }

    /// `[ "wire" ] [ range ] NAME`, after a direction.
    fn port_decl(&mut self, dir: Dir) -> Result<Decl, ParseFault>
        ensures read { (for : DeclFor)
            → Reads self.old.len (AfterDir for dir) (AfterDeclName for)
            self.old.rest.now self.new.rest.now result }
        ensures shorter { OnOk result (length self.new.rest.now < length self.old.rest.now) }
        ensures len { self.new.len ≡ self.old.len }
    {
        let wire = self.maybe_wire();
        let decl = self.decl(Some(dir), wire)?;
        Ok(decl)
    }
}
