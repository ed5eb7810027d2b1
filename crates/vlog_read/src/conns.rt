ghost use Rattle.std.specs.Prelude.{◌≡◌, ℕ, ◌<◌, ◌≤◌, [], Some, None, false, length, OnOk};
ghost use Rattle.vlog_read.specs.declared.tree.At.{At};
ghost use Rattle.vlog_read.specs.Words.{dot};
ghost use Rattle.vlog_read.specs.Grammar.{first_at};
ghost use Rattle.vlog_read.specs.inside.Machine.State.{InInst, InInsts, InstName, FirstConn, NextConn, PortName, FirstExpr, AfterConn, AfterInst, inst_of, with_conn, with_inst, conn_of};
ghost use Rattle.vlog_read.specs.inside.Machine.Step.{is_mark};
ghost use Rattle.vlog_read.specs.inside.Machine.Reads.{IsNext, Reads};

use crate::fault::ParseFault;
use crate::reader::Reader;
use crate::tree::{At, Part, TConn, TInst};
use emh_base::List;

impl Reader<'_> {
    /// `NAME "(" conn { "," conn } ")"`
    pub fn inst(&mut self) -> Result<TInst, ParseFault>
        ensures read { (g : InInsts)
            → Reads self.old.len (InstName g) (λ i. AfterInst (with_inst (inst_of g i.name i.conns)))
            self.old.rest.now self.new.rest.now result }
        ensures shorter { OnOk result (length self.new.rest.now < length self.old.rest.now) }
        ensures len { self.new.len ≡ self.old.len }
    {
        let name = self.name()?;
        self.mark(b'(')?;
        let conns = self.conns()?;
        Ok(TInst { name, conns })
    }

    /// `conn { "," conn } ")"`, where a single empty connection is none.
    #[tactic(auto, using(crate::proofs::Passing::some_conn))]
    fn conns(&mut self) -> Result<List<TConn>, ParseFault>
        ensures read { (g : InInsts) (n : At)
            → Reads self.old.len (FirstConn (inst_of g n [])) (λ cs. AfterInst (with_inst (inst_of g n cs)))
            self.old.rest.now self.new.rest.now result }
        ensures shorter { OnOk result (length self.new.rest.now < length self.old.rest.now) }
        ensures len { self.new.len ≡ self.old.len }
    {
        let mut conns = List::new(self.alloc);
        if self.takes(b')') {
            return Ok(conns);
        }
        loop {
            let conn = self.conn()?;
            conns.push(conn)?;
            if !self.takes(b',') {
                break;
            }
        }
        self.mark(b')')?;
        Ok(conns)
    }

    /// `[ expr ] | "." NAME "(" [ expr ] ")"`
    fn conn(&mut self) -> Result<TConn, ParseFault>
        ensures read { (i : InInst)
            → Reads self.old.len (NextConn i) (λ c. AfterConn (with_conn i c))
            self.old.rest.now self.new.rest.now result }
        ensures shorter { OnOk result (length self.new.rest.now ≤ length self.old.rest.now) }
        ensures len { self.new.len ≡ self.old.len }
    {
        let at = self.at();
        if self.takes(b'.') {
            let conn = self.conn_by_name(at)?;
            return Ok(conn);
        }
        let parts = self.expr_by_order()?;
        Ok(TConn {
            at,
            port: None,
            expr_at: at,
            parts,
        })
    }

    /// `[ expr ]`, up to what ends the connection.
    #[tactic(auto, using(crate::proofs::ByOrder::by_order))]
    fn expr_by_order(&mut self) -> Result<List<Part>, ParseFault>
        requires { IsNext (is_mark dot) self.old.rest.now ≡ false }
        ensures read { (i : InInst)
            → let at = first_at self.old.rest.now in
            Reads self.old.len (NextConn i) (λ ps. AfterConn (with_conn i (conn_of at None at ps)))
            self.old.rest.now self.new.rest.now result }
        ensures shorter { OnOk result (length self.new.rest.now ≤ length self.old.rest.now) }
        ensures len { self.new.len ≡ self.old.len }
    {
        if self.ends_conn() {
            return Ok(List::new(self.alloc));
        }
        let parts = self.expr()?;
        Ok(parts)
    }

    /// `NAME "(" [ expr ] ")"`, after the dot at a place.
    fn conn_by_name(&mut self, at: u32) -> Result<TConn, ParseFault>
        ensures read { (i : InInst)
            → Reads self.old.len (PortName i at) (λ c. AfterConn (with_conn i c))
            self.old.rest.now self.new.rest.now result }
        ensures shorter { OnOk result (length self.new.rest.now < length self.old.rest.now) }
        ensures len { self.new.len ≡ self.old.len }
    {
        let port = self.name()?;
        self.mark(b'(')?;
        let expr_at = self.at();
        let parts = self.expr_by_name()?;
        Ok(TConn {
            at,
            port: Some(port),
            expr_at,
            parts,
        })
    }

    /// `[ expr ] ")"`
    #[tactic(auto, using(crate::proofs::Passing::some_expr))]
    fn expr_by_name(&mut self) -> Result<List<Part>, ParseFault>
        ensures read { (i : InInst) (at : ℕ) (port : At)
            → Reads self.old.len (FirstExpr i at port)
            (λ ps. AfterConn (with_conn i (conn_of at (Some port) (first_at self.old.rest.now) ps)))
            self.old.rest.now self.new.rest.now result }
        ensures shorter { OnOk result (length self.new.rest.now < length self.old.rest.now) }
        ensures len { self.new.len ≡ self.old.len }
    {
        if self.takes(b')') {
            return Ok(List::new(self.alloc));
        }
        let parts = self.expr()?;
        self.mark(b')')?;
        Ok(parts)
    }
}
