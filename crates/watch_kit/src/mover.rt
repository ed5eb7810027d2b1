ghost use Rattle.std.specs.Prelude.{◌≡◌, ◌∷◌, [], length, map, zip, flat_map, List, All, IfOk, OnOk};
ghost use Rattle.emh_base.specs.declared.plain.Src.{Src};
ghost use Rattle.flatten_rules.specs.Sound.{IsSound};
ghost use Rattle.edit_rules.specs.Good.{IsGoodState};
ghost use Rattle.watch_kit.specs.Sinks.{join, joins, joins_of};
ghost use Rattle.watch_kit.specs.Split.{connect_to, moved, moves};
ghost use Rattle.watch_kit.specs.inside.Keys.{bit_of};
ghost use Rattle.watch_kit.specs.inside.Counting.{FitsMaster};
ghost use Rattle.watch_kit.specs.inside.Moving.{moved_on};

use crate::net_bits::BitOf;
use crate::reading::{insts_of, taken};
use emh_base::{Conn, Edit, InstId, List, ModId, NoMemory, PInst, PPort, Plain, Src, State};
use flatten_rules::module_of;
use std::alloc::Global;

/// The edits that connect the sinks of a net bit to a new source, but for the first ones.
pub fn moves(
    alloc: Global,
    state: &State,
    id: ModId,
    bit: BitOf,
    new: Src,
    stay: usize,
) -> Result<List<Edit>, NoMemory>
    requires { IsGoodState state.now }
    ensures { IfOk result (λ edits. edits
        ≡ map (connect_to id) (moves (bit_of bit) new stay (joins state.now.plain id))) }
{
    let mut mover = Mover {
        module: id,
        bit,
        to: new,
        stay,
        edits: List::new(alloc),
    };
    mover.move_insts(&state.plain, insts_of(&state.plain, id))?;
    Ok(mover.edits)
}

/// Goes from sink to sink of a net bit. So many of them stay where they are, and the edits connect
/// the others to the new source.
#[derive(Drop)]
struct Mover {
    module: ModId,
    bit: BitOf,
    to: Src,
    stay: usize,
    edits: List<Edit>,
}

impl Mover {
    fn move_insts(&mut self, plain: &Plain, insts: &[PInst]) -> Result<(), NoMemory>
        requires sound { IsSound plain.now }
        requires fit { All (FitsMaster plain.now) insts.now }
        ensures { OnOk result (self.new
            ≡ moved_on self.old (flat_map (joins_of plain.now) insts.now)) }
    {
        for inst in insts {
            self.move_inst(plain, inst)?;
        }
        Ok(())
    }

    fn move_inst(&mut self, plain: &Plain, inst: &PInst) -> Result<(), NoMemory>
        requires sound { IsSound plain.now }
        requires fits { FitsMaster plain.now inst.now }
        ensures { OnOk result (self.new ≡ moved_on self.old (joins_of plain.now inst.now)) }
    {
        match module_of(plain, inst.master) {
            None => Ok(()),
            Some(master) => {
                self.move_ports(inst.id, master.ports.as_slice(), inst.conns.as_slice())
            }
        }
    }

    fn move_ports(&mut self, inst: InstId, ports: &[PPort], conns: &[Conn]) -> Result<(), NoMemory>
        requires { length conns.now ≡ length ports.now }
        ensures { OnOk result (self.new
            ≡ moved_on self.old (map (join inst) (zip ports.now conns.now))) }
    {
        for at in 0..ports.len() {
            self.move_port(inst, ports[at], &conns[at])?;
        }
        Ok(())
    }

    fn move_port(&mut self, inst: InstId, port: PPort, conn: &Conn) -> Result<(), NoMemory>
        ensures { OnOk result (self.new
            ≡ moved_on self.old (join inst (port, conn.now) ∷ [])) }
    {
        let sources = taken(port.dir, conn);
        let sinks = self.bit.count_in(sources);
        if sinks <= self.stay {
            self.stay -= sinks;
            return Ok(());
        }
        let bits = self.moved(sources)?;
        self.edits.push(Edit::Connect {
            module: self.module,
            inst,
            port: port.net,
            bits,
        })?;
        self.stay = 0;
        Ok(())
    }

    /// The sources with those that are the net bit in the place of the new one, but for the first
    /// ones, which stay.
    fn moved(&self, sources: &[Src]) -> Result<List<Src>, NoMemory>
        ensures { IfOk result (λ bits. bits
            ≡ moved (bit_of self.now.bit) self.now.to self.now.stay sources.now) }
    {
        let mut bits = List::new(self.edits.alloc());
        let mut stay = self.stay;
        for source in sources {
            bits.push(self.next_source(&mut stay, *source))?;
        }
        Ok(bits)
    }

    /// What stands in a source's place, where so many of the net bit's sinks still stay.
    fn next_source(&self, stay: &mut usize, source: Src) -> Src
        ensures { (more : List Src)
            → moved (bit_of self.now.bit) self.now.to stay.old (source ∷ more)
            ≡ result ∷ moved (bit_of self.now.bit) self.now.to stay.new more }
    {
        if !self.bit.is_source(source) {
            return source;
        }
        if *stay == 0 {
            return self.to;
        }
        *stay -= 1;
        source
    }
}
