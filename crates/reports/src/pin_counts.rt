//! How many pins lead to each net bit, counted once a module: by the pins of the leaf cell that it is, and by what the
//! masters of its instances have at the bits of their ports.

ghost use Rattle.std.specs.Prelude.{◌≡◌, ℕ, ◌+◌, ◌<◌, ◌≢◌, [], Some, length, slice_get, map, AllPairs, IfOk, OnOk, IsSome, IsSomeAnd, if◌then◌else◌};
ghost use Rattle.std.specs.List.{flat_map, range_with_len, zip};
ghost use Rattle.emh_base.specs.declared.plain.PNet.{PNet};
ghost use Rattle.flatten_rules.specs.Lookup.{module_of, width};
ghost use Rattle.flatten_rules.specs.Limits.{WalksAreShort};
ghost use Rattle.flatten_rules.specs.Sound.{IsAllowed, IsSound, IsSoundModule};
ghost use Rattle.reports.specs.inside.Below.{port_bits, cell_bits, pins_at, WalksBelow};
ghost use Rattle.reports.specs.inside.Links.{links_from, links_of_conn, links_of, links, is_bit};
ghost use Rattle.reports.specs.inside.PinCounts.{Key, count_at, Adds, AddsEach, Joins, IsCounted, AreCounted, IsThere};

use crate::counts::more_by;
use emh_base::{Conn, ModId, NetId, NoMemory, PInst, PModule, PPort, Plain, Src};
use flatten_rules::{DEPTH_LIMIT, net_of, place_of_module, width};
use std::alloc::Global;
use std::collections::BTreeMap;

/// The most modules on a walk of instances.
const LEVELS: u64 = DEPTH_LIMIT + 1;

/// How many pins of leaves lead to each net bit of a module from below, none where no pin does.
#[derive(Drop)]
pub(crate) struct BitCounts {
    pub counts: BTreeMap<(NetId, usize), u64>,
}

impl BitCounts {
    fn new(alloc: Global) -> BitCounts
        ensures { result.counts.entries ≡ [] }
    {
        BitCounts {
            counts: BTreeMap::new(alloc),
        }
    }

    /// How many pins are counted at a net bit.
    fn at(&self, net: NetId, offset: usize) -> u64
        ensures { result ≡ count_at self.now.counts.entries (net, offset) }
    {
        match self.counts.get(&(net, offset)) {
            None => 0,
            Some(count) => *count,
        }
    }

    /// Counts so many pins more at a net bit.
    fn add(&mut self, net: NetId, offset: usize, more: u64) -> Result<(), NoMemory>
        ensures { OnOk result (Adds self.old.counts.entries self.new.counts.entries (net, offset) more) }
    {
        let sum = more_by(self.at(net, offset), more)?;
        self.counts.insert((net, offset), sum)?;
        Ok(())
    }

    /// Counts the pins of a module that is a leaf cell, each at itself.
    fn add_cell(&mut self, holder: &PModule) -> Result<(), NoMemory>
        requires { (M : _) × IsSoundModule M holder.now }
        ensures { OnOk result (AddsEach self.old.counts.entries self.new.counts.entries
            (cell_bits (Some holder.now))) }
    {
        if holder.leaf {
            self.add_ports(holder)
        } else {
            Ok(())
        }
    }

    /// Counts a pin at each bit of each port.
    fn add_ports(&mut self, holder: &PModule) -> Result<(), NoMemory>
        requires { (M : _) × IsSoundModule M holder.now }
        ensures { OnOk result (AddsEach self.old.counts.entries self.new.counts.entries
            (flat_map (port_bits holder.now) holder.now.ports)) }
    {
        for port in holder.ports.as_slice() {
            self.add_port(holder, *port)?;
        }
        Ok(())
    }

    /// Counts a pin at each bit of a port.
    fn add_port(&mut self, holder: &PModule, port: PPort) -> Result<(), NoMemory>
        requires { (M : _) × IsSoundModule M holder.now }
        ensures { OnOk result (AddsEach self.old.counts.entries self.new.counts.entries
            (port_bits holder.now port)) }
    {
        match net_of(holder, port.net) {
            None => Ok(()),
            Some(net) => self.add_bits(port.net, width(net.range)),
        }
    }

    /// Counts a pin at each bit of a net of that width.
    fn add_bits(&mut self, net: NetId, width: u16) -> Result<(), NoMemory>
        ensures { OnOk result (AddsEach self.old.counts.entries self.new.counts.entries
            (map (λ offset. (net, offset)) (range_with_len 0 width))) }
    {
        for offset in 0..usize::from(width) {
            self.add(net, offset, 1)?;
        }
        Ok(())
    }

    /// Counts the pins below an instance at the sources of the bits of its master's ports.
    fn add_inst(
        &mut self,
        master: &PModule,
        inst: &PInst,
        below: &BitCounts,
    ) -> Result<(), NoMemory>
        requires { length inst.now.conns ≡ length master.now.ports }
        ensures { OnOk result (Joins (λ port offset. count_at below.now.counts.entries (port, offset))
            self.old.counts.entries self.new.counts.entries
            (flat_map links_of (zip master.now.ports inst.now.conns))) }
    {
        let ports = master.ports.as_slice();
        let conns = inst.conns.as_slice();
        for at in 0..ports.len() {
            self.add_conn(ports[at].net, &conns[at], below)?;
        }
        Ok(())
    }

    /// The same for one port.
    fn add_conn(&mut self, port: NetId, conn: &Conn, below: &BitCounts) -> Result<(), NoMemory>
        ensures { OnOk result (Joins (λ port offset. count_at below.now.counts.entries (port, offset))
            self.old.counts.entries self.new.counts.entries (links_of_conn port conn.now)) }
    {
        match conn {
            Conn::Open => Ok(()),
            Conn::Bits(bits) => self.add_sources(port, bits.as_slice(), below),
        }
    }

    /// Counts the pins at the bits of a port at their sources.
    fn add_sources(&mut self, port: NetId, bits: &[Src], below: &BitCounts) -> Result<(), NoMemory>
        ensures { OnOk result (Joins (λ port offset. count_at below.now.counts.entries (port, offset))
            self.old.counts.entries self.new.counts.entries (links_from port 0 bits.now)) }
    {
        for offset in 0..bits.len() {
            self.add_source(bits[offset], below.at(port, offset))?;
        }
        Ok(())
    }

    /// Counts so many pins more at a source, where it is a net bit.
    fn add_source(&mut self, source: Src, more: u64) -> Result<(), NoMemory>
        ensures { OnOk result ((key : Key) → count_at self.new.counts.entries key
            ≡ count_at self.old.counts.entries key
            + (if is_bit key.0 key.1 source then more else 0)) }
    {
        match source {
            Src::Tie0 | Src::Tie1 => Ok(()),
            Src::Bit(net, offset) => self.add(net, usize::from(offset), more),
        }
    }
}

/// Numbers of pins by the net bits that they lead to, for those modules of a table that were asked for.
#[derive(Drop)]
pub(crate) struct PinCounts {
    pub modules: Vec<Option<BitCounts>>,
}

impl PinCounts {
    /// No module is counted yet.
    pub fn new(alloc: Global, plain: &Plain) -> Result<PinCounts, NoMemory>
        ensures { IfOk result (λ made. AreCounted plain.now made.modules.items) }
    {
        let mut modules = Vec::new(alloc);
        for _place in 0..plain.modules.len() {
            modules.push(None)?;
        }
        Ok(PinCounts { modules })
    }

    /// How many pins lead to a bit of a net of a module from below. Its module is counted where it wasn't yet.
    pub fn at(
        &mut self,
        alloc: Global,
        plain: &Plain,
        id: ModId,
        net: NetId,
        offset: u16,
    ) -> Result<u64, NoMemory>
        requires sound { IsSound plain.now }
        requires walks { WalksAreShort plain.now }
        requires counted { AreCounted plain.now self.old.modules.items }
        requires there { IsSome (module_of plain.now id) }
        ensures counted { OnOk result (AreCounted plain.now self.new.modules.items) }
        ensures count { IfOk result (λ count. count ≡ pins_at plain.now id net offset) }
    {
        match place_of_module(plain, id) {
            None => unreachable!(),
            Some(place) => {
                self.fill(alloc, plain, place, LEVELS)?;
                match &self.modules[place] {
                    None => unreachable!(),
                    Some(counted) => Ok(counted.at(net, usize::from(offset))),
                }
            }
        }
    }

    /// Counts the module at a place, and those that it needs first.
    #[cycle(fill)]
    fn fill(
        &mut self,
        alloc: Global,
        plain: &Plain,
        place: usize,
        levels: u64,
    ) -> Result<(), NoMemory>
        requires sound { IsSound plain.now }
        requires walks { WalksAreShort plain.now }
        requires counted { AreCounted plain.now self.old.modules.items }
        requires short { IsSomeAnd (slice_get plain.now.modules place)
            (λ m. WalksBelow plain.now m.id levels) }
        ensures counted { OnOk result (AreCounted plain.now self.new.modules.items) }
        ensures there { OnOk result (IsThere self.new.modules.items place) }
    {
        if self.modules[place].is_some() {
            return Ok(());
        }
        let made = self.count(alloc, plain, &plain.modules.as_slice()[place], levels)?;
        self.modules[place] = Some(made);
        Ok(())
    }

    /// The numbers of a module, from those of the masters of its instances.
    #[cycle(fill)]
    fn count(
        &mut self,
        alloc: Global,
        plain: &Plain,
        holder: &PModule,
        levels: u64,
    ) -> Result<BitCounts, NoMemory>
        requires sound { IsSound plain.now }
        requires walks { WalksAreShort plain.now }
        requires counted { AreCounted plain.now self.old.modules.items }
        requires there { module_of plain.now holder.now.id ≡ Some holder.now }
        requires short { WalksBelow plain.now holder.now.id levels }
        ensures counted { OnOk result (AreCounted plain.now self.new.modules.items) }
        ensures made { IfOk result (λ made.
            IsCounted plain.now holder.now.id made.counts.entries) }
    {
        let mut made = BitCounts::new(alloc);
        made.add_cell(holder)?;
        for inst in holder.insts.as_slice() {
            self.add_below(alloc, plain, inst, levels - 1, &mut made)?;
        }
        Ok(made)
    }

    /// Counts the pins below an instance in the numbers of its module.
    #[cycle(fill)]
    fn add_below(
        &mut self,
        alloc: Global,
        plain: &Plain,
        inst: &PInst,
        levels: u64,
        made: &mut BitCounts,
    ) -> Result<(), NoMemory>
        requires sound { IsSound plain.now }
        requires walks { WalksAreShort plain.now }
        requires counted { AreCounted plain.now self.old.modules.items }
        requires short { IsSomeAnd (module_of plain.now inst.now.master)
            (λ master. WalksBelow plain.now master.id levels) }
        requires many { IsSomeAnd (module_of plain.now inst.now.master)
            (λ master. length inst.now.conns ≡ length master.ports) }
        ensures counted { OnOk result (AreCounted plain.now self.new.modules.items) }
        ensures joined { OnOk result (Joins (pins_at plain.now inst.now.master)
            made.old.counts.entries made.new.counts.entries (links plain.now inst.now)) }
    {
        match place_of_module(plain, inst.master) {
            None => unreachable!(),
            Some(place) => {
                self.fill(alloc, plain, place, levels)?;
                match &self.modules[place] {
                    None => unreachable!(),
                    Some(below) => made.add_inst(&plain.modules.as_slice()[place], inst, below),
                }
            }
        }
    }
}
