ghost use Rattle.std.specs.Prelude.{◌≡◌, ◌∷◌, [], nat_lt, unwrap_or, fold, length, map, zip, flat_map, filter, count_by, All, IfOk, OnOk, if◌then◌else◌};
ghost use Rattle.flatten_rules.specs.Sound.{IsSound};
ghost use Rattle.watch_kit.specs.NetBits.{is_bit, bits_in, bits_of_conn, once};
ghost use Rattle.watch_kit.specs.Sinks.{join, joins_of};
ghost use Rattle.watch_kit.specs.FanoutLimit.{same_bit};
ghost use Rattle.watch_kit.specs.inside.Keys.{bit_of, count_at};
ghost use Rattle.watch_kit.specs.inside.Counting.{Begun, CountsMore, FitsMaster, noted, sinks_among};

use crate::net_bits::BitOf;
use crate::reading::taken;
use emh_base::{Conn, InstId, List, NoMemory, PInst, PPort, Plain, Src};
use flatten_rules::module_of;
use std::alloc::Global;
use std::collections::BTreeMap;

/// How many sinks some net bits have, each counted up to one above a limit.
#[derive(Drop)]
pub struct SinkCounts {
    limit: u32,
    counts: BTreeMap<BitOf, u64>,
}

impl SinkCounts {
    /// No net bits yet.
    pub fn new(alloc: Global, limit: u32) -> SinkCounts
        ensures limit { result.limit ≡ limit }
        ensures none { Begun [] result }
    {
        SinkCounts {
            limit,
            counts: BTreeMap::new(alloc),
        }
    }

    /// Begins to count the sinks of the net bits of a connection. They are answered, each once, in
    /// order.
    pub fn begin(&mut self, alloc: Global, conn: &Conn) -> Result<List<BitOf>, NoMemory>
        requires { Begun [] self.old }
        ensures bits { IfOk result (λ bits. map bit_of bits
            ≡ once same_bit (bits_of_conn conn.now)) }
        ensures begun { IfOk result (λ bits. Begun (map bit_of bits) self.new) }
        ensures limit { self.new.limit ≡ self.old.limit }
    {
        match conn {
            Conn::Open => Ok(List::new(alloc)),
            Conn::Bits(sources) => self.begin_bits(alloc, sources.as_slice()),
        }
    }

    fn begin_bits(&mut self, alloc: Global, sources: &[Src]) -> Result<List<BitOf>, NoMemory>
        requires { Begun [] self.old }
        ensures bits { IfOk result (λ bits. map bit_of bits
            ≡ once same_bit (flat_map bits_in sources.now)) }
        ensures begun { IfOk result (λ bits. Begun (map bit_of bits) self.new) }
        ensures limit { self.new.limit ≡ self.old.limit }
    {
        let mut bits = List::new(alloc);
        for source in sources {
            self.note_source(&mut bits, *source)?;
        }
        Ok(bits)
    }

    fn note_source(&mut self, bits: &mut List<BitOf>, source: Src) -> Result<(), NoMemory>
        requires { Begun (map bit_of bits.old) self.old }
        ensures bits { OnOk result (map bit_of bits.new
            ≡ fold noted (map bit_of bits.old) (bits_in source)) }
        ensures begun { OnOk result (Begun (map bit_of bits.new) self.new) }
        ensures limit { self.new.limit ≡ self.old.limit }
    {
        match source {
            Src::Tie0 => Ok(()),
            Src::Tie1 => Ok(()),
            Src::Bit(net, offset) => self.note(bits, BitOf { net, offset }),
        }
    }

    /// Puts a net bit last that doesn't stand there yet.
    fn note(&mut self, bits: &mut List<BitOf>, bit: BitOf) -> Result<(), NoMemory>
        requires { Begun (map bit_of bits.old) self.old }
        ensures bits { OnOk result (map bit_of bits.new
            ≡ noted (map bit_of bits.old) (bit_of bit)) }
        ensures begun { OnOk result (Begun (map bit_of bits.new) self.new) }
        ensures limit { self.new.limit ≡ self.old.limit }
    {
        if self.counts.contains_key(&bit) {
            return Ok(());
        }
        self.counts.insert(bit, 0)?;
        bits.push(bit)
    }

    /// Counts the sinks at some instances.
    pub fn count_insts(&mut self, plain: &Plain, insts: &[PInst]) -> Result<(), NoMemory>
        requires sound { IsSound plain.now }
        requires fit { All (FitsMaster plain.now) insts.now }
        ensures { OnOk result (CountsMore self.old
            (sinks_among (flat_map (joins_of plain.now) insts.now)) self.new) }
    {
        for inst in insts {
            self.count_inst(plain, inst)?;
        }
        Ok(())
    }

    fn count_inst(&mut self, plain: &Plain, inst: &PInst) -> Result<(), NoMemory>
        requires sound { IsSound plain.now }
        requires fits { FitsMaster plain.now inst.now }
        ensures { OnOk result (CountsMore self.old
            (sinks_among (joins_of plain.now inst.now)) self.new) }
    {
        match module_of(plain, inst.master) {
            None => Ok(()),
            Some(master) => {
                self.count_ports(inst.id, master.ports.as_slice(), inst.conns.as_slice())
            }
        }
    }

    fn count_ports(&mut self, inst: InstId, ports: &[PPort], conns: &[Conn]) -> Result<(), NoMemory>
        requires { length conns.now ≡ length ports.now }
        ensures { OnOk result (CountsMore self.old
            (sinks_among (map (join inst) (zip ports.now conns.now))) self.new) }
    {
        for at in 0..ports.len() {
            self.count_port(inst, ports[at], &conns[at])?;
        }
        Ok(())
    }

    fn count_port(&mut self, inst: InstId, port: PPort, conn: &Conn) -> Result<(), NoMemory>
        ensures { OnOk result (CountsMore self.old
            (sinks_among (join inst (port, conn.now) ∷ [])) self.new) }
    {
        self.count_sources(taken(port.dir, conn))
    }

    fn count_sources(&mut self, sources: &[Src]) -> Result<(), NoMemory>
        ensures { OnOk result (CountsMore self.old
            (λ b. count_by (is_bit b) sources.now) self.new) }
    {
        for source in sources {
            self.count_source(*source)?;
        }
        Ok(())
    }

    fn count_source(&mut self, source: Src) -> Result<(), NoMemory>
        ensures { OnOk result (CountsMore self.old
            (λ b. if is_bit b source then 1 else 0) self.new) }
    {
        match source {
            Src::Tie0 => Ok(()),
            Src::Tie1 => Ok(()),
            Src::Bit(net, offset) => self.count(BitOf { net, offset }),
        }
    }

    /// Counts one sink more of a net bit, if it is among those that are counted.
    fn count(&mut self, bit: BitOf) -> Result<(), NoMemory>
        ensures { OnOk result (CountsMore self.old
            (λ b. if same_bit (bit_of bit) b then 1 else 0) self.new) }
    {
        let Some(count) = self.counts.get(&bit).copied() else {
            return Ok(());
        };
        if count <= u64::from(self.limit) {
            self.counts.insert(bit, count + 1)?;
        }
        Ok(())
    }

    /// Those of some net bits that have more sinks than the limit.
    pub fn over(&self, alloc: Global, bits: &[BitOf]) -> Result<List<BitOf>, NoMemory>
        ensures { IfOk result (λ found. found
            ≡ filter (λ bit. nat_lt self.now.limit
            (unwrap_or (count_at self.now.counts.entries bit) 0)) bits.now) }
    {
        let mut found = List::new(alloc);
        for bit in bits {
            if self.is_over(*bit) {
                found.push(*bit)?;
            }
        }
        Ok(found)
    }

    fn is_over(&self, bit: BitOf) -> bool
        ensures { result ≡ nat_lt self.now.limit
            (unwrap_or (count_at self.now.counts.entries bit) 0) }
    {
        match self.counts.get(&bit) {
            None => false,
            Some(count) => u64::from(self.limit) < *count,
        }
    }
}
