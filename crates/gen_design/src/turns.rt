ghost use Rattle.std.specs.Prelude.{◌≡◌, ◌%◌, length, IfOk, option_and_then};
ghost use Rattle.std.specs.Option.{option_copied};
ghost use Rattle.flatten_rules.specs.Domains.{port_net, ports_of};
ghost use Rattle.flatten_rules.specs.Lookup.{module_of, width_of};
ghost use Rattle.flatten_rules.specs.Sound.{IsSound};
ghost use Rattle.gen_design.specs.Turn.{after_turn, at_inst, at_port, drawn_from, inner_modules, ties, turn_edit};

use crate::made::numbered_name;
use crate::random::{drawn, given};
use emh_base::{Edit, List, ModId, NetId, NoMemory, PInst, PModule, PPort, Plain, Src};
use flatten_rules::{module_of, width_of};
use std::alloc::Global;

/// What a turn of random edits does, and the random number after it.
#[derive(Debug, Drop)]
pub struct Turned {
    /// None where the turn found no instance, or no port of its master.
    pub edit: Option<Edit>,
    pub random: u64,
}

/// The turn of a number, by the random number before it. Four draws say which kind of edit it is,
/// at which module that isn't a leaf, at which of its instances and at which port of that.
pub fn turn(alloc: Global, plain: &Plain, random: u64, turn: u32) -> Result<Turned, NoMemory>
    requires { IsSound plain.now }
    ensures edit { IfOk result (λ turned. turned.edit ≡ turn_edit plain.now random turn) }
    ensures random { IfOk result (λ turned. turned.random ≡ after_turn random) }
{
    let first = drawn(random);
    let second = drawn(first);
    let third = drawn(second);
    let fourth = drawn(third);
    let draws = Draws {
        kind: given(first) % 3,
        holder: given(second),
        inst: given(third),
        port: given(fourth),
    };
    Ok(Turned {
        edit: draws.edit(alloc, plain, turn)?,
        random: fourth,
    })
}

/// What the draws of a turn choose. The kind is 0 for a Disconnect, 1 for a Connect and 2 for a
/// Uniquify.
#[derive(Clone, Copy)]
struct Draws {
    kind: u64,
    holder: u64,
    inst: u64,
    port: u64,
}

impl Draws {
    fn edit(&self, alloc: Global, plain: &Plain, turn: u32) -> Result<Option<Edit>, NoMemory>
        requires { IsSound plain.now }
        ensures { IfOk result (λ edit. edit ≡ option_and_then
            (λ m. option_and_then (at_inst plain.now m self.now.kind self.now.port turn)
            (drawn_from m.insts self.now.inst))
            (drawn_from (inner_modules plain.now) self.now.holder)) }
    {
        let Some(holder) = drawn_module(plain, self.holder) else {
            return Ok(None);
        };
        let Some(inst) = drawn_from(holder.insts.as_slice(), self.inst) else {
            return Ok(None);
        };
        self.at_inst(alloc, plain, holder, inst, turn)
    }

    fn at_inst(
        &self,
        alloc: Global,
        plain: &Plain,
        holder: &PModule,
        inst: &PInst,
        turn: u32,
    ) -> Result<Option<Edit>, NoMemory>
        requires { IsSound plain.now }
        ensures { IfOk result (λ edit. edit
            ≡ at_inst plain.now holder.now self.now.kind self.now.port turn inst.now) }
    {
        if self.kind == 2 {
            return Ok(Some(Edit::Uniquify {
                module: holder.id,
                inst: inst.id,
                name: numbered_name(alloc, b"c", turn)?,
            }));
        }
        match drawn_from(ports_of(plain, inst.master), self.port) {
            None => Ok(None),
            Some(port) => Ok(Some(self.at_port(alloc, plain, holder, inst, *port)?)),
        }
    }

    fn at_port(
        &self,
        alloc: Global,
        plain: &Plain,
        holder: &PModule,
        inst: &PInst,
        port: PPort,
    ) -> Result<Edit, NoMemory>
        requires { IsSound plain.now }
        ensures { IfOk result (λ edit. edit
            ≡ at_port plain.now holder.now inst.now self.now.kind port) }
    {
        if self.kind == 0 {
            return Ok(Edit::Disconnect {
                module: holder.id,
                inst: inst.id,
                port: port.net,
            });
        }
        Ok(Edit::Connect {
            module: holder.id,
            inst: inst.id,
            port: port.net,
            bits: ties(alloc, port_width(plain, inst.master, port.net))?,
        })
    }
}

/// The item at a drawn place, round and round.
fn drawn_from<T>(items: &[T], number: u64) -> Option<&T>
    ensures { option_copied result ≡ drawn_from items.now number }
{
    if items.is_empty() {
        return None;
    }
    items.get((number % items.len() as u64) as usize)
}

/// The module at a drawn place among those that aren't leaves.
fn drawn_module(plain: &Plain, number: u64) -> Option<&PModule>
    ensures { option_copied result ≡ drawn_from (inner_modules plain.now) number }
{
    let count = inner_count(plain) as u64;
    if count == 0 {
        return None;
    }
    let place = (number % count) as usize;
    plain
        .modules
        .as_slice()
        .iter()
        .filter(|holder| !holder.leaf)
        .nth(place)
}

/// How many modules aren't leaves.
fn inner_count(plain: &Plain) -> usize
    ensures { result ≡ length (inner_modules plain.now) }
{
    plain
        .modules
        .as_slice()
        .iter()
        .filter(|holder| !holder.leaf)
        .count()
}

/// The ports of a module, none where it isn't there.
fn ports_of(plain: &Plain, id: ModId) -> &[PPort]
    requires { IsSound plain.now }
    ensures { result.now ≡ ports_of (module_of plain.now id) }
{
    match module_of(plain, id) {
        None => &[],
        Some(holder) => holder.ports.as_slice(),
    }
}

/// The bits of a port of a module, none where it isn't there.
fn port_width(plain: &Plain, id: ModId, port: NetId) -> u16
    requires { IsSound plain.now }
    ensures { result ≡ width_of (port_net (module_of plain.now id) port) }
{
    match module_of(plain, id) {
        None => 0,
        Some(holder) => width_of(holder, port),
    }
}

/// A 0 for each bit.
fn ties(alloc: Global, width: u16) -> Result<List<Src>, NoMemory>
    ensures { IfOk result (λ bits. bits ≡ ties width) }
{
    let mut bits = List::new(alloc);
    for _bit in 0..width {
        bits.push(Src::Tie0)?;
    }
    Ok(bits)
}
