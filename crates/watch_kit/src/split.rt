ghost use Rattle.std.specs.Prelude.{◌≡◌, ◌∷◌, [], IfOk, IsSome, map};
ghost use Rattle.edit_rules.specs.Good.{IsGoodState};
ghost use Rattle.emh_session.specs.Observing.{AnswersChange};
ghost use Rattle.watch_kit.specs.FanoutLimit.{splits};
ghost use Rattle.watch_kit.specs.Split.{new_net, split};
ghost use Rattle.watch_kit.specs.inside.Keys.{bit_of};
ghost use Rattle.watch_kit.specs.inside.Splitting.{buffer_edits, buffer_on};

use crate::mover::moves;
use crate::naming::free_name;
use crate::net_bits::BitOf;
use crate::reading::{next_inst_of, next_net_of, port_to};
use desk::Desk;
use emh_base::{Dir, Edit, Fanout, InstId, List, ModId, NetId, NoMemory, Src, State};
use emh_session::{Halt, give, give_all};
use flatten_rules::module_of;
use std::alloc::Global;

/// Splits net bits of a module one after the other, each as the design is then.
pub fn give_splits(
    alloc: Global,
    desk: &mut Desk,
    id: ModId,
    limit: Fanout,
    bits: &[BitOf],
) -> Result<(), Halt>
    requires { IsSome desk.old.base }
    ensures { AnswersChange (splits desk.old.state id limit (map bit_of bits.now))
        desk.old result desk.new }
{
    for bit in bits {
        give_split(alloc, desk, id, limit, *bit)?;
    }
    Ok(())
}

/// Splits a net bit: a buffer takes over its sinks past the first ones.
fn give_split(
    alloc: Global,
    desk: &mut Desk,
    id: ModId,
    limit: Fanout,
    bit: BitOf,
) -> Result<(), Halt>
    requires { IsSome desk.old.base }
    ensures { AnswersChange (split desk.old.state id limit (bit_of bit))
        desk.old result desk.new }
{
    let before = desk.state();
    let net = new_net(alloc, before, id)?;
    let buffer = Buffer::on(before, id, limit.cell, bit);
    let stay = limit.max.saturating_sub(1) as usize;
    let moves = moves(alloc, before, id, bit, buffer.to, stay)?;
    give(desk, net)?;
    let made = buffer.edits(alloc, desk.state(), id)?;
    give_all(desk, made.as_slice())?;
    give_all(desk, moves.as_slice())
}

/// The edit that makes the net to which sinks are moved.
fn new_net(alloc: Global, state: &State, id: ModId) -> Result<Edit, NoMemory>
    requires { IsGoodState state.now }
    ensures { IfOk result (λ edit. edit ≡ new_net state.now id) }
{
    let counter = next_net_of(module_of(&state.plain, id));
    Ok(Edit::CreateNet {
        module: id,
        name: free_name(alloc, state, id, b"fo_n", counter)?,
        range: None,
    })
}

/// A buffer that is to drive a new net from a net bit.
#[derive(Drop)]
struct Buffer {
    cell: ModId,
    input: NetId,
    output: NetId,
    from: Src,
    to: Src,
}

impl Buffer {
    /// A buffer of a cell that drives the next net that a module gets.
    fn on(state: &State, id: ModId, cell: ModId, bit: BitOf) -> Buffer
        requires { IsGoodState state.now }
        ensures { result ≡ buffer_on state.now id cell bit }
    {
        Buffer {
            cell,
            input: port_to(Dir::Input, module_of(&state.plain, cell)),
            output: port_to(Dir::Output, module_of(&state.plain, cell)),
            from: bit.source(),
            to: Src::Bit(NetId(next_net_of(module_of(&state.plain, id))), 0),
        }
    }

    /// The edits that make it and connect it.
    fn edits(&self, alloc: Global, state: &State, id: ModId) -> Result<List<Edit>, NoMemory>
        requires { IsGoodState state.now }
        ensures { IfOk result (λ edits. edits ≡ buffer_edits state.now id self.now) }
    {
        let counter = next_inst_of(module_of(&state.plain, id));
        let mut edits = List::new(alloc);
        edits.push(Edit::CreateInst {
            module: id,
            name: free_name(alloc, state, id, b"fo_b", counter)?,
            master: self.cell,
        })?;
        edits.push(joined(alloc, id, InstId(counter), self.input, self.from)?)?;
        edits.push(joined(alloc, id, InstId(counter), self.output, self.to)?)?;
        Ok(edits)
    }
}

/// The edit that connects a port of one bit.
fn joined(
    alloc: Global,
    id: ModId,
    inst: InstId,
    port: NetId,
    source: Src,
) -> Result<Edit, NoMemory>
    ensures { IfOk result (λ edit. edit ≡ Edit.Connect id inst port (source ∷ [])) }
{
    let mut bits = List::new(alloc);
    bits.push(source)?;
    Ok(Edit::Connect {
        module: id,
        inst,
        port,
        bits,
    })
}
