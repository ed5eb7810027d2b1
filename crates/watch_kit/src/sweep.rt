ghost use Rattle.std.specs.Prelude.{◌≡◌, ◌++◌, [], ◌∷◌, codes, IfOk, OnOk, filter, map, flat_map, if◌then◌else◌};
ghost use Rattle.std.specs.List.{list_any};
ghost use Rattle.edit_rules.specs.Good.{IsGoodState};
ghost use Rattle.watch_kit.specs.NetBits.{BitOf, bits_in, bits_of_conn, once};
ghost use Rattle.watch_kit.specs.Sweep.{is_left_over, same_net, sweep, sweep_nets};

use desk::Desk;
use edit_rules::Facts;
use emh_base::{Change, Conn, Edit, List, ModId, NetId, NoMemory, Src, State};
use emh_session::{Halt, Observer, give_all};
use flatten_rules::{module_of, net_of, port_of};
use std::alloc::Global;

/// Deletes each net that was connected where a connection changed or went, and that nothing uses
/// any more.
#[derive(Drop)]
pub struct Sweep {
    alloc: Global,
}

impl Sweep {
    pub fn new(alloc: Global) -> Sweep {
        Sweep { alloc }
    }
}

impl Observer for Sweep {
    ghost called = { λ _. codes "Sweep" };

    ghost wants = { λ _. sweep };

    fn name(&self) -> &[u8] {
        b"Sweep"
    }

    fn changed(&self, desk: &mut Desk, entry: u32) -> Result<(), Halt> {
        let edits = answer(self.alloc, desk.state(), desk.change(entry))?;
        give_all(desk, edits.as_slice())
    }
}

fn answer(alloc: Global, state: &State, change: &Change) -> Result<List<Edit>, NoMemory>
    requires { IsGoodState state.now }
    ensures { IfOk result (λ edits. edits ≡ sweep state.now change.now) }
{
    match &change.edit {
        Edit::Connect { module, .. } => sweep_nets(alloc, state, *module, &change.was),
        Edit::Disconnect { module, .. } => sweep_nets(alloc, state, *module, &change.was),
        Edit::DeleteInst { module, .. } => sweep_nets(alloc, state, *module, &change.was),
        _ => Ok(List::new(alloc)),
    }
}

fn sweep_nets(
    alloc: Global,
    state: &State,
    id: ModId,
    was: &List<Conn>,
) -> Result<List<Edit>, NoMemory>
    requires { IsGoodState state.now }
    ensures { IfOk result (λ edits. edits ≡ sweep_nets state.now id was.now) }
{
    let named = named_nets(alloc, was.as_slice())?;
    let nets = once(alloc, named.as_slice())?;
    left_over(alloc, state, id, nets.as_slice())
}

/// Deletes those of some nets that nothing uses.
fn left_over(
    alloc: Global,
    state: &State,
    id: ModId,
    nets: &[NetId],
) -> Result<List<Edit>, NoMemory>
    requires { IsGoodState state.now }
    ensures { IfOk result (λ edits. edits
        ≡ map (Edit.DeleteNet id) (filter (is_left_over state.now id) nets.now)) }
{
    let mut edits = List::new(alloc);
    for net in nets {
        push_left_over(&mut edits, state, id, *net)?;
    }
    Ok(edits)
}

fn push_left_over(
    edits: &mut List<Edit>,
    state: &State,
    id: ModId,
    net: NetId,
) -> Result<(), NoMemory>
    requires { IsGoodState state.now }
    ensures { OnOk result (edits.new ≡ edits.old
        ++ (if is_left_over state.now id net then Edit.DeleteNet id net ∷ [] else [])) }
{
    if is_left_over(state, id, net) {
        edits.push(Edit::DeleteNet { module: id, net })?;
    }
    Ok(())
}

fn is_left_over(state: &State, id: ModId, net: NetId) -> bool
    requires { IsGoodState state.now }
    ensures { result ≡ is_left_over state.now id net }
{
    match module_of(&state.plain, id) {
        None => false,
        Some(holder) => {
            if net_of(holder, net).is_none() {
                return false;
            }
            if port_of(holder, net).is_some() {
                return false;
            }
            !state.net_used(id, net)
        }
    }
}

/// The nets that connections name, in order, each as often as it is named.
fn named_nets(alloc: Global, conns: &[Conn]) -> Result<List<NetId>, NoMemory>
    ensures { IfOk result (λ nets. nets
        ≡ map (λ (b : BitOf). b.net) (flat_map bits_of_conn conns.now)) }
{
    let mut nets = List::new(alloc);
    for conn in conns {
        push_nets(&mut nets, conn)?;
    }
    Ok(nets)
}

fn push_nets(nets: &mut List<NetId>, conn: &Conn) -> Result<(), NoMemory>
    ensures { OnOk result (nets.new
        ≡ nets.old ++ map (λ (b : BitOf). b.net) (bits_of_conn conn.now)) }
{
    match conn {
        Conn::Open => Ok(()),
        Conn::Bits(bits) => push_nets_of(nets, bits.as_slice()),
    }
}

fn push_nets_of(nets: &mut List<NetId>, bits: &[Src]) -> Result<(), NoMemory>
    ensures { OnOk result (nets.new
        ≡ nets.old ++ map (λ (b : BitOf). b.net) (flat_map bits_in bits.now)) }
{
    for source in bits {
        push_net_of(nets, *source)?;
    }
    Ok(())
}

fn push_net_of(nets: &mut List<NetId>, source: Src) -> Result<(), NoMemory>
    ensures { OnOk result (nets.new
        ≡ nets.old ++ map (λ (b : BitOf). b.net) (bits_in source)) }
{
    match source {
        Src::Tie0 => Ok(()),
        Src::Tie1 => Ok(()),
        Src::Bit(net, _) => nets.push(net),
    }
}

/// Each net once, where it stands first.
fn once(alloc: Global, nets: &[NetId]) -> Result<List<NetId>, NoMemory>
    ensures { IfOk result (λ found. found ≡ once same_net nets.now) }
{
    let mut found = List::new(alloc);
    for net in nets {
        note(&mut found, *net)?;
    }
    Ok(found)
}

/// Puts a net last that doesn't stand there yet.
fn note(found: &mut List<NetId>, net: NetId) -> Result<(), NoMemory>
    ensures { OnOk result (found.new ≡ found.old
        ++ (if list_any (λ other. same_net other net) found.old then [] else net ∷ [])) }
{
    if !is_among(found, net) {
        found.push(net)?;
    }
    Ok(())
}

fn is_among(found: &List<NetId>, net: NetId) -> bool
    ensures { result ≡ list_any (λ other. same_net other net) found.now }
{
    found.as_slice().iter().any(|other| other.0 == net.0)
}
