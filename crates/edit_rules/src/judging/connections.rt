ghost use Rattle.std.specs.Prelude.{◌≡◌, not, IsTrue, IfOk, flat_map};
ghost use Rattle.flatten_rules.specs.Sound.{IsSound};
ghost use Rattle.edit_rules.specs.Judged.{Looks};
ghost use Rattle.edit_rules.specs.Readers.{is_module, is_inst, is_port, inst_in, master_id, conn_of, is_connected};
ghost use Rattle.edit_rules.specs.Insts.{names_port, source_rules, width_rules, connect_rules, disconnect_rules};

use super::common::{common, is_inst, is_net, is_port, master_of};
use super::ports::width_of;
use crate::facts::Facts;
use crate::judged::{Judged, keep};
use emh_base::{InstId, List, ModId, NetId, Object, Rule, Src};

/// Looks at what is looked at where an edit names a port of an instance's master, which is answered.
fn names_port<F: Facts>(facts: &F, id: ModId, inst: InstId, port: NetId) -> Result<ModId, Judged>
    requires sound { IsSound (F.state facts.now).plain }
    requires live { IsTrue (is_module (F.state facts.now).plain id) }
    ensures looks { Looks (names_port (F.state facts.now) id inst port) result }
    ensures master { IfOk result (λ master. master
        ≡ master_id (inst_in (F.state facts.now).plain id inst)) }
    ensures live { IfOk result (λ master. IsTrue (is_module (F.state facts.now).plain master)) }
    ensures there { IfOk result (λ _. IsTrue (is_inst (F.state facts.now).plain id inst)) }
    ensures port { IfOk result (λ master. IsTrue (is_port (F.state facts.now).plain master port)) }
{
    keep(
        Rule::NoSuchInst,
        Object::Inst(id, inst),
        !is_inst(facts, id, inst),
    )?;
    let master = master_of(facts, id, inst);
    keep(
        Rule::NoSuchPort,
        Object::Port(master, port),
        !is_port(facts, master, port),
    )?;
    Ok(master)
}

/// Looks at the rules of a Connect.
pub fn connect<F: Facts>(
    facts: &F,
    id: ModId,
    inst: InstId,
    port: NetId,
    bits: &List<Src>,
) -> Result<(), Judged>
    requires { IsSound (F.state facts.now).plain }
    ensures { Looks (connect_rules (F.state facts.now) id inst port bits.now) result }
{
    common(facts, id)?;
    names_port(facts, id, inst, port)?;
    sources(facts, id, bits.as_slice())?;
    look_width(facts, id, inst, port, bits.len())
}

/// Looks whether a connection has as many sources as the port of the instance's master has bits.
fn look_width<F: Facts>(
    facts: &F,
    id: ModId,
    inst: InstId,
    port: NetId,
    bits: usize,
) -> Result<(), Judged>
    requires sound { IsSound (F.state facts.now).plain }
    requires live { IsTrue (is_module (F.state facts.now).plain id) }
    requires there { IsTrue (is_inst (F.state facts.now).plain id inst) }
    ensures { Looks (width_rules (F.state facts.now) id inst port bits) result }
{
    let master = master_of(facts, id, inst);
    keep(
        Rule::WidthMismatch,
        Object::Port(master, port),
        bits != usize::from(width_of(facts, master, port)),
    )
}

/// Looks at the sources of a connection, in order.
fn sources<F: Facts>(facts: &F, id: ModId, bits: &[Src]) -> Result<(), Judged>
    requires sound { IsSound (F.state facts.now).plain }
    requires live { IsTrue (is_module (F.state facts.now).plain id) }
    ensures { Looks (flat_map (source_rules (F.state facts.now) id) bits.now) result }
{
    for source in bits {
        look_source(facts, id, *source)?;
    }
    Ok(())
}

/// Looks at a source: its net is there, and has the bit.
fn look_source<F: Facts>(facts: &F, id: ModId, source: Src) -> Result<(), Judged>
    requires sound { IsSound (F.state facts.now).plain }
    requires live { IsTrue (is_module (F.state facts.now).plain id) }
    ensures { Looks (source_rules (F.state facts.now) id source) result }
{
    match source {
        Src::Tie0 => Ok(()),
        Src::Tie1 => Ok(()),
        Src::Bit(net, offset) => {
            let object = Object::Net(id, net);
            keep(Rule::NoSuchNet, object, !is_net(facts, id, net))?;
            let width = width_of(facts, id, net);
            keep(Rule::BitOutOfRange, object, width <= offset)
        }
    }
}

/// Looks at the rules of a Disconnect.
pub fn disconnect<F: Facts>(facts: &F, id: ModId, inst: InstId, port: NetId) -> Result<(), Judged>
    requires { IsSound (F.state facts.now).plain }
    ensures { Looks (disconnect_rules (F.state facts.now) id inst port) result }
{
    common(facts, id)?;
    let master = names_port(facts, id, inst, port)?;
    keep(
        Rule::AlreadyOpen,
        Object::Port(master, port),
        is_open(facts, id, inst, port),
    )
}

/// Whether an instance that is there isn't connected at a port that is there.
fn is_open<F: Facts>(facts: &F, id: ModId, inst: InstId, port: NetId) -> bool
    requires sound { IsSound (F.state facts.now).plain }
    requires live { IsTrue (is_module (F.state facts.now).plain id) }
    requires there { IsTrue (is_inst (F.state facts.now).plain id inst) }
    requires port { IsTrue (is_port (F.state facts.now).plain
        (master_id (inst_in (F.state facts.now).plain id inst)) port) }
    ensures { result ≡ not (is_connected (conn_of (F.state facts.now).plain
        (inst_in (F.state facts.now).plain id inst) port)) }
{
    facts.is_open(id, inst, port)
}
