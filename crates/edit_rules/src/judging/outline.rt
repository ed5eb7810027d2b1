ghost use Rattle.std.specs.Prelude.{◌≡◌, [], Some, map, option_map, IsTrue, IfOk};
ghost use Rattle.flatten_rules.specs.Lookup.{module_of, insts_of};
ghost use Rattle.flatten_rules.specs.Sound.{IsSound};
ghost use Rattle.edit_rules.specs.Readers.{is_module, nets_of};
ghost use Rattle.edit_rules.specs.Insts.{with_inst_alone};
ghost use Rattle.edit_rules.specs.inside.Outline.{bare_inst, bare_net, bare, grown, grown_outline};

use super::common::master_of;
use crate::facts::Facts;
use emh_base::{InstId, List, ModId, Name, NoMemory, PInst, PModule, PNet, Plain, TryCopy};
use std::alloc::Global;

/// The outline of the table that is read, with an instance of a master more in a module: its modules with their nets
/// and the masters of their instances, under one name.
pub fn grown_outline<F: Facts>(
    alloc: Global,
    facts: &F,
    name: &Name,
    id: ModId,
    master: ModId,
) -> Result<Plain, NoMemory>
    requires { IsSound (F.state facts.now).plain }
    ensures { IfOk result (λ made. made ≡ grown_outline name.now id master (F.state facts.now).plain) }
{
    let mut modules = List::new(alloc);
    let mut next = facts.module_after(None);
    while let Some(here) = next {
        modules.push(grown(alloc, facts, here, name, id, master)?)?;
        next = facts.module_after(Some(here));
    }
    Ok(Plain {
        modules,
        next_module: 0,
    })
}

/// A module of the outline, with an instance more where it is the one.
fn grown<F: Facts>(
    alloc: Global,
    facts: &F,
    here: ModId,
    name: &Name,
    id: ModId,
    master: ModId,
) -> Result<PModule, NoMemory>
    requires sound { IsSound (F.state facts.now).plain }
    requires live { IsTrue (is_module (F.state facts.now).plain here) }
    ensures { IfOk result (λ made. Some made
        ≡ option_map (grown name.now id master) (module_of (F.state facts.now).plain here)) }
{
    let holder = bare(alloc, facts, here, name)?;
    if here.0 == id.0 {
        return Ok(with_inst_last(alloc, holder, name, master)?);
    }
    Ok(holder)
}

/// The module with an instance more; the counter isn't raised.
fn with_inst_last(
    alloc: Global,
    mut holder: PModule,
    name: &Name,
    master: ModId,
) -> Result<PModule, NoMemory>
    ensures { IfOk result (λ made. made ≡ with_inst_alone name.now master [] holder) }
{
    holder.insts.push(PInst {
        id: InstId(holder.next_inst),
        name: name.copy()?,
        master,
        conns: List::new(alloc),
    })?;
    Ok(holder)
}

/// A module of the outline.
fn bare<F: Facts>(alloc: Global, facts: &F, id: ModId, name: &Name) -> Result<PModule, NoMemory>
    requires sound { IsSound (F.state facts.now).plain }
    requires live { IsTrue (is_module (F.state facts.now).plain id) }
    ensures { IfOk result (λ made. Some made
        ≡ option_map (bare name.now) (module_of (F.state facts.now).plain id)) }
{
    Ok(PModule {
        id,
        name: name.copy()?,
        leaf: facts.is_leaf(id),
        locked: false,
        nets: bare_nets(alloc, facts, id, name)?,
        ports: List::new(alloc),
        insts: bare_insts(alloc, facts, id, name)?,
        next_net: 0,
        next_inst: 0,
    })
}

/// The instances of a module of the outline.
fn bare_insts<F: Facts>(
    alloc: Global,
    facts: &F,
    id: ModId,
    name: &Name,
) -> Result<List<PInst>, NoMemory>
    requires sound { IsSound (F.state facts.now).plain }
    requires live { IsTrue (is_module (F.state facts.now).plain id) }
    ensures { IfOk result (λ made. made
        ≡ map (bare_inst name.now) (insts_of (module_of (F.state facts.now).plain id))) }
{
    let mut insts = List::new(alloc);
    let mut next = facts.inst_after(id, None);
    while let Some(inst) = next {
        insts.push(PInst {
            id: inst,
            name: name.copy()?,
            master: master_of(facts, id, inst),
            conns: List::new(alloc),
        })?;
        next = facts.inst_after(id, Some(inst));
    }
    Ok(insts)
}

/// The nets of a module of the outline.
fn bare_nets<F: Facts>(
    alloc: Global,
    facts: &F,
    id: ModId,
    name: &Name,
) -> Result<List<PNet>, NoMemory>
    requires sound { IsSound (F.state facts.now).plain }
    requires live { IsTrue (is_module (F.state facts.now).plain id) }
    ensures { IfOk result (λ made. made ≡ map (bare_net name.now) (nets_of (module_of (F.state facts.now).plain id))) }
{
    let mut nets = List::new(alloc);
    let mut next = facts.net_after(id, None);
    while let Some(net) = next {
        nets.push(PNet {
            id: net,
            name: name.copy()?,
            range: facts.net_range(id, net).unwrap(),
        })?;
        next = facts.net_after(id, Some(net));
    }
    Ok(nets)
}
