//! The row of a module in the table: its nets, ports and instances.
ghost use Rattle.std.specs.Prelude.{◌≡◌, ℕ, Bool, List, Some, ◌++◌, ◌∷◌, [], map, length, slice_get, IfOk, OnOk};
ghost use Rattle.std.specs.List.{flat_map};
ghost use Rattle.vlog_read.specs.declared.tree.TInst.{TInst};
ghost use Rattle.vlog_elab.specs.declared.interface.Port.{Port};
ghost use Rattle.vlog_elab.specs.declared.scope.Net.{Net};
ghost use Rattle.vlog_elab.specs.Named.{named, numbered};
ghost use Rattle.vlog_elab.specs.Interfaces.{interface};
ghost use Rattle.vlog_elab.specs.Counters.{HasCounters};
ghost use Rattle.vlog_elab.specs.Table.{nets as nets_of, net_row, port_row, inst_row, insts_in, insts, row};

use crate::bits::{counter, net_id, number};
use crate::conns::conns_of;
use crate::interface::{Interface, Port};
use crate::names::Names;
use crate::scope::Net;
use emh_base::{InstId, List, ModId, NetId, NoMemory, PInst, PModule, PNet, PPort, TryCopy};
use std::alloc::Global;
use vlog_read::{At, Item, TInst, TModule};

/// The row of a module with this interface and these nets, where the modules of the table have these interfaces.
pub fn row_of(
    alloc: Global,
    interfaces: &Names<'_, Interface<'_>>,
    own: &Interface<'_>,
    m: &TModule,
    nets: &Names<'_, Net>,
) -> Result<PModule, NoMemory>
    requires { nets.now ≡ nets_of m.now }
    ensures row { IfOk result (λ made. (all_leaf : Bool) (id : ℕ) → own.now
        ≡ (interface all_leaf id m.now).1
        → made ≡ row interfaces.now all_leaf id m.now) }
    ensures counters { IfOk result HasCounters }
{
    let insts = insts_of(alloc, interfaces, nets, m)?;
    Ok(PModule {
        id: own.id,
        name: m.name.name.copy()?,
        leaf: own.leaf,
        locked: false,
        nets: net_rows(alloc, nets)?,
        ports: port_rows(alloc, nets, &own.ports)?,
        next_net: counter(nets.len())?,
        next_inst: counter(insts.len())?,
        insts,
    })
}

fn net_rows(alloc: Global, nets: &Names<'_, Net>) -> Result<List<PNet>, NoMemory>
    ensures { IfOk result (λ rows. rows ≡ numbered net_row 0 nets.now) }
{
    let mut rows = List::new(alloc);
    for place in 0..nets.len() {
        add_net(&mut rows, nets, place)?;
    }
    Ok(rows)
}

/// Puts the net at a place last.
fn add_net(rows: &mut List<PNet>, nets: &Names<'_, Net>, place: usize) -> Result<(), NoMemory>
    ensures { (net : List ℕ × Net) → slice_get nets.now place ≡ Some net
        → OnOk result (rows.new ≡ rows.old ++ net_row place net ∷ []) }
{
    let (Some(name), Some(net)) = (nets.name(place), nets.at(place)) else {
        return Ok(());
    };
    rows.push(PNet {
        id: NetId(number(place)?),
        name: name.copy()?,
        range: net.range,
    })
}

fn port_rows(
    alloc: Global,
    nets: &Names<'_, Net>,
    ports: &Names<'_, Port>,
) -> Result<List<PPort>, NoMemory>
    ensures { IfOk result (λ rows. rows ≡ map (port_row nets.now) ports.now) }
{
    let mut rows = List::new(alloc);
    for place in 0..ports.len() {
        add_port(&mut rows, nets, ports, place)?;
    }
    Ok(rows)
}

/// Puts the port at a place last.
fn add_port(
    rows: &mut List<PPort>,
    nets: &Names<'_, Net>,
    ports: &Names<'_, Port>,
    place: usize,
) -> Result<(), NoMemory>
    ensures { (port : List ℕ × Port) → slice_get ports.now place ≡ Some port
        → OnOk result (rows.new ≡ rows.old ++ port_row nets.now port ∷ []) }
{
    let (Some(name), Some(port)) = (ports.name(place), ports.at(place)) else {
        return Ok(());
    };
    rows.push(PPort {
        net: net_id(nets, name)?,
        dir: port.dir,
    })
}

fn insts_of(
    alloc: Global,
    interfaces: &Names<'_, Interface<'_>>,
    nets: &Names<'_, Net>,
    m: &TModule,
) -> Result<List<PInst>, NoMemory>
    ensures { IfOk result (λ rows. rows ≡ numbered (inst_row interfaces.now nets.now) 0 (insts m.now)) }
{
    let mut rows = List::new(alloc);
    let items = m.items.as_slice();
    for item in items {
        add_item(alloc, &mut rows, interfaces, nets, item)?;
    }
    Ok(rows)
}

fn add_item(
    alloc: Global,
    rows: &mut List<PInst>,
    interfaces: &Names<'_, Interface<'_>>,
    nets: &Names<'_, Net>,
    item: &Item,
) -> Result<(), NoMemory>
    ensures { OnOk result (rows.new ≡ rows.old
        ++ numbered (inst_row interfaces.now nets.now) (length rows.old) (insts_in item.now)) }
{
    match item {
        Item::Decl(_) => Ok(()),
        Item::Insts(master, insts) => add_insts(
            alloc,
            rows,
            interfaces,
            nets,
            master,
            insts.as_slice(),
        ),
    }
}

fn add_insts(
    alloc: Global,
    rows: &mut List<PInst>,
    interfaces: &Names<'_, Interface<'_>>,
    nets: &Names<'_, Net>,
    master: &At,
    insts: &[TInst],
) -> Result<(), NoMemory>
    ensures { OnOk result (rows.new ≡ rows.old
        ++ numbered (inst_row interfaces.now nets.now) (length rows.old) (map
        (λ (i : TInst). (master.now, i)) insts.now)) }
{
    for inst in insts {
        let row = inst_row(alloc, rows.len(), interfaces, nets, master, inst)?;
        rows.push(row)?;
    }
    Ok(())
}

fn inst_row(
    alloc: Global,
    id: usize,
    interfaces: &Names<'_, Interface<'_>>,
    nets: &Names<'_, Net>,
    master: &At,
    inst: &TInst,
) -> Result<PInst, NoMemory>
    ensures { IfOk result (λ made. made ≡ inst_row interfaces.now nets.now id (master.now, inst.now)) }
{
    let conns = inst.conns.as_slice();
    let (master, conns) = match interfaces.get(&master.name) {
        Some(interface) => (
            interface.id,
            conns_of(alloc, nets, &interface.ports, conns)?,
        ),
        None => (ModId(0), List::new(alloc)),
    };
    Ok(PInst {
        id: InstId(number(id)?),
        name: inst.name.name.copy()?,
        master,
        conns,
    })
}
