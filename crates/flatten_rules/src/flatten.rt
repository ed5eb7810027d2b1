ghost use Rattle.std.specs.Prelude.{◌≡◌, map, reverse, IfOk};
ghost use Rattle.flatten_rules.specs.Unfolding.{occurrences};
ghost use Rattle.flatten_rules.specs.Root.{pin_root};
ghost use Rattle.flatten_rules.specs.Domains.{net_bits, block_instances, pins};
ghost use Rattle.flatten_rules.specs.Design.{IsGood};
ghost use Rattle.flatten_rules.specs.Fresh.{fresh_occ, fresh_bit, fresh_inst, fresh_pin};

use crate::domain::{Fresh, FreshBit, FreshInst, FreshOcc, FreshPin};
use crate::walk::{BitWalk, PinWalk, Walk, Way};
use emh_base::{List, ModId, NetId, NoMemory, Path, Places, Plain};
use std::alloc::Global;

/// What the top of a table unfolds to: its occurrences, the net bits and what they lead to, the leaf instances with
/// their placements, the pins and what they lead to. It is plain: a walk for each of the four.
pub fn fresh(alloc: Global, plain: &Plain, top: ModId, places: &Places) -> Result<Fresh, NoMemory>
    requires { IsGood plain.now top }
    ensures occs { IfOk result (λ made. made.occs ≡ map fresh_occ (occurrences plain.now top)) }
    ensures bits { IfOk result (λ made. made.bits ≡ map (fresh_bit plain.now top) (net_bits plain.now top)) }
    ensures insts { IfOk result (λ made. made.insts ≡ map (fresh_inst places.now) (block_instances plain.now top)) }
    ensures pins { IfOk result (λ made. made.pins ≡ map (fresh_pin plain.now top) (pins plain.now top)) }
{
    Ok(Fresh {
        occs: occs_of(alloc, plain, top)?,
        bits: bits_of(alloc, plain, top)?,
        insts: insts_of(alloc, plain, top, places)?,
        pins: pins_of(alloc, plain, top)?,
    })
}

/// The occurrences, leaves too.
fn occs_of(alloc: Global, plain: &Plain, top: ModId) -> Result<List<FreshOcc>, NoMemory>
    requires { IsGood plain.now top }
    ensures { IfOk result (λ made. made ≡ map fresh_occ (occurrences plain.now top)) }
{
    let mut made = List::new(alloc);
    let mut walk = Walk::new(alloc, plain, top)?;
    while walk.advance()? {
        made.push(FreshOcc {
            path: walk.way().path(alloc)?,
            module: walk.way().module().id,
        })?;
    }
    Ok(made)
}

/// The net bits of the occurrences, with what they lead to.
fn bits_of(alloc: Global, plain: &Plain, top: ModId) -> Result<List<FreshBit>, NoMemory>
    requires { IsGood plain.now top }
    ensures { IfOk result (λ made. made ≡ map (fresh_bit plain.now top) (net_bits plain.now top)) }
{
    let mut made = List::new(alloc);
    let mut bits = BitWalk::new(alloc, plain, top)?;
    while let Some((net, offset)) = bits.next()? {
        made.push(fresh_bit(alloc, bits.way(), net.id, offset)?)?;
    }
    Ok(made)
}

/// A net's bit of the occurrence at the end of the way.
fn fresh_bit(alloc: Global, way: &Way<'_>, net: NetId, offset: u16) -> Result<FreshBit, NoMemory>
    ensures { IfOk result (λ bit. bit ≡ fresh_bit way.now.plain way.now.top
        (record { path = way.now.path; net = net; offset = offset })) }
{
    Ok(FreshBit {
        path: way.path(alloc)?,
        net,
        offset,
        root: way.root_told(alloc, way.root(net, offset))?,
    })
}

/// The leaf occurrences, with their placements.
fn insts_of(
    alloc: Global,
    plain: &Plain,
    top: ModId,
    places: &Places,
) -> Result<List<FreshInst>, NoMemory>
    requires { IsGood plain.now top }
    ensures { IfOk result (λ made. made ≡ map (fresh_inst places.now) (block_instances plain.now top)) }
{
    let mut made = List::new(alloc);
    let mut walk = Walk::new(alloc, plain, top)?;
    while walk.advance()? {
        let holder = walk.way().module();
        if holder.leaf {
            made.push(fresh_inst(walk.way().path(alloc)?, holder.id, places))?;
        }
    }
    Ok(made)
}

/// The leaf occurrence at a path, with its placement.
fn fresh_inst(path: Path, master: ModId, places: &Places) -> FreshInst
    ensures { result ≡ fresh_inst places.now (path, master) }
{
    FreshInst {
        placement: places.get(&path),
        path,
        master,
    }
}

/// The pins of the leaf occurrences, with what they lead to.
fn pins_of(alloc: Global, plain: &Plain, top: ModId) -> Result<List<FreshPin>, NoMemory>
    requires { IsGood plain.now top }
    ensures { IfOk result (λ made. made ≡ map (fresh_pin plain.now top) (pins plain.now top)) }
{
    let mut made = List::new(alloc);
    let mut pins = PinWalk::new(alloc, plain, top)?;
    while let Some((net, offset)) = pins.next()? {
        made.push(fresh_pin(alloc, pins.way(), net.id, offset)?)?;
    }
    Ok(made)
}

/// A bit of a port of the leaf at the end of the way, by the port's inner net.
fn fresh_pin(alloc: Global, way: &Way<'_>, port: NetId, offset: u16) -> Result<FreshPin, NoMemory>
    ensures { IfOk result (λ pin. pin ≡ record {
      path = way.now.path;
      port = port;
      offset = offset;
      root = pin_root way.now.plain way.now.top (reverse way.now.path) port offset;
    }) }
{
    let root = match way.pin_root(port, offset) {
        None => None,
        Some(told) => Some(way.root_told(alloc, told)?),
    };
    Ok(FreshPin {
        path: way.path(alloc)?,
        port,
        offset,
        root,
    })
}
