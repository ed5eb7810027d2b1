ghost use Rattle.std.specs.Prelude.{◌≡◌, [], ◌++◌, Some, map, reverse, codes, IfOk, OnOk};
ghost use Rattle.std.specs.List.{flat_map};
ghost use Rattle.flatten_rules.specs.Unfolding.{module_up};
ghost use Rattle.flatten_rules.specs.Root.{pin_root};
ghost use Rattle.flatten_rules.specs.Domains.{terminals, block_instances, block_nets, pins};
ghost use Rattle.flatten_rules.specs.Sound.{IsSoundModule};
ghost use Rattle.flatten_rules.specs.Texts.{PathAt, PinAt, net_up, text_of, root_text};
ghost use Rattle.flatten_rules.specs.Design.{IsGood};
ghost use Rattle.flatten_rules.specs.FlatLines.{module_text, term_line, term_lines, inst_line, net_line, pin_line, flat_lines};

use crate::lookup::{net_of, width};
use crate::sorting::sorted;
use crate::walk::{BitWalk, PinWalk, Walk, Way};
use emh_base::{List, ModId, NoMemory, PModule, PNet, PPort, Plain, push_spelled};
use std::alloc::Global;

/// The flat netlist of a top, as lines without newlines, sorted by their bytes: `term NETBIT DIR` for each bit of its
/// ports, `inst PATH CELL` for each leaf instance, `net NETBIT` for each net bit that leads to none above it, and
/// `pin PIN ROOT` for each pin of a leaf instance.
pub fn flat_lines(alloc: Global, plain: &Plain, top: ModId) -> Result<List<List<u8>>, NoMemory>
    requires { IsGood plain.now top }
    ensures { IfOk result (λ lines. lines ≡ flat_lines plain.now top) }
{
    let mut lines = Vec::new(alloc);
    push_terms(alloc, plain, top, &mut lines)?;
    push_insts(alloc, plain, top, &mut lines)?;
    push_nets(alloc, plain, top, &mut lines)?;
    push_pins(alloc, plain, top, &mut lines)?;
    sorted(alloc, lines)
}

/// Puts the lines of the top's ports last, port by port.
fn push_terms(
    alloc: Global,
    plain: &Plain,
    top: ModId,
    lines: &mut Vec<List<u8>>,
) -> Result<(), NoMemory>
    requires { IsGood plain.now top }
    ensures { OnOk result (lines.new.items ≡ lines.old.items
        ++ flat_map (term_lines plain.now top) (terminals plain.now top)) }
{
    let way = Way::new(alloc, plain, top)?;
    let holder = way.module();
    for port in holder.ports.as_slice() {
        push_term(alloc, &way, holder, port, lines)?;
    }
    Ok(())
}

/// Puts the lines of a port of the top last, from the left.
fn push_term(
    alloc: Global,
    way: &Way<'_>,
    holder: &PModule,
    port: &PPort,
    lines: &mut Vec<List<u8>>,
) -> Result<(), NoMemory>
    requires start { way.now.path ≡ [] }
    requires there { module_up way.now.plain way.now.top (reverse way.now.path) ≡ Some holder.now }
    requires sound { IsSoundModule way.now.plain holder.now }
    ensures { OnOk result (lines.new.items ≡ lines.old.items
        ++ term_lines way.now.plain way.now.top port.now) }
{
    let Some(net) = net_of(holder, port.net) else {
        return Ok(());
    };
    for offset in 0..width(net.range) {
        lines.push(term_line(alloc, way, port, net, offset)?)?;
    }
    Ok(())
}

fn term_line(
    alloc: Global,
    way: &Way<'_>,
    port: &PPort,
    net: &PNet,
    offset: u16,
) -> Result<List<u8>, NoMemory>
    requires start { way.now.path ≡ [] }
    requires there { net_up way.now.plain way.now.top (reverse way.now.path) port.now.net ≡ Some net.now }
    ensures { IfOk result (λ line. line ≡ term_line way.now.plain way.now.top port.now offset) }
{
    let mut line = List::from_slice(alloc, b"term ".as_slice())?;
    way.push_net_bit(net, offset, &mut line)?;
    line.push(b' ')?;
    line.extend(port.dir.word())?;
    Ok(line)
}

/// Puts the lines of the block instances last.
fn push_insts(
    alloc: Global,
    plain: &Plain,
    top: ModId,
    lines: &mut Vec<List<u8>>,
) -> Result<(), NoMemory>
    requires { IsGood plain.now top }
    ensures { OnOk result (lines.new.items ≡ lines.old.items
        ++ map (inst_line plain.now top) (block_instances plain.now top)) }
{
    let mut walk = Walk::new(alloc, plain, top)?;
    while walk.advance()? {
        let holder = walk.way().module();
        if holder.leaf {
            lines.push(inst_line(alloc, walk.way(), holder)?)?;
        }
    }
    Ok(())
}

fn inst_line(alloc: Global, way: &Way<'_>, holder: &PModule) -> Result<List<u8>, NoMemory>
    ensures { IfOk result (λ line. line ≡ codes "inst "
        ++ (text_of way.now.plain way.now.top (PathAt way.now.path) ++ (codes " " ++ module_text (Some holder.now)))) }
{
    let mut line = List::from_slice(alloc, b"inst ".as_slice())?;
    way.push_path(&mut line)?;
    line.push(b' ')?;
    push_spelled(&mut line, &holder.name)?;
    Ok(line)
}

/// Puts the lines of the block nets last.
fn push_nets(
    alloc: Global,
    plain: &Plain,
    top: ModId,
    lines: &mut Vec<List<u8>>,
) -> Result<(), NoMemory>
    requires { IsGood plain.now top }
    ensures { OnOk result (lines.new.items ≡ lines.old.items
        ++ map (net_line plain.now top) (block_nets plain.now top)) }
{
    let mut bits = BitWalk::new(alloc, plain, top)?;
    while let Some((net, offset)) = bits.next()? {
        if bits.way().is_own(net.id, offset) {
            lines.push(net_line(alloc, bits.way(), net, offset)?)?;
        }
    }
    Ok(())
}

fn net_line(alloc: Global, way: &Way<'_>, net: &PNet, offset: u16) -> Result<List<u8>, NoMemory>
    requires { net_up way.now.plain way.now.top (reverse way.now.path) net.now.id ≡ Some net.now }
    ensures { IfOk result (λ line. line ≡ net_line way.now.plain way.now.top
        (record { path = way.now.path; net = net.now.id; offset = offset })) }
{
    let mut line = List::from_slice(alloc, b"net ".as_slice())?;
    way.push_net_bit(net, offset, &mut line)?;
    Ok(line)
}

/// Puts the lines of the pins last.
fn push_pins(
    alloc: Global,
    plain: &Plain,
    top: ModId,
    lines: &mut Vec<List<u8>>,
) -> Result<(), NoMemory>
    requires { IsGood plain.now top }
    ensures { OnOk result (lines.new.items ≡ lines.old.items
        ++ map (pin_line plain.now top) (pins plain.now top)) }
{
    let mut pins = PinWalk::new(alloc, plain, top)?;
    while let Some((net, offset)) = pins.next()? {
        lines.push(pin_line(alloc, pins.way(), net, offset)?)?;
    }
    Ok(())
}

fn pin_line(alloc: Global, way: &Way<'_>, net: &PNet, offset: u16) -> Result<List<u8>, NoMemory>
    requires { net_up way.now.plain way.now.top (reverse way.now.path) net.now.id ≡ Some net.now }
    ensures { IfOk result (λ line. line ≡ codes "pin "
        ++ (text_of way.now.plain way.now.top (PinAt way.now.path net.now.id offset)
        ++ (codes " " ++ root_text way.now.plain way.now.top
        (pin_root way.now.plain way.now.top (reverse way.now.path) net.now.id offset)))) }
{
    let mut line = List::from_slice(alloc, b"pin ".as_slice())?;
    way.push_pin(net, offset, &mut line)?;
    line.push(b' ')?;
    way.push_pin_root(way.pin_root(net.id, offset), &mut line)?;
    Ok(line)
}
