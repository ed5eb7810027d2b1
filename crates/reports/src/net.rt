ghost use Rattle.std.specs.Prelude.{◌≡◌, [], ◌∷◌, ◌++◌, Some, codes, length, take, reverse, option_map, IfSome, OnOk, OnErr, if◌then◌else◌};
ghost use Rattle.std.specs.List.{flat_map};
ghost use Rattle.flatten_rules.specs.Root.{root_up, pin_root};
ghost use Rattle.flatten_rules.specs.Texts.{net_up, text_of, PinAt};
ghost use Rattle.flatten_rules.specs.Way.{root_on, IsOn};
ghost use Rattle.flatten_rules.specs.Design.{IsGood};
ghost use Rattle.reports.specs.Line.{line};
ghost use Rattle.reports.specs.Net.{is_same, is_led_to, members, pins_led_to, root_line, member_line, joined_line, net_text};

use emh_base::{List, ModId, NoMemory, PNet, Plain, Root};
use flatten_rules::{BitWalk, PinWalk, Way, WayRoot};
use std::alloc::Global;

/// Puts the report of a net last, by what a net bit of the occurrence at the end of a way leads to: `root ROOT`, then
/// `member NETBIT` for each net bit that leads to the same and `pin PIN` for each such pin of a leaf, in the order of
/// the unfolding. After want of memory some of it may stand there.
pub fn push_net(
    alloc: Global,
    way: &Way<'_>,
    told: WayRoot,
    out: &mut List<u8>,
) -> Result<(), NoMemory>
    requires good { IsGood way.now.plain way.now.top }
    requires on { IsOn way.now.path told }
    ensures ok { OnOk result (out.new
        ≡ out.old ++ net_text way.now.plain way.now.top (root_on way.now.path told)) }
    ensures err { OnErr result (take (length out.old) out.new ≡ out.old) }
{
    let plain = way.plain();
    let top = way.top();
    let root = way.root_told(alloc, told)?;
    push_root_line(way, told, out)?;
    push_members(alloc, plain, top, &root, out)?;
    push_joined(alloc, plain, top, &root, out)
}

fn push_root_line(way: &Way<'_>, told: WayRoot, out: &mut List<u8>) -> Result<(), NoMemory>
    requires { IsOn way.now.path told }
    ensures ok { OnOk result (out.new
        ≡ out.old ++ root_line way.now.plain way.now.top (root_on way.now.path told)) }
    ensures err { OnErr result (take (length out.old) out.new ≡ out.old) }
{
    out.extend(b"root ")?;
    way.push_root(told, out)?;
    out.push(b'\n')
}

/// Puts the lines of the net bits that lead to a root last.
fn push_members(
    alloc: Global,
    plain: &Plain,
    top: ModId,
    root: &Root,
    out: &mut List<u8>,
) -> Result<(), NoMemory>
    requires { IsGood plain.now top }
    ensures ok { OnOk result (out.new
        ≡ out.old ++ flat_map (member_line plain.now top) (members plain.now top root.now)) }
    ensures err { OnErr result (take (length out.old) out.new ≡ out.old) }
{
    let mut bits = BitWalk::new(alloc, plain, top)?;
    while let Some((net, offset)) = bits.next()? {
        push_if_member(bits.way(), net, offset, root, out)?;
    }
    Ok(())
}

/// Puts the line of a bit of a net of the occurrence at the end of the way last, where it leads to a root.
fn push_if_member(
    way: &Way<'_>,
    net: &PNet,
    offset: u16,
    root: &Root,
    out: &mut List<u8>,
) -> Result<(), NoMemory>
    requires { net_up way.now.plain way.now.top (reverse way.now.path) net.now.id ≡ Some net.now }
    ensures ok { OnOk result (out.new ≡ out.old
        ++ (if is_same root.now
        (root_up way.now.plain way.now.top (reverse way.now.path) net.now.id offset)
        then member_line way.now.plain way.now.top
        (record { path = way.now.path; net = net.now.id; offset = offset })
        else [])) }
    ensures err { OnErr result (take (length out.old) out.new ≡ out.old) }
{
    if is_member(way, net, offset, root) {
        push_member(way, net, offset, out)
    } else {
        Ok(())
    }
}

/// Whether a bit of a net of the occurrence at the end of the way leads to a root.
fn is_member(way: &Way<'_>, net: &PNet, offset: u16, root: &Root) -> bool
    ensures { result ≡ is_same root.now
        (root_up way.now.plain way.now.top (reverse way.now.path) net.now.id offset) }
{
    way.is_root(way.root(net.id, offset), root)
}

#[tactic(auto, using(crate::proofs::Kept::kept_more))]
fn push_member(way: &Way<'_>, net: &PNet, offset: u16, out: &mut List<u8>) -> Result<(), NoMemory>
    requires { net_up way.now.plain way.now.top (reverse way.now.path) net.now.id ≡ Some net.now }
    ensures ok { OnOk result (out.new ≡ out.old ++ member_line way.now.plain way.now.top
        (record { path = way.now.path; net = net.now.id; offset = offset })) }
    ensures err { OnErr result (take (length out.old) out.new ≡ out.old) }
{
    out.extend(b"member ")?;
    way.push_net_bit(net, offset, out)?;
    out.push(b'\n')
}

/// Puts the lines of the pins that lead to a root last.
fn push_joined(
    alloc: Global,
    plain: &Plain,
    top: ModId,
    root: &Root,
    out: &mut List<u8>,
) -> Result<(), NoMemory>
    requires { IsGood plain.now top }
    ensures ok { OnOk result (out.new
        ≡ out.old ++ flat_map (joined_line plain.now top) (pins_led_to plain.now top root.now)) }
    ensures err { OnErr result (take (length out.old) out.new ≡ out.old) }
{
    let mut pins = PinWalk::new(alloc, plain, top)?;
    while let Some((net, offset)) = pins.next()? {
        push_if_joined(pins.way(), net, offset, root, out)?;
    }
    Ok(())
}

/// Puts the line of a pin of the leaf at the end of the way last, where it leads to a root.
fn push_if_joined(
    way: &Way<'_>,
    net: &PNet,
    offset: u16,
    root: &Root,
    out: &mut List<u8>,
) -> Result<(), NoMemory>
    requires { net_up way.now.plain way.now.top (reverse way.now.path) net.now.id ≡ Some net.now }
    ensures ok { OnOk result (out.new ≡ out.old
        ++ (if is_led_to root.now
        (pin_root way.now.plain way.now.top (reverse way.now.path) net.now.id offset)
        then line (codes "pin" ∷ text_of way.now.plain way.now.top
        (PinAt way.now.path net.now.id offset) ∷ [])
        else [])) }
    ensures err { OnErr result (take (length out.old) out.new ≡ out.old) }
{
    if leads_to(way, way.pin_root(net.id, offset), root) {
        push_joined_pin(way, net, offset, out)
    } else {
        Ok(())
    }
}

/// Whether a pin leads to a root; one that is open leads to none.
fn leads_to(way: &Way<'_>, told: Option<WayRoot>, root: &Root) -> bool
    requires { IfSome told (IsOn way.now.path) }
    ensures { result ≡ is_led_to root.now (option_map (root_on way.now.path) told) }
{
    match told {
        None => false,
        Some(told) => way.is_root(told, root),
    }
}

#[tactic(auto, using(crate::proofs::Kept::kept_more))]
fn push_joined_pin(
    way: &Way<'_>,
    net: &PNet,
    offset: u16,
    out: &mut List<u8>,
) -> Result<(), NoMemory>
    requires { net_up way.now.plain way.now.top (reverse way.now.path) net.now.id ≡ Some net.now }
    ensures ok { OnOk result (out.new ≡ out.old
        ++ line (codes "pin" ∷ text_of way.now.plain way.now.top
        (PinAt way.now.path net.now.id offset) ∷ [])) }
    ensures err { OnErr result (take (length out.old) out.new ≡ out.old) }
{
    out.extend(b"pin ")?;
    way.push_pin(net, offset, out)?;
    out.push(b'\n')
}
