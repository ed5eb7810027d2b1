ghost use Rattle.std.specs.Prelude.{◌≡◌, ◌++◌, Some, length, take, reverse, OnOk, OnErr};
ghost use Rattle.std.specs.List.{flat_map};
ghost use Rattle.flatten_rules.specs.Lookup.{module_of};
ghost use Rattle.flatten_rules.specs.Unfolding.{module_up};
ghost use Rattle.flatten_rules.specs.Domains.{bits_of_net, bits_inside};
ghost use Rattle.flatten_rules.specs.Texts.{net_up};
ghost use Rattle.flatten_rules.specs.Sound.{IsAllowed, IsSoundModule};
ghost use Rattle.flatten_rules.specs.Design.{IsGood};
ghost use Rattle.reports.specs.Occurrences.{bit_line, occurrence_line, occurrence_lines, occurrences_text};

use emh_base::{List, ModId, NoMemory, PModule, PNet, Plain, push_spelled};
use flatten_rules::{Walk, Way, width};
use std::alloc::Global;

/// Puts the report of occurrences last: `occ PATH MODULE` for each, in preorder, followed where it is no leaf by
/// `bit NETBIT ROOT` for each of its net bits. After want of memory some of it may stand there.
pub fn push_occurrences(
    alloc: Global,
    plain: &Plain,
    top: ModId,
    out: &mut List<u8>,
) -> Result<(), NoMemory>
    requires { IsGood plain.now top }
    ensures ok { OnOk result (out.new ≡ out.old ++ occurrences_text plain.now top) }
    ensures err { OnErr result (take (length out.old) out.new ≡ out.old) }
{
    let mut walk = Walk::new(alloc, plain, top)?;
    while walk.advance()? {
        let way = walk.way();
        push_occurrence(way, way.module(), out)?;
    }
    Ok(())
}

/// Puts the lines of the occurrence at the end of the way last.
fn push_occurrence(way: &Way<'_>, holder: &PModule, out: &mut List<u8>) -> Result<(), NoMemory>
    requires there { module_up way.now.plain way.now.top (reverse way.now.path) ≡ Some holder.now }
    requires found { module_of way.now.plain holder.now.id ≡ Some holder.now }
    requires sound { IsSoundModule way.now.plain holder.now }
    ensures ok { OnOk result (out.new ≡ out.old
        ++ occurrence_lines way.now.plain way.now.top (way.now.path, holder.now.id)) }
    ensures err { OnErr result (take (length out.old) out.new ≡ out.old) }
{
    push_occurrence_line(way, holder, out)?;
    push_bits(way, holder, out)
}

#[tactic(auto, using(crate::proofs::Kept::kept_more))]
fn push_occurrence_line(way: &Way<'_>, holder: &PModule, out: &mut List<u8>) -> Result<(), NoMemory>
    requires found { module_of way.now.plain holder.now.id ≡ Some holder.now }
    ensures ok { OnOk result (out.new ≡ out.old
        ++ occurrence_line way.now.plain way.now.top (way.now.path, holder.now.id)) }
    ensures err { OnErr result (take (length out.old) out.new ≡ out.old) }
{
    out.extend(b"occ ")?;
    way.push_path(out)?;
    out.push(b' ')?;
    push_spelled(out, &holder.name)?;
    out.push(b'\n')
}

/// Puts the lines of the net bits of the occurrence at the end of the way last, none for a leaf.
fn push_bits(way: &Way<'_>, holder: &PModule, out: &mut List<u8>) -> Result<(), NoMemory>
    requires there { module_up way.now.plain way.now.top (reverse way.now.path) ≡ Some holder.now }
    requires sound { IsSoundModule way.now.plain holder.now }
    ensures ok { OnOk result (out.new ≡ out.old
        ++ flat_map (bit_line way.now.plain way.now.top) (bits_inside way.now.path (Some holder.now))) }
    ensures err { OnErr result (take (length out.old) out.new ≡ out.old) }
{
    if holder.leaf {
        return Ok(());
    }
    for net in holder.nets.as_slice() {
        push_net_bits(way, net, out)?;
    }
    Ok(())
}

/// Puts the lines of the bits of a net of the occurrence at the end of the way last, from the left.
fn push_net_bits(way: &Way<'_>, net: &PNet, out: &mut List<u8>) -> Result<(), NoMemory>
    requires there { net_up way.now.plain way.now.top (reverse way.now.path) net.now.id ≡ Some net.now }
    requires allowed { IsAllowed net.now.range }
    ensures ok { OnOk result (out.new ≡ out.old
        ++ flat_map (bit_line way.now.plain way.now.top) (bits_of_net way.now.path net.now)) }
    ensures err { OnErr result (take (length out.old) out.new ≡ out.old) }
{
    for offset in 0..width(net.range) {
        push_bit_line(way, net, offset, out)?;
    }
    Ok(())
}

/// Puts the line of a bit of a net of the occurrence at the end of the way last.
fn push_bit_line(way: &Way<'_>, net: &PNet, offset: u16, out: &mut List<u8>) -> Result<(), NoMemory>
    requires there { net_up way.now.plain way.now.top (reverse way.now.path) net.now.id ≡ Some net.now }
    ensures ok { OnOk result (out.new ≡ out.old ++ bit_line way.now.plain way.now.top
        (record { path = way.now.path; net = net.now.id; offset = offset })) }
    ensures err { OnErr result (take (length out.old) out.new ≡ out.old) }
{
    out.extend(b"bit ")?;
    way.push_net_bit(net, offset, out)?;
    out.push(b' ')?;
    way.push_root(way.root(net.id, offset), out)?;
    out.push(b'\n')
}
