ghost use Rattle.std.specs.Prelude.{◌≡◌, [], ◌∷◌, ◌++◌, Some, false, length, take, map, reverse, codes, OnOk, OnErr, if◌then◌else◌};
ghost use Rattle.std.specs.List.{flat_map, range_with_len};
ghost use Rattle.std.specs.Fmt.{decimal, signed_decimal};
ghost use Rattle.emh_base.specs.Text.{dir_text, spell};
ghost use Rattle.flatten_rules.specs.Lookup.{module_of, width};
ghost use Rattle.flatten_rules.specs.Unfolding.{module_up};
ghost use Rattle.flatten_rules.specs.Root.{root_up};
ghost use Rattle.flatten_rules.specs.Domains.{is_leaf, is_own, terminals, block_instances, block_nets, bits_of_net};
ghost use Rattle.flatten_rules.specs.Texts.{net_up};
ghost use Rattle.flatten_rules.specs.Limits.{WalksAreShort};
ghost use Rattle.flatten_rules.specs.Sound.{IsAllowed, IsSoundModule};
ghost use Rattle.flatten_rules.specs.Design.{IsGood};
ghost use Rattle.reports.specs.Line.{line, path_word, bit_word};
ghost use Rattle.reports.specs.Block.{term_line, term_lines, placement_words, inst_line, pin_count, net_line, block_text};
ghost use Rattle.reports.specs.inside.PinCounts.{AreCounted};
ghost use Rattle.reports.specs.inside.Spaced.{spaced};

use crate::pin_counts::PinCounts;
use emh_base::{
    Dir, List, ModId, NoMemory, PModule, PNet, PPort, Placement, Places, Plain, push_number,
    push_spelled,
};
use flatten_rules::{BitWalk, Walk, Way, net_of, width};
use script_read::{orient_word, status_word};
use std::alloc::Global;

/// Puts the report of the block last: `term NETBIT DIR` for each bit of each port of the top, `inst PATH CELL` with
/// `unplaced` or with `X Y ORIENT STATUS` for each leaf occurrence, and `net NETBIT N` for each block net, where N is
/// how many pins lead to it. After want of memory some of it may stand there.
pub fn push_block(
    alloc: Global,
    plain: &Plain,
    top: ModId,
    places: &Places,
    out: &mut List<u8>,
) -> Result<(), NoMemory>
    requires { IsGood plain.now top }
    ensures ok { OnOk result (out.new ≡ out.old ++ block_text plain.now top places.now) }
    ensures err { OnErr result (take (length out.old) out.new ≡ out.old) }
{
    push_terms(alloc, plain, top, out)?;
    push_insts(alloc, plain, top, places, out)?;
    push_nets(alloc, plain, top, out)
}

/// Puts the lines of the bits of the top's ports last.
fn push_terms(alloc: Global, plain: &Plain, top: ModId, out: &mut List<u8>) -> Result<(), NoMemory>
    requires { IsGood plain.now top }
    ensures ok { OnOk result (out.new
        ≡ out.old ++ flat_map (term_lines plain.now top) (terminals plain.now top)) }
    ensures err { OnErr result (take (length out.old) out.new ≡ out.old) }
{
    let way = Way::new(alloc, plain, top)?;
    push_ports(&way, way.module(), out)
}

/// Puts the lines of the bits of the ports of the module at the top last.
fn push_ports(way: &Way<'_>, holder: &PModule, out: &mut List<u8>) -> Result<(), NoMemory>
    requires at { way.now.path ≡ [] }
    requires there { module_of way.now.plain way.now.top ≡ Some holder.now }
    requires sound { IsSoundModule way.now.plain holder.now }
    ensures ok { OnOk result (out.new
        ≡ out.old ++ flat_map (term_lines way.now.plain way.now.top) holder.now.ports) }
    ensures err { OnErr result (take (length out.old) out.new ≡ out.old) }
{
    for port in holder.ports.as_slice() {
        push_port(way, holder, port, out)?;
    }
    Ok(())
}

/// Puts the lines of the bits of a port of the module at the top last, from the left.
fn push_port(
    way: &Way<'_>,
    holder: &PModule,
    port: &PPort,
    out: &mut List<u8>,
) -> Result<(), NoMemory>
    requires at { way.now.path ≡ [] }
    requires there { module_of way.now.plain way.now.top ≡ Some holder.now }
    requires sound { IsSoundModule way.now.plain holder.now }
    ensures ok { OnOk result (out.new
        ≡ out.old ++ term_lines way.now.plain way.now.top port.now) }
    ensures err { OnErr result (take (length out.old) out.new ≡ out.old) }
{
    match net_of(holder, port.net) {
        None => Ok(()),
        Some(net) => push_term_bits(way, net, port.dir, out),
    }
}

/// Puts the lines of the bits of a port last, by its inner net.
fn push_term_bits(way: &Way<'_>, net: &PNet, dir: Dir, out: &mut List<u8>) -> Result<(), NoMemory>
    requires at { way.now.path ≡ [] }
    requires there { net_up way.now.plain way.now.top [] net.now.id ≡ Some net.now }
    requires allowed { IsAllowed net.now.range }
    ensures ok { OnOk result (out.new ≡ out.old
        ++ flat_map (term_line way.now.plain way.now.top (record { net = net.now.id; dir = dir }))
        (range_with_len 0 (width net.now.range))) }
    ensures err { OnErr result (take (length out.old) out.new ≡ out.old) }
{
    for offset in 0..width(net.range) {
        push_term(way, net, dir, offset, out)?;
    }
    Ok(())
}

#[tactic(auto, using(crate::proofs::Kept::kept_more))]
fn push_term(
    way: &Way<'_>,
    net: &PNet,
    dir: Dir,
    offset: u16,
    out: &mut List<u8>,
) -> Result<(), NoMemory>
    requires at { way.now.path ≡ [] }
    requires there { net_up way.now.plain way.now.top [] net.now.id ≡ Some net.now }
    ensures ok { OnOk result (out.new ≡ out.old
        ++ term_line way.now.plain way.now.top (record { net = net.now.id; dir = dir }) offset) }
    ensures err { OnErr result (take (length out.old) out.new ≡ out.old) }
{
    out.extend(b"term ")?;
    way.push_net_bit(net, offset, out)?;
    out.push(b' ')?;
    out.extend(dir.word())?;
    out.push(b'\n')
}

/// Puts the lines of the leaf occurrences last.
fn push_insts(
    alloc: Global,
    plain: &Plain,
    top: ModId,
    places: &Places,
    out: &mut List<u8>,
) -> Result<(), NoMemory>
    requires { IsGood plain.now top }
    ensures ok { OnOk result (out.new
        ≡ out.old ++ flat_map (inst_line plain.now top places.now) (block_instances plain.now top)) }
    ensures err { OnErr result (take (length out.old) out.new ≡ out.old) }
{
    let mut walk = Walk::new(alloc, plain, top)?;
    while walk.advance()? {
        let way = walk.way();
        push_if_leaf(alloc, way, way.module(), places, out)?;
    }
    Ok(())
}

/// Puts the line of the occurrence at the end of the way last, where it is a leaf.
fn push_if_leaf(
    alloc: Global,
    way: &Way<'_>,
    holder: &PModule,
    places: &Places,
    out: &mut List<u8>,
) -> Result<(), NoMemory>
    requires { module_of way.now.plain holder.now.id ≡ Some holder.now }
    ensures ok { OnOk result (out.new ≡ out.old ++ (if holder.now.leaf
        then inst_line way.now.plain way.now.top places.now (way.now.path, holder.now.id)
        else [])) }
    ensures err { OnErr result (take (length out.old) out.new ≡ out.old) }
{
    if holder.leaf {
        let placement = places.get(&way.path(alloc)?);
        push_inst(way, holder, placement, out)
    } else {
        Ok(())
    }
}

/// Puts the line of the leaf at the end of the way last, with its placement.
#[tactic(auto, using(crate::proofs::Kept::kept_more))]
fn push_inst(
    way: &Way<'_>,
    holder: &PModule,
    placement: Option<Placement>,
    out: &mut List<u8>,
) -> Result<(), NoMemory>
    ensures ok { OnOk result (out.new ≡ out.old
        ++ line (codes "inst" ∷ path_word way.now.plain way.now.top way.now.path
        ∷ spell holder.now.name ∷ placement_words placement)) }
    ensures err { OnErr result (take (length out.old) out.new ≡ out.old) }
{
    out.extend(b"inst ")?;
    way.push_path(out)?;
    out.push(b' ')?;
    push_spelled(out, &holder.name)?;
    push_placement(placement, out)?;
    out.push(b'\n')
}

/// Puts a placement last, each word behind a space.
#[tactic(auto, using(crate::proofs::Kept::kept_more))]
fn push_placement(placement: Option<Placement>, out: &mut List<u8>) -> Result<(), NoMemory>
    ensures ok { OnOk result (out.new ≡ out.old ++ flat_map spaced (placement_words placement)) }
    ensures err { OnErr result (take (length out.old) out.new ≡ out.old) }
{
    match placement {
        None => out.extend(b" unplaced"),
        Some(placement) => {
            push_signed(placement.x, out)?;
            push_signed(placement.y, out)?;
            out.push(b' ')?;
            out.extend(orient_word(placement.orient))?;
            out.push(b' ')?;
            out.extend(status_word(placement.status))
        }
    }
}

/// Puts a number with its sign last, behind a space.
#[tactic(auto, using(crate::proofs::Kept::kept_more))]
fn push_signed(number: i32, out: &mut List<u8>) -> Result<(), NoMemory>
    ensures ok { OnOk result (out.new ≡ out.old ++ spaced (signed_decimal number)) }
    ensures err { OnErr result (take (length out.old) out.new ≡ out.old) }
{
    let digits = number.to_string(out.alloc())?;
    out.push(b' ')?;
    out.extend(digits.as_bytes())
}

/// Puts the lines of the block nets last, with how many pins are counted at each.
fn push_nets(alloc: Global, plain: &Plain, top: ModId, out: &mut List<u8>) -> Result<(), NoMemory>
    requires { IsGood plain.now top }
    ensures ok { OnOk result (out.new
        ≡ out.old ++ flat_map (net_line plain.now top) (block_nets plain.now top)) }
    ensures err { OnErr result (take (length out.old) out.new ≡ out.old) }
{
    let mut counts = PinCounts::new(alloc, plain)?;
    let mut bits = BitWalk::new(alloc, plain, top)?;
    while let Some((net, offset)) = bits.next()? {
        push_if_own(alloc, bits.way(), net, offset, &mut counts, out)?;
    }
    Ok(())
}

/// Puts the line of a bit of a net of the occurrence at the end of the way last, where it leads no further up.
fn push_if_own(
    alloc: Global,
    way: &Way<'_>,
    net: &PNet,
    offset: u16,
    counts: &mut PinCounts,
    out: &mut List<u8>,
) -> Result<(), NoMemory>
    requires walks { WalksAreShort way.now.plain }
    requires inner { is_leaf (module_up way.now.plain way.now.top (reverse way.now.path)) ≡ false }
    requires there { net_up way.now.plain way.now.top (reverse way.now.path) net.now.id
        ≡ Some net.now }
    requires counted { AreCounted way.now.plain counts.old.modules.items }
    ensures counted { OnOk result (AreCounted way.now.plain counts.new.modules.items) }
    ensures ok { OnOk result (out.new ≡ out.old
        ++ (if is_own (record { path = way.now.path; net = net.now.id; offset = offset })
        (root_up way.now.plain way.now.top (reverse way.now.path) net.now.id offset)
        then net_line way.now.plain way.now.top
        (record { path = way.now.path; net = net.now.id; offset = offset })
        else [])) }
    ensures err { OnErr result (take (length out.old) out.new ≡ out.old) }
{
    if way.is_own(net.id, offset) {
        let count = counts.at(alloc, way.plain(), way.module().id, net.id, offset)?;
        push_net_line(way, net, offset, count, out)
    } else {
        Ok(())
    }
}

#[tactic(auto, using(crate::proofs::Kept::kept_more))]
fn push_net_line(
    way: &Way<'_>,
    net: &PNet,
    offset: u16,
    count: u64,
    out: &mut List<u8>,
) -> Result<(), NoMemory>
    requires { net_up way.now.plain way.now.top (reverse way.now.path) net.now.id ≡ Some net.now }
    ensures ok { OnOk result (out.new ≡ out.old
        ++ line (codes "net" ∷ bit_word way.now.plain way.now.top
        (record { path = way.now.path; net = net.now.id; offset = offset }) ∷ decimal count ∷ [])) }
    ensures err { OnErr result (take (length out.old) out.new ≡ out.old) }
{
    out.extend(b"net ")?;
    way.push_net_bit(net, offset, out)?;
    out.push(b' ')?;
    push_number(out, count)?;
    out.push(b'\n')
}
