ghost use Rattle.std.specs.Prelude.{◌≡◌, ◌<◌, ◌≤◌, ◌+◌, ◌%◌, ◌^◌, ◌++◌, [], ◌∷◌, IfOk};
ghost use Rattle.std.specs.Fmt.{decimal};
ghost use Rattle.flatten_rules.specs.Sound.{IsSound};
ghost use Rattle.gen_design.specs.Made.{across, bus, first_module, inst, inverter, later_module, made, net, numbered, on, one_inverter, shifted, shifted_offset, top_name, two_nets, two_ports, whole};

use crate::random::{drawn, given};
use emh_base::{
    Conn, Dir, InstId, List, ModId, Name, NetId, NoMemory, PInst, PModule, PNet, PPort, Plain,
    Range, Src, push_number,
};
use std::alloc::Global;

/// The table of a made design, by a random number: a leaf `INV`, and so many modules `g0`, `g1` and
/// so on whose buses are so wide. Each but `g0` has two instances of modules before it. There are 1
/// to 10,000 modules, of 1 to 64 bits.
pub fn generate(alloc: Global, number: u32, modules: u32, width: u32) -> Result<Plain, NoMemory>
    requires some { 1 ≤ modules }
    requires few { modules ≤ 10000 }
    requires wide { 1 ≤ width }
    requires narrow { width ≤ 64 }
    ensures made { IfOk result (λ plain. plain ≡ made number modules width) }
    ensures sound { IfOk result IsSound }
{
    let mut made = first_two(alloc, width)?;
    let mut random = u64::from(number);
    for j in 1..modules {
        let first = drawn(random);
        let second = drawn(first);
        random = drawn(second);
        let a = given(first);
        let b = given(second);
        let shift = given(random);
        made.push(later_module(alloc, width, j, a, b, shift)?)?;
    }
    Ok(Plain {
        modules: made,
        next_module: modules + 1,
    })
}

/// The name of the module that is to be the top of a made design of so many modules: the last.
pub fn top_name(alloc: Global, modules: u32) -> Result<Name, NoMemory>
    requires { 1 ≤ modules }
    ensures { IfOk result (λ name. name ≡ top_name modules) }
{
    numbered_name(alloc, b"g", modules - 1)
}

/// The leaf, and the first module that isn't one.
fn first_two(alloc: Global, width: u32) -> Result<List<PModule>, NoMemory>
    requires wide { 1 ≤ width }
    requires narrow { width ≤ 64 }
    ensures { IfOk result (λ made. made ≡ inverter ∷ first_module width ∷ []) }
{
    let mut made = List::new(alloc);
    made.push(inverter(alloc)?)?;
    made.push(first_module(alloc, width)?)?;
    Ok(made)
}

/// The leaf.
fn inverter(alloc: Global) -> Result<PModule, NoMemory>
    ensures { IfOk result (λ made. made ≡ inverter) }
{
    let mut nets = List::new(alloc);
    nets.push(net(alloc, 0, b"A", None)?)?;
    nets.push(net(alloc, 1, b"Y", None)?)?;
    Ok(PModule {
        id: ModId(0),
        name: named(alloc, b"INV")?,
        leaf: true,
        locked: false,
        nets,
        ports: two_ports(alloc)?,
        insts: List::new(alloc),
        next_net: 2,
        next_inst: 0,
    })
}

/// The module of inverters, one a bit.
fn first_module(alloc: Global, width: u32) -> Result<PModule, NoMemory>
    requires wide { 1 ≤ width }
    requires narrow { width ≤ 64 }
    ensures { IfOk result (λ made. made ≡ first_module width) }
{
    let mut insts = List::new(alloc);
    for k in 0..width {
        insts.push(one_inverter(alloc, width, k)?)?;
    }
    numbered(alloc, 0, two_nets(alloc, width)?, insts, 2, width)
}

/// The inverter of the bit of an index.
fn one_inverter(alloc: Global, width: u32, k: u32) -> Result<PInst, NoMemory>
    requires within { k < width }
    requires narrow { width ≤ 64 }
    ensures { IfOk result (λ made. made ≡ one_inverter width k) }
{
    let offset = across(width, k);
    Ok(PInst {
        id: InstId(k),
        name: numbered_name(alloc, b"u", k)?,
        master: ModId(0),
        conns: two_conns(
            alloc,
            one_bit(alloc, 0, offset)?,
            one_bit(alloc, 1, offset)?,
        )?,
    })
}

/// A later module, by its three draws: which modules its two instances are of, and how far the bits
/// between them are shifted.
fn later_module(
    alloc: Global,
    width: u32,
    j: u32,
    first: u64,
    second: u64,
    shift: u64,
) -> Result<PModule, NoMemory>
    requires wide { 1 ≤ width }
    requires narrow { width ≤ 64 }
    requires later { 1 ≤ j }
    requires few { j < 10000 }
    requires shift { shift < 2 ^ 31 }
    ensures { IfOk result (λ made. made ≡ later_module width j first second shift) }
{
    let mut nets = two_nets(alloc, width)?;
    nets.push(net(alloc, 2, b"w", bus(width))?)?;
    let mut insts = List::new(alloc);
    insts.push(PInst {
        id: InstId(0),
        name: named(alloc, b"a")?,
        master: earlier(first, j),
        conns: two_conns(alloc, whole(alloc, 0, width)?, whole(alloc, 2, width)?)?,
    })?;
    insts.push(PInst {
        id: InstId(1),
        name: named(alloc, b"b")?,
        master: earlier(second, j),
        conns: two_conns(
            alloc,
            shifted(alloc, 2, width, shift)?,
            whole(alloc, 1, width)?,
        )?,
    })?;
    numbered(alloc, j, nets, insts, 3, 2)
}

/// The module of a number with its content.
fn numbered(
    alloc: Global,
    j: u32,
    nets: List<PNet>,
    insts: List<PInst>,
    next_net: u32,
    next_inst: u32,
) -> Result<PModule, NoMemory>
    requires { j < 10000 }
    ensures { IfOk result (λ made. made ≡ numbered j nets insts next_net next_inst) }
{
    Ok(PModule {
        id: ModId(j + 1),
        name: numbered_name(alloc, b"g", j)?,
        leaf: false,
        locked: false,
        nets,
        ports: two_ports(alloc)?,
        insts,
        next_net,
        next_inst,
    })
}

fn two_ports(alloc: Global) -> Result<List<PPort>, NoMemory>
    ensures { IfOk result (λ made. made ≡ two_ports) }
{
    let mut ports = List::new(alloc);
    ports.push(PPort {
        net: NetId(0),
        dir: Dir::Input,
    })?;
    ports.push(PPort {
        net: NetId(1),
        dir: Dir::Output,
    })?;
    Ok(ports)
}

/// The nets of the two ports of a module that isn't the leaf.
fn two_nets(alloc: Global, width: u32) -> Result<List<PNet>, NoMemory>
    requires { 1 ≤ width }
    ensures { IfOk result (λ made. made ≡ two_nets width) }
{
    let mut nets = List::new(alloc);
    nets.push(net(alloc, 0, b"i", bus(width))?)?;
    nets.push(net(alloc, 1, b"o", bus(width))?)?;
    Ok(nets)
}

fn net(alloc: Global, id: u32, name: &[u8], range: Option<Range>) -> Result<PNet, NoMemory>
    ensures { IfOk result (λ made. made ≡ net id name.now range) }
{
    Ok(PNet {
        id: NetId(id),
        name: named(alloc, name)?,
        range,
    })
}

/// The range of all buses.
fn bus(width: u32) -> Option<Range>
    requires { 1 ≤ width }
    ensures { result ≡ bus width }
{
    Some(Range {
        left: width - 1,
        right: 0,
    })
}

/// The module of a drawn number among the first `j` that aren't the leaf.
fn earlier(number: u64, j: u32) -> ModId
    requires later { 1 ≤ j }
    requires few { j < 10000 }
    ensures { result.0 ≡ number % j + 1 }
{
    ModId((number % u64::from(j)) as u32 + 1)
}

/// The offset in a bus of an index, or the index of an offset.
fn across(width: u32, index: u32) -> u32
    requires { index < width }
    ensures { result ≡ across width index }
{
    width - 1 - index
}

fn two_conns(alloc: Global, from: Conn, to: Conn) -> Result<List<Conn>, NoMemory>
    ensures { IfOk result (λ made. made ≡ from ∷ to ∷ []) }
{
    let mut conns = List::new(alloc);
    conns.push(from)?;
    conns.push(to)?;
    Ok(conns)
}

fn one_bit(alloc: Global, id: u32, offset: u32) -> Result<Conn, NoMemory>
    requires { offset < 65536 }
    ensures { IfOk result (λ made. made ≡ on id (offset ∷ [])) }
{
    let mut bits = List::new(alloc);
    bits.push(Src::Bit(NetId(id), offset as u16))?;
    Ok(Conn::Bits(bits))
}

/// All bits of a net.
fn whole(alloc: Global, id: u32, width: u32) -> Result<Conn, NoMemory>
    requires { width ≤ 64 }
    ensures { IfOk result (λ made. made ≡ whole id width) }
{
    let mut bits = List::new(alloc);
    for offset in 0..width {
        bits.push(Src::Bit(NetId(id), offset as u16))?;
    }
    Ok(Conn::Bits(bits))
}

/// All bits of a net, each in the place of the one whose index is so many lower.
fn shifted(alloc: Global, id: u32, width: u32, shift: u64) -> Result<Conn, NoMemory>
    requires narrow { width ≤ 64 }
    requires shift { shift < 2 ^ 31 }
    ensures { IfOk result (λ made. made ≡ shifted id width shift) }
{
    let mut bits = List::new(alloc);
    for offset in 0..width {
        bits.push(Src::Bit(NetId(id), shifted_offset(width, shift, offset)))?;
    }
    Ok(Conn::Bits(bits))
}

fn shifted_offset(width: u32, shift: u64, offset: u32) -> u16
    requires narrow { width ≤ 64 }
    requires shift { shift < 2 ^ 31 }
    requires within { offset < width }
    ensures { result ≡ shifted_offset width shift offset }
{
    let index = (u64::from(across(width, offset)) + shift) % u64::from(width);
    across(width, index as u32) as u16
}

/// The name of a stem and a number.
pub fn numbered_name(alloc: Global, stem: &[u8], number: u32) -> Result<Name, NoMemory>
    ensures { IfOk result (λ name. name ≡ stem.now ++ decimal number) }
{
    let mut text = List::from_slice(alloc, stem)?;
    push_number(&mut text, u64::from(number))?;
    named(alloc, text.as_slice())
}

/// The name of bytes that are fit for one.
fn named(alloc: Global, bytes: &[u8]) -> Result<Name, NoMemory>
    ensures { IfOk result (λ name. name ≡ bytes.now) }
{
    match Name::new(alloc, bytes) {
        Ok(name) => Ok(name),
        Err(_) => Err(NoMemory),
    }
}
