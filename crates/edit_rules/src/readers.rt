//! What the rules look at in one module, net or instance. Each is a plain pass over the list that it looks at.

ghost use Rattle.std.specs.Prelude.{◌≡◌, ◌==◌, ◌+◌, nat_lt, bytes_eq};
ghost use Rattle.std.specs.List.{list_any};
ghost use Rattle.std.specs.Option.{option_copied};
ghost use Rattle.edit_rules.specs.Readers.{is_name_in, lacks_room, is_too_wide, port_place, is_connected, conn_at, uses_place, is_net_used, names_net, is_of_net, same_dir, same_range, goes_through};

use emh_base::{Conn, Dir, List, ModId, NetId, PInst, PModule, Range, Src};

/// Whether a net or an instance of a module has the name.
pub fn is_name_in(holder: &PModule, name: &[u8]) -> bool
    ensures { result ≡ is_name_in (Some holder.now) name.now }
{
    is_net_name(holder, name) || is_inst_name(holder, name)
}

fn is_net_name(holder: &PModule, name: &[u8]) -> bool
    ensures { result ≡ list_any (λ net. bytes_eq net.name name.now) holder.now.nets }
{
    holder
        .nets
        .as_slice()
        .iter()
        .any(|net| net.name.as_bytes() == name)
}

fn is_inst_name(holder: &PModule, name: &[u8]) -> bool
    ensures { result ≡ list_any (λ inst. bytes_eq inst.name name.now) holder.now.insts }
{
    holder
        .insts
        .as_slice()
        .iter()
        .any(|inst| inst.name.as_bytes() == name)
}

/// Whether so many new objects need more ids than a counter has left. The last id is 4,294,967,294.
pub fn lacks_room(counter: u32, new: u32) -> bool
    ensures { result ≡ lacks_room counter new }
{
    u32::MAX - counter < new
}

/// Whether a net may not have the range: an index is above 65,535, or there are more than 4,096 bits.
pub fn is_too_wide(range: Option<Range>) -> bool
    ensures { result ≡ is_too_wide range }
{
    match range {
        None => false,
        Some(range) => {
            if 65_535 < range.left {
                return true;
            }
            if 65_535 < range.right {
                return true;
            }
            4_096 < range.left.abs_diff(range.right) + 1
        }
    }
}

/// The place of a port among a module's ports; none where there is no module.
pub fn place_of_port(holder: Option<&PModule>, port: NetId) -> Option<usize>
    ensures { result ≡ port_place (option_copied holder.entry) port }
{
    match holder {
        None => None,
        Some(holder) => {
            let mut ports = holder.ports.as_slice().iter();
            ports.position(|other| other.net.0 == port.0)
        }
    }
}

/// Whether a connection isn't open.
fn is_connected(conn: &Conn) -> bool
    ensures { result ≡ is_connected (Some conn.now) }
{
    match conn {
        Conn::Open => false,
        Conn::Bits(_) => true,
    }
}

/// Whether there is a connection at a place that isn't open.
fn is_connected_at(conns: &List<Conn>, place: Option<usize>) -> bool
    ensures { result ≡ is_connected (conn_at place conns.now) }
{
    match place {
        None => false,
        Some(place) => match conns.get(place) {
            None => false,
            Some(conn) => is_connected(conn),
        },
    }
}

/// Whether an instance in `holder` has the other module as its master and is connected at a place.
pub fn is_place_used(holder: &PModule, id: ModId, place: Option<usize>) -> bool
    ensures { result ≡ list_any (uses_place id place) holder.now.insts }
{
    let mut insts = holder.insts.as_slice().iter();
    insts.any(|inst| uses_place(inst, id, place))
}

fn uses_place(inst: &PInst, id: ModId, place: Option<usize>) -> bool
    ensures { result ≡ uses_place id place inst.now }
{
    if inst.master.0 == id.0 {
        is_connected_at(&inst.conns, place)
    } else {
        false
    }
}

/// Whether a source in a module names a net.
pub fn is_net_used(holder: &PModule, net: NetId) -> bool
    ensures { result ≡ is_net_used (Some holder.now) net }
{
    let mut insts = holder.insts.as_slice().iter();
    insts.any(|inst| is_net_used_at(inst, net))
}

fn is_net_used_at(inst: &PInst, net: NetId) -> bool
    ensures { result ≡ list_any (names_net net) inst.now.conns }
{
    let mut conns = inst.conns.as_slice().iter();
    conns.any(|conn| names_net(conn, net))
}

fn names_net(conn: &Conn, net: NetId) -> bool
    ensures { result ≡ names_net net conn.now }
{
    match conn {
        Conn::Open => false,
        Conn::Bits(bits) => is_among(bits, net),
    }
}

fn is_among(bits: &List<Src>, net: NetId) -> bool
    ensures { result ≡ list_any (is_of_net net) bits.now }
{
    let mut sources = bits.as_slice().iter();
    sources.any(|source| is_of_net(*source, net))
}

fn is_of_net(source: Src, net: NetId) -> bool
    ensures { result ≡ is_of_net net source }
{
    match source {
        Src::Tie0 => false,
        Src::Tie1 => false,
        Src::Bit(other, _) => other.0 == net.0,
    }
}

pub fn same_dir(a: Dir, b: Dir) -> bool
    ensures { result ≡ same_dir a b }
{
    match a {
        Dir::Input => match b {
            Dir::Input => true,
            Dir::Output => false,
            Dir::Inout => false,
        },
        Dir::Output => match b {
            Dir::Input => false,
            Dir::Output => true,
            Dir::Inout => false,
        },
        Dir::Inout => match b {
            Dir::Input => false,
            Dir::Output => false,
            Dir::Inout => true,
        },
    }
}

pub fn same_range(a: Option<Range>, b: Option<Range>) -> bool
    ensures { result ≡ same_range a b }
{
    match a {
        None => match b {
            None => true,
            Some(_) => false,
        },
        Some(a) => match b {
            None => false,
            Some(b) => a.left == b.left && a.right == b.right,
        },
    }
}

pub fn goes_through(a: Dir, b: Dir) -> bool
    ensures { result ≡ goes_through a b }
{
    match a {
        Dir::Input => match b {
            Dir::Input => false,
            Dir::Output => true,
            Dir::Inout => false,
        },
        Dir::Output => match b {
            Dir::Input => true,
            Dir::Output => false,
            Dir::Inout => false,
        },
        Dir::Inout => false,
    }
}
