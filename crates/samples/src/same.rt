//! Whether two states are the same.
use emh_base::{Conn, List, NoMemory, PInst, PModule, PNet, Path, Placement, State};

fn same_net(one: &PNet, other: &PNet) -> bool {
    one.id == other.id && one.name.as_bytes() == other.name.as_bytes() && one.range == other.range
}

fn same_conn(one: &Conn, other: &Conn) -> bool {
    match (one, other) {
        (Conn::Open, Conn::Open) => true,
        (Conn::Bits(one), Conn::Bits(other)) => one.as_slice() == other.as_slice(),
        _ => false,
    }
}

pub fn same_conns(one: &List<Conn>, other: &List<Conn>) -> bool {
    let mut same = one.len() == other.len();
    for (one, other) in one.as_slice().iter().zip(other.as_slice()) {
        same = same && same_conn(one, other);
    }
    same
}

fn same_nets(one: &List<PNet>, other: &List<PNet>) -> bool {
    let mut same = one.len() == other.len();
    for (one, other) in one.as_slice().iter().zip(other.as_slice()) {
        same = same && same_net(one, other);
    }
    same
}

fn same_inst(one: &PInst, other: &PInst) -> bool {
    one.id == other.id
        && one.name.as_bytes() == other.name.as_bytes()
        && one.master == other.master
        && same_conns(&one.conns, &other.conns)
}

fn same_insts(one: &List<PInst>, other: &List<PInst>) -> bool {
    let mut same = one.len() == other.len();
    for (one, other) in one.as_slice().iter().zip(other.as_slice()) {
        same = same && same_inst(one, other);
    }
    same
}

fn same_head(one: &PModule, other: &PModule) -> bool {
    one.id == other.id
        && one.name.as_bytes() == other.name.as_bytes()
        && one.leaf == other.leaf
        && one.locked == other.locked
}

fn same_counters(one: &PModule, other: &PModule) -> bool {
    one.next_net == other.next_net && one.next_inst == other.next_inst
}

fn same_module(one: &PModule, other: &PModule) -> bool {
    same_head(one, other)
        && same_counters(one, other)
        && one.ports.as_slice() == other.ports.as_slice()
        && same_nets(&one.nets, &other.nets)
        && same_insts(&one.insts, &other.insts)
}

fn same_modules(one: &List<PModule>, other: &List<PModule>) -> bool {
    let mut same = one.len() == other.len();
    for (one, other) in one.as_slice().iter().zip(other.as_slice()) {
        same = same && same_module(one, other);
    }
    same
}

fn same_places(one: &List<(Path, Placement)>, other: &List<(Path, Placement)>) -> bool {
    let mut same = one.len() == other.len();
    for (one, other) in one.as_slice().iter().zip(other.as_slice()) {
        same = same && one.0.steps() == other.0.steps() && one.1 == other.1;
    }
    same
}

/// Whether all that is in two states is the same.
pub fn same_state(one: &State, other: &State) -> Result<bool, NoMemory> {
    let places = one.places.to_list()?;
    let others = other.places.to_list()?;
    Ok(
        one.top == other.top
            && one.settings == other.settings
            && one.plain.next_module == other.plain.next_module
            && same_modules(&one.plain.modules, &other.plain.modules)
            && same_places(&places, &others),
    )
}
