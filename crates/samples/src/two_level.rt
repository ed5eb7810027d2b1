//! The worked example: a top of two pairs, each of two inverters in a row.
use crate::designs::{BARE, Design};
use crate::modules::{Conns, EMPTY, Module, Port};
use emh_base::Src::Bit;
use emh_base::{Dir, NetId};

pub const IN_AND_OUT: &[Port] = &[(0, Dir::Input), (1, Dir::Output)];

pub const INV: Module = Module {
    name: "INV",
    leaf: true,
    nets: &[(0, "A", None), (1, "Y", None)],
    ports: IN_AND_OUT,
    next_net: 2,
    ..EMPTY
};

pub const BUF: Module = Module {
    id: 1,
    name: "BUF",
    ..INV
};

/// From net 0 to net 2.
pub const FRONT: Conns = &[&[Bit(NetId(0), 0)], &[Bit(NetId(2), 0)]];

/// From net 2 to net 1.
pub const BACK: Conns = &[&[Bit(NetId(2), 0)], &[Bit(NetId(1), 0)]];

pub const PAIR: Module = Module {
    id: 2,
    name: "pair",
    nets: &[(0, "a", None), (1, "y", None), (2, "m", None)],
    ports: IN_AND_OUT,
    insts: &[(0, "u1", 0, FRONT), (1, "u2", 0, BACK)],
    next_net: 3,
    next_inst: 2,
    ..EMPTY
};

pub const TOP: Module = Module {
    id: 3,
    name: "top",
    nets: &[(0, "i", None), (1, "o", None), (2, "w", None)],
    ports: IN_AND_OUT,
    insts: &[(0, "p", 2, FRONT), (1, "q", 2, BACK)],
    next_net: 3,
    next_inst: 2,
    ..EMPTY
};

pub const TWO_LEVEL: Design = Design {
    modules: &[INV, BUF, PAIR, TOP],
    next_module: 4,
    top: 3,
    ..BARE
};
