//! The worked example, with more cells and a module that the top doesn't reach.
use super::designs::{BARE, Design};
use crate::modules::{Conns, EMPTY, Module, Port};
use emh_base::Src::{Bit, Tie1};
use emh_base::{Dir, NetId, Orient, Placement, Status};
use samples::two_level::{BUF, IN_AND_OUT, INV, PAIR, TOP};

const INPUT: Port = (0, Dir::Input);

const GATE: Module = Module {
    id: 4,
    name: "GATE",
    leaf: true,
    nets: &[(0, "A", None), (1, "B", None), (2, "Y", None)],
    ports: &[INPUT, (1, Dir::Input), (2, Dir::Output)],
    next_net: 3,
    ..EMPTY
};

const WIDE: Module = Module {
    id: 5,
    name: "WIDE",
    leaf: true,
    nets: &[(0, "A", Some((1, 0))), (1, "Y", None)],
    ports: IN_AND_OUT,
    next_net: 2,
    ..EMPTY
};

/// The connections of a wide cell to the two leftmost bits of net 1.
const LEFT: Conns = &[&[Bit(NetId(1), 0), Bit(NetId(1), 1)], &[]];

/// The connections of a gate to a constant and to net 3.
pub const TIED: Conns = &[&[], &[Tie1], &[Bit(NetId(3), 0)]];

/// A module that the top doesn't reach.
const SPARE: Module = Module {
    id: 6,
    name: "spare",
    nets: &[
        (0, "p", None),
        (1, "b", Some((3, 0))),
        (2, "w", None),
        (3, "n", None),
    ],
    ports: &[INPUT],
    insts: &[(0, "u", 5, LEFT), (1, "v", 4, TIED)],
    next_net: 4,
    next_inst: 2,
    ..EMPTY
};

pub const YARD: Design = Design {
    modules: &[INV, BUF, PAIR, TOP, GATE, WIDE, SPARE],
    next_module: 7,
    top: 3,
    ..BARE
};

pub const SPOT: Placement = Placement {
    x: 1,
    y: 2,
    orient: Orient::MX,
    status: Status::Placed,
};

pub const STUCK: Placement = Placement {
    x: -3,
    y: 4,
    orient: Orient::R90,
    status: Status::Fixed,
};
