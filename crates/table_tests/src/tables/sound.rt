use super::builder::{EMPTY, table_of};
use crate::modules::{Inst, Module, Net, Port};
use emh_base::{Dir, NetId, NoMemory, Src};
use flatten_rules::is_sound;
use std::alloc::Global;
use std::test::Fail;

const A: Net = (0, "a", None);

const B: Net = (1, "b", None);

const C: Net = (4, "c", Some((5, 2)));

/// The last bit of net c.
const LAST: &[Src] = &[Src::Bit(NetId(4), 3)];

const IN_0: Port = (0, Dir::Input);

const IN_1: Port = (1, Dir::Input);

const IN_4: Port = (4, Dir::Input);

const CELL: Module = Module {
    id: 0,
    name: "cell",
    leaf: true,
    nets: &[A, B],
    ports: &[IN_0, IN_1],
    next_net: 2,
    next_inst: 0,
    ..EMPTY
};

/// A module with three nets, all of them ports, and two instances of the cell.
const HOLDER: Module = Module {
    id: 2,
    name: "holder",
    leaf: false,
    locked: true,
    nets: &[A, B, C],
    ports: &[IN_1, IN_0, IN_4],
    insts: &[(1, "u", 0, &[LAST, LAST]), (3, "v", 0, &[LAST, LAST])],
    next_net: 5,
    next_inst: 4,
};

/// The same two instances, of module 2.
const INSTS_OF_2: &[Inst] = &[(1, "u", 2, &[LAST, LAST]), (3, "v", 2, &[LAST, LAST])];

/// The counter of modules.
const NEXT: u32 = 3;

/// Tables, each with what is said of it.
type Tables = &'static [(&'static str, &'static [Module])];

/// What is said of the first of some tables that is sound.
fn first_sound(alloc: Global, tables: Tables) -> Result<Option<&'static str>, NoMemory> {
    for (what, modules) in tables {
        let plain = table_of(alloc, modules, NEXT)?;
        if is_sound(alloc, &plain)? {
            return Ok(Some(*what));
        }
    }
    Ok(None)
}

// Each table has one fault. They stand in several lists, since a long one is heavy to check.

const MODULES: Tables = &[
    (
        "two modules of one name",
        &[
            CELL,
            Module {
                name: "cell",
                ..HOLDER
            },
        ],
    ),
    (
        "module ids that fall",
        &[
            Module { id: 2, ..CELL },
            Module {
                id: 0,
                insts: INSTS_OF_2,
                ..HOLDER
            },
        ],
    ),
    (
        "a module id twice",
        &[
            Module { id: 2, ..CELL },
            Module {
                insts: INSTS_OF_2,
                ..HOLDER
            },
        ],
    ),
    (
        "a module id at the counter",
        &[CELL, Module { id: NEXT, ..HOLDER }],
    ),
    (
        "a leaf with instances",
        &[
            CELL,
            Module {
                leaf: true,
                locked: false,
                ..HOLDER
            },
        ],
    ),
    (
        "a leaf with an inner net",
        &[
            Module {
                ports: &[IN_0],
                ..CELL
            },
            Module {
                insts: &[(1, "u", 0, &[LAST])],
                ..HOLDER
            },
        ],
    ),
    (
        "a locked leaf",
        &[
            Module {
                locked: true,
                ..CELL
            },
            HOLDER,
        ],
    ),
    (
        "an instance of its own module",
        &[
            CELL,
            Module {
                insts: &[(1, "u", 2, &[&[], &[], &[]])],
                ..HOLDER
            },
        ],
    ),
];

#[test]
fn faults_of_modules_make_a_table_unsound(rt: HostRuntime) -> Result<(), Fail> {
    assert_eq!(rt; first_sound(rt.alloc(), MODULES)?, None);
    Ok(())
}

const NETS: Tables = &[
    (
        "two nets of one name",
        &[
            CELL,
            Module {
                nets: &[(0, "c", None), B, C],
                ..HOLDER
            },
        ],
    ),
    (
        "a net named as an instance",
        &[
            CELL,
            Module {
                nets: &[(0, "v", None), B, C],
                ..HOLDER
            },
        ],
    ),
    (
        "net ids that fall",
        &[
            CELL,
            Module {
                nets: &[(1, "b", None), (0, "a", None), C],
                ..HOLDER
            },
        ],
    ),
    (
        "a net id twice",
        &[
            CELL,
            Module {
                nets: &[(1, "a", None), B, C],
                ports: &[IN_1, IN_4],
                ..HOLDER
            },
        ],
    ),
    (
        "a net id at the counter",
        &[
            CELL,
            Module {
                next_net: 4,
                ..HOLDER
            },
        ],
    ),
    (
        "no net id below the counter",
        &[
            CELL,
            Module {
                next_net: 0,
                ..HOLDER
            },
        ],
    ),
];

#[test]
fn faults_of_nets_make_a_table_unsound(rt: HostRuntime) -> Result<(), Fail> {
    assert_eq!(rt; first_sound(rt.alloc(), NETS)?, None);
    Ok(())
}

const PORTS: Tables = &[
    (
        "an index above 65,535",
        &[
            CELL,
            Module {
                nets: &[A, B, (4, "c", Some((65536, 65533)))],
                ..HOLDER
            },
        ],
    ),
    (
        "an index above 65,535, to the right",
        &[
            CELL,
            Module {
                nets: &[A, B, (4, "c", Some((65533, 65536)))],
                ..HOLDER
            },
        ],
    ),
    (
        "a net of 4,097 bits",
        &[
            CELL,
            Module {
                nets: &[A, B, (4, "c", Some((0, 4096)))],
                ..HOLDER
            },
        ],
    ),
    (
        "a port without a net",
        &[
            CELL,
            Module {
                ports: &[IN_0, IN_1, (3, Dir::Input)],
                ..HOLDER
            },
        ],
    ),
    (
        "two ports of one net",
        &[
            CELL,
            Module {
                ports: &[IN_0, IN_4, IN_0],
                ..HOLDER
            },
        ],
    ),
];

#[test]
fn faults_of_ranges_and_ports_make_a_table_unsound(rt: HostRuntime) -> Result<(), Fail> {
    assert_eq!(rt; first_sound(rt.alloc(), PORTS)?, None);
    Ok(())
}

const INSTS: Tables = &[
    (
        "two instances of one name",
        &[
            CELL,
            Module {
                insts: &[(1, "u", 0, &[LAST, LAST]), (3, "u", 0, &[LAST, LAST])],
                ..HOLDER
            },
        ],
    ),
    (
        "instance ids that fall",
        &[
            CELL,
            Module {
                insts: &[(3, "u", 0, &[LAST, LAST]), (1, "v", 0, &[LAST, LAST])],
                ..HOLDER
            },
        ],
    ),
    (
        "an instance id twice",
        &[
            CELL,
            Module {
                insts: &[(3, "u", 0, &[LAST, LAST]), (3, "v", 0, &[LAST, LAST])],
                ..HOLDER
            },
        ],
    ),
    (
        "an instance id at the counter",
        &[
            CELL,
            Module {
                next_inst: 3,
                ..HOLDER
            },
        ],
    ),
    (
        "a master that isn't there",
        &[
            CELL,
            Module {
                insts: &[(1, "u", 0, &[LAST, LAST]), (3, "v", 1, &[LAST, LAST])],
                ..HOLDER
            },
        ],
    ),
];

#[test]
fn faults_of_instances_make_a_table_unsound(rt: HostRuntime) -> Result<(), Fail> {
    assert_eq!(rt; first_sound(rt.alloc(), INSTS)?, None);
    Ok(())
}

const CONNS: Tables = &[
    (
        "a connection too few",
        &[
            CELL,
            Module {
                insts: &[(1, "u", 0, &[LAST])],
                ..HOLDER
            },
        ],
    ),
    (
        "a connection too many",
        &[
            CELL,
            Module {
                insts: &[(1, "u", 0, &[LAST, LAST, LAST])],
                ..HOLDER
            },
        ],
    ),
    (
        "a source too many",
        &[
            CELL,
            Module {
                insts: &[(
                    1,
                    "u",
                    0,
                    &[LAST, &[Src::Bit(NetId(4), 3), Src::Bit(NetId(4), 3)]],
                )],
                ..HOLDER
            },
        ],
    ),
    (
        "a net that isn't there",
        &[
            CELL,
            Module {
                insts: &[(1, "u", 0, &[LAST, &[Src::Bit(NetId(3), 0)]])],
                ..HOLDER
            },
        ],
    ),
    (
        "a bit that the net hasn't",
        &[
            CELL,
            Module {
                insts: &[(1, "u", 0, &[LAST, &[Src::Bit(NetId(4), 4)]])],
                ..HOLDER
            },
        ],
    ),
    (
        "a bit that a net without range hasn't",
        &[
            CELL,
            Module {
                insts: &[(1, "u", 0, &[LAST, &[Src::Bit(NetId(0), 1)]])],
                ..HOLDER
            },
        ],
    ),
];

#[test]
fn faults_of_connections_make_a_table_unsound(rt: HostRuntime) -> Result<(), Fail> {
    assert_eq!(rt; first_sound(rt.alloc(), CONNS)?, None);
    Ok(())
}

/// None has a fault. The counter of modules is told.
const NO_FAULTS: &[(&str, &[Module], u32)] = &[
    ("as it stands", &[CELL, HOLDER], NEXT),
    (
        "a master that comes later",
        &[
            Module {
                id: 0,
                insts: INSTS_OF_2,
                ..HOLDER
            },
            Module { id: 2, ..CELL },
        ],
        NEXT,
    ),
    (
        "a range of 4,096 bits that rises",
        &[
            CELL,
            Module {
                nets: &[A, B, (4, "c", Some((1, 4096)))],
                ..HOLDER
            },
        ],
        NEXT,
    ),
    (
        "a range of 4,096 bits that falls",
        &[
            CELL,
            Module {
                nets: &[A, B, (4, "c", Some((65535, 61440)))],
                ..HOLDER
            },
        ],
        NEXT,
    ),
    (
        "ties",
        &[
            CELL,
            Module {
                insts: &[(1, "u", 0, &[&[Src::Tie0], &[Src::Tie1]])],
                ..HOLDER
            },
        ],
        NEXT,
    ),
    (
        "open connections",
        &[
            CELL,
            Module {
                insts: &[(1, "u", 0, &[&[], &[]])],
                ..HOLDER
            },
        ],
        NEXT,
    ),
    (
        "an instance named as its module",
        &[
            CELL,
            Module {
                insts: &[(1, "holder", 0, &[LAST, LAST])],
                ..HOLDER
            },
        ],
        NEXT,
    ),
    (
        "counters at the limit",
        &[
            CELL,
            Module {
                next_net: u32::MAX,
                next_inst: u32::MAX,
                ..HOLDER
            },
        ],
        u32::MAX,
    ),
];

#[test]
fn what_is_no_fault_leaves_a_table_sound(rt: HostRuntime) -> Result<(), Fail> {
    for (what, modules, next_module) in NO_FAULTS {
        let plain = table_of(rt.alloc(), modules, *next_module)?;
        assert!(rt; is_sound(rt.alloc(), &plain)?, "{what}");
    }
    Ok(())
}
