//! Edits where each counter is at its end: none gives an id, and which rules are looked at before and behind that.
use super::asks::Ask;
use super::asks::Ask::{Connect, CreateInst, CreateModule, CreateNet, CreatePort, Uniquify};
use super::designs::{BARE, Design, state_of};
use super::{Told, refuses};
use crate::modules::{EMPTY, Module, name_of};
use edit_rules::Judged;
use emh_base::Rule::{
    NameTaken, NoSuchInst, NoSuchPort, RangeTooWide, Recursive, TooDeep, TooManyObjects,
};
use emh_base::Src::Bit;
use emh_base::{Dir, InstId, List, ModId, NetId, NoMemory, Object, PInst, PModule, State, TryCopy};
use samples::two_level::TWO_LEVEL;
use std::alloc::Global;

/// Sets each counter to its end.
fn spend(alloc: Global, state: &mut State) -> Result<(), NoMemory> {
    let mut modules = List::new(alloc);
    for module in state.plain.modules.as_slice() {
        let mut module = module.copy()?;
        module.next_net = u32::MAX;
        module.next_inst = u32::MAX;
        modules.push(module)?;
    }
    state.plain.modules = modules;
    state.plain.next_module = u32::MAX;
    Ok(())
}

const TAKEN: Told = (5, NameTaken, Object::NewName);

const TOO_WIDE: Told = (14, RangeTooWide, Object::NewName);

const NO_MORE_MODULES: Told = (31, TooManyObjects, Object::NewName);

/// In the worked example.
const NO_IDS_LEFT: &[(Ask, Told)] = &[
    (CreateModule("INV"), TAKEN),
    (CreateModule("z"), NO_MORE_MODULES),
    (Uniquify(3, 1, "INV"), TAKEN),
    (Uniquify(3, 1, "z"), NO_MORE_MODULES),
    (CreateNet(3, "i", Some((0, 4096))), TAKEN),
    (CreateNet(3, "z", Some((0, 4096))), TOO_WIDE),
    (
        CreateNet(3, "z", None),
        (31, TooManyObjects, Object::Module(ModId(3))),
    ),
    (CreatePort(2, "a", Dir::Input, Some((0, 4096))), TAKEN),
    (CreatePort(2, "z", Dir::Input, Some((0, 4096))), TOO_WIDE),
    (
        CreatePort(2, "z", Dir::Input, None),
        (31, TooManyObjects, Object::Module(ModId(2))),
    ),
    (CreateInst(3, "p", 3), TAKEN),
    (
        CreateInst(3, "z", 3),
        (11, Recursive, Object::Module(ModId(3))),
    ),
    (
        CreateInst(3, "z", 1),
        (31, TooManyObjects, Object::Module(ModId(3))),
    ),
    (
        Connect(3, 9, 9, &[Bit(NetId(9), 0)]),
        (3, NoSuchInst, Object::Inst(ModId(3), InstId(9))),
    ),
    (
        Connect(3, 0, 9, &[Bit(NetId(9), 0)]),
        (4, NoSuchPort, Object::Port(ModId(2), NetId(9))),
    ),
];

#[test]
fn names_and_ranges_are_looked_at_before_counters(rt: HostRuntime) -> Result<(), Judged> {
    let mut state = state_of(rt.alloc(), &TWO_LEVEL)?;
    spend(rt.alloc(), &mut state)?;
    for (ask, told) in NO_IDS_LEFT {
        refuses(&rt, rt.alloc(), &mut state, *ask, *told)?;
    }
    Ok(())
}

/// A top of one bit, which holds nothing, and module e0 of 15,625 bits.
const FIRST: Design = Design {
    modules: &[
        Module {
            name: "t",
            nets: &[(0, "n", None)],
            next_net: 1,
            ..EMPTY
        },
        Module {
            id: 1,
            name: "e0",
            nets: &[
                (0, "a", Some((0, 4095))),
                (1, "b", Some((0, 4095))),
                (2, "c", Some((4095, 0))),
                (3, "d", Some((0, 3336))),
            ],
            next_net: 4,
            ..EMPTY
        },
    ],
    next_module: 2,
    ..BARE
};

/// Module eK, whose id is K + 1, with so many instances of the one before.
fn link(alloc: Global, number: u32, count: u32) -> Result<PModule, NoMemory> {
    let name = format!(in alloc; "e{number}")?;
    let mut insts = List::new(alloc);
    for inst in 0..count {
        insts.push(PInst {
            id: InstId(inst),
            name: name_of(alloc, format!(in alloc; "x{inst}")?.as_str())?,
            master: ModId(number),
            conns: List::new(alloc),
        })?;
    }
    Ok(PModule {
        id: ModId(number.saturating_add(1)),
        name: name_of(alloc, name.as_str())?,
        leaf: false,
        locked: false,
        nets: List::new(alloc),
        ports: List::new(alloc),
        insts,
        next_net: 0,
        next_inst: count,
    })
}

/// A top that holds nothing, and so many modules, each with so many instances of the one before. No ids are left.
fn chain(alloc: Global, links: u32, count: u32) -> Result<State, NoMemory> {
    let mut state = state_of(alloc, &FIRST)?;
    for number in 1..links {
        state.plain.modules.push(link(alloc, number, count)?)?;
    }
    spend(alloc, &mut state)?;
    Ok(state)
}

const NO_MORE_IDS: Told = (31, TooManyObjects, Object::Module(ModId(9)));

/// In module e8, of 4,000,000 net bits.
const NO_BITS_LEFT: &[(Ask, Told)] = &[
    (CreateNet(9, "z", None), NO_MORE_IDS),
    (CreatePort(9, "z", Dir::Input, None), NO_MORE_IDS),
    (CreateInst(9, "z", 0), NO_MORE_IDS),
];

#[test]
fn counters_are_looked_at_before_bits(rt: HostRuntime) -> Result<(), Judged> {
    let mut state = chain(rt.alloc(), 9, 2)?;
    state.top = ModId(9);
    for (ask, told) in NO_BITS_LEFT {
        refuses(&rt, rt.alloc(), &mut state, *ask, *told)?;
    }
    Ok(())
}

/// Below a top, chains of so many modules, each with so many instances of the one before, and an instance of the last.
const BELOW: &[(u32, u32, Told)] = &[
    (257, 1, (29, TooDeep, Object::Module(ModId(257)))),
    (30, 2, (31, TooManyObjects, Object::Module(ModId(0)))),
];

#[test]
fn depth_is_looked_at_first_and_counters_next(rt: HostRuntime) -> Result<(), Judged> {
    for (links, count, told) in BELOW {
        let mut state = chain(rt.alloc(), *links, *count)?;
        let ask = CreateInst(0, "x", *links);
        refuses(&rt, rt.alloc(), &mut state, ask, *told)?;
    }
    Ok(())
}
