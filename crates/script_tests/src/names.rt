use edit_rules::{Judged, is_good_state};
use emh_base::{Dir, Edit, ModId, NetId, Object, Refusal, Rule, Src, State};
use samples::designs::{BARE, Design, state_of};
use samples::modules::{Conns, EMPTY, Module, Port};
use script_read::{resolve, script};
use std::alloc::Global;
use std::process::Abort;
use std::test::Fail;

/// A leaf of two ports of one bit.
const INV: Module = Module {
    id: 0,
    name: "INV",
    leaf: true,
    nets: &[(0, "A", None), (1, "Y", None)],
    ports: IN_OUT,
    next_net: 2,
    ..EMPTY
};

/// A leaf of two buses, one that falls and one that rises.
const BUS: Module = Module {
    id: 1,
    name: "BUS",
    leaf: true,
    nets: &[(0, "A", Some((1, 0))), (1, "Y", Some((0, 3)))],
    ports: IN_OUT,
    next_net: 2,
    ..EMPTY
};

const PAIR: Module = Module {
    id: 2,
    name: "pair",
    nets: &[(0, "a", None), (1, "y", None), (2, "m", None)],
    ports: IN_OUT,
    insts: &[(0, "u1", 0, OPEN), (1, "u2", 0, OPEN)],
    next_net: 3,
    next_inst: 2,
    ..EMPTY
};

/// The top, with nets of all kinds of range.
const TOP: Module = Module {
    id: 3,
    name: "top",
    nets: &[
        (0, "i", None),
        (1, "o", None),
        (2, "w", None),
        (3, "f", Some((7, 4))),
        (4, "r", Some((4, 7))),
        (5, "n", Some((4095, 0))),
    ],
    ports: IN_OUT,
    insts: &[(0, "p", 2, OPEN), (1, "q", 2, OPEN), (2, "b", 1, OPEN)],
    next_net: 6,
    next_inst: 3,
    ..EMPTY
};

const IN_OUT: &[Port] = &[(0, Dir::Input), (1, Dir::Output)];

/// Both ports of an instance are open.
const OPEN: Conns = &[&[], &[]];

const DESIGN: Design = Design {
    modules: &[INV, BUS, PAIR, TOP],
    next_module: 4,
    top: 3,
    ..BARE
};

/// A line, and the edit that it asks for.
const FOUND: &[(&[u8], &str)] = &[
    (b"lock pair", "Lock { module: ModId(2) }"),
    (b"unlock top", "Unlock { module: ModId(3) }"),
    (b"delete_module INV", "DeleteModule { module: ModId(0) }"),
    (
        b"delete_net top w",
        "DeleteNet { module: ModId(3), net: NetId(2) }",
    ),
    (
        b"delete_port pair y",
        "DeletePort { module: ModId(2), port: NetId(1) }",
    ),
    (
        b"delete_inst top q",
        "DeleteInst { module: ModId(3), inst: InstId(1) }",
    ),
    (
        b"disconnect top q y",
        "Disconnect { module: ModId(3), inst: InstId(1), port: NetId(1) }",
    ),
    (
        b"resize pair u2 BUS",
        "Resize { module: ModId(2), inst: InstId(1), master: ModId(1) }",
    ),
    (b"set_fanout 4 INV", "SetFanout { max: 4, cell: ModId(0) }"),
    (b"set_grid 10", "SetGrid { grid: 10 }"),
];

/// A `connect`, the port that it names, and the net and the offset of each of its sources, none for a tie.
const CONNECTED: &[(&[u8], u32, &[Option<(u32, u16)>])] = &[
    (b"connect top b A f[7:6]", 0, &[Some((3, 0)), Some((3, 1))]),
    (b"connect top b A f[5:4]", 0, &[Some((3, 2)), Some((3, 3))]),
    (b"connect top b A f[4] w", 0, &[Some((3, 3)), Some((2, 0))]),
    (b"connect top b A =0 i", 0, &[None, Some((0, 0))]),
    (
        b"connect top b Y r[5:7] =1",
        1,
        &[Some((4, 1)), Some((4, 2)), Some((4, 3)), None],
    ),
    (
        b"connect top b Y r",
        1,
        &[Some((4, 0)), Some((4, 1)), Some((4, 2)), Some((4, 3))],
    ),
];

/// A line that is refused, the rule, and the place of the word.
const REFUSED: &[(&[u8], Rule, u32)] = &[
    (b"delete_module x", Rule::NoSuchModule, 1),
    (b"rename_module x top", Rule::NoSuchModule, 1),
    (b"lock x", Rule::NoSuchModule, 1),
    (b"unlock x", Rule::NoSuchModule, 1),
    (b"create_net x n", Rule::NoSuchModule, 1),
    (b"create_port x n input", Rule::NoSuchModule, 1),
    (b"delete_net x x", Rule::NoSuchModule, 1),
    (b"delete_net top x", Rule::NoSuchNet, 2),
    (b"delete_net top p", Rule::NoSuchNet, 2),
    (b"rename_net x x w", Rule::NoSuchModule, 1),
    (b"rename_net top x w", Rule::NoSuchNet, 2),
    (b"delete_port x x", Rule::NoSuchModule, 1),
    (b"delete_port top x", Rule::NoSuchPort, 2),
    (b"delete_port top w", Rule::NoSuchPort, 2),
    (b"create_inst x u x", Rule::NoSuchModule, 1),
    (b"create_inst top u x", Rule::NoSuchModule, 3),
    (b"delete_inst x x", Rule::NoSuchModule, 1),
    (b"delete_inst top x", Rule::NoSuchInst, 2),
    (b"delete_inst top w", Rule::NoSuchInst, 2),
    (b"rename_inst x x p", Rule::NoSuchModule, 1),
    (b"rename_inst top x p", Rule::NoSuchInst, 2),
    (b"uniquify x x c", Rule::NoSuchModule, 1),
    (b"uniquify top x c", Rule::NoSuchInst, 2),
    (b"resize x x x", Rule::NoSuchModule, 1),
    (b"resize top x x", Rule::NoSuchInst, 2),
    (b"resize top p x", Rule::NoSuchModule, 3),
    (b"disconnect x x x", Rule::NoSuchModule, 1),
    (b"disconnect top x a", Rule::NoSuchInst, 2),
    (b"disconnect top p i", Rule::NoSuchPort, 3),
    (b"connect x p a =0", Rule::NoSuchModule, 1),
    (b"connect INV u1 A =0", Rule::NoSuchInst, 2),
    (b"connect top p i x", Rule::NoSuchPort, 3),
    (b"connect top p m x", Rule::NoSuchPort, 3),
    (b"connect top p a x w", Rule::NoSuchNet, 4),
    (b"connect top p a w =0 x", Rule::NoSuchNet, 6),
    (b"connect top p a w[0]", Rule::BitOutOfRange, 4),
    (b"connect top p a w f[3]", Rule::BitOutOfRange, 5),
    (b"connect top p a f[8]", Rule::BitOutOfRange, 4),
    (b"connect top p a f[8:7]", Rule::BitOutOfRange, 4),
    (b"connect top p a f[4:7]", Rule::BitOutOfRange, 4),
    (b"connect top p a r[7:4]", Rule::BitOutOfRange, 4),
    (b"connect top p a f[4294967295] x", Rule::BitOutOfRange, 4),
    (b"connect top p a x n w", Rule::NoSuchNet, 4),
    (b"connect top p a n x w", Rule::NoSuchNet, 5),
    (b"place x 0 0 R0 Placed", Rule::NoSuchOccurrence, 1),
    (b"place p/x 0 0 R0 Placed", Rule::NoSuchOccurrence, 1),
    (b"place w 0 0 R0 Placed", Rule::NoSuchOccurrence, 1),
    (b"unplace p/u1/u", Rule::NoSuchOccurrence, 1),
    (b"set_fanout 1 x", Rule::NoSuchModule, 2),
];

/// Lines with more than 4,096 bits, which are refused by the port before a later word is looked up.
const WIDE: &[&[u8]] = &[
    b"connect top p a n w",
    b"connect top p a n n x",
    b"connect top p a w n x",
    b"connect top p a n =1 x",
];

/// What a line asks for, with its names looked up.
fn looked(rt: &impl Abort, alloc: Global, state: &State, line: &[u8]) -> Result<Edit, Judged> {
    let good = is_good_state(alloc, state)?;
    assert!(rt; good);
    match script(alloc, line) {
        Ok(lines) => match lines.get(0) {
            Some(line) => {
                assert!(rt; line.command.is_edit());
                resolve(alloc, state, &line.command)
            }
            None => Err(Judged::NoMemory),
        },
        Err(_) => Err(Judged::NoMemory),
    }
}

/// The sources of a `connect`, and the port; none where a line asks for another edit.
fn is_connected(edit: &Edit, wanted: u32, sources: &[Option<(u32, u16)>]) -> bool {
    match edit {
        Edit::Connect { port, bits, .. } => {
            *port == NetId(wanted)
                && bits.len() == sources.len()
                && bits
                    .as_slice()
                    .iter()
                    .zip(sources)
                    .all(|(bit, source)| is_source(*bit, *source))
        }
        _ => false,
    }
}

fn is_source(bit: Src, source: Option<(u32, u16)>) -> bool {
    match source {
        None => bit == Src::Tie0 || bit == Src::Tie1,
        Some((net, offset)) => bit == Src::Bit(NetId(net), offset),
    }
}

#[test]
fn names_are_found(rt: HostRuntime) -> Result<(), Fail> {
    let state = state_of(rt.alloc(), &DESIGN)?;
    for (line, wanted) in FOUND {
        let edit = looked(&rt, rt.alloc(), &state, line)?;
        let text = format!(in rt.alloc(); "{edit:?}")?;
        assert_eq!(rt; text.as_str(), *wanted);
    }
    Ok(())
}

#[test]
fn sources_are_found_leftmost_first(rt: HostRuntime) -> Result<(), Fail> {
    let state = state_of(rt.alloc(), &DESIGN)?;
    for (line, port, sources) in CONNECTED {
        let edit = looked(&rt, rt.alloc(), &state, line)?;
        let connected = is_connected(&edit, *port, sources);
        assert!(rt; connected);
    }
    Ok(())
}

#[test]
fn the_first_word_that_names_nothing_refuses_the_line(rt: HostRuntime) -> Result<(), Fail> {
    let state = state_of(rt.alloc(), &DESIGN)?;
    for (line, rule, place) in REFUSED {
        let refused = looked(&rt, rt.alloc(), &state, line).err();
        let wanted = Judged::Rule(Refusal {
            rule: *rule,
            object: Object::Word(*place),
        });
        assert_eq!(rt; refused, Some(wanted), "{line:?}");
    }
    Ok(())
}

#[test]
fn a_connection_has_at_most_4096_bits(rt: HostRuntime) -> Result<(), Fail> {
    let state = state_of(rt.alloc(), &DESIGN)?;
    let widest = looked(&rt, rt.alloc(), &state, b"connect top p a n")?;
    let all = matches!(&widest, Edit::Connect { bits, .. } if bits.len() == 4096);
    assert!(rt; all);
    for line in WIDE {
        let refused = looked(&rt, rt.alloc(), &state, line).err();
        let wanted = Judged::Rule(Refusal {
            rule: Rule::WidthMismatch,
            object: Object::Port(ModId(2), NetId(0)),
        });
        assert_eq!(rt; refused, Some(wanted), "{line:?}");
    }
    Ok(())
}
