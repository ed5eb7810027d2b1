ghost use Rattle.std.specs.Prelude.{◌<◌, ◌≤◌};

use super::builder::{EMPTY, add, chain_down, empty_table, table_of};
use crate::modules::{Ends, Module};
use emh_base::{Dir, ModId, NoMemory, Plain};
use flatten_rules::{is_sound, is_within};
use std::alloc::Global;
use std::test::Fail;

/// Whether a table is within the limits at a top; none where it isn't sound.
fn within(alloc: Global, plain: &Plain, top: u32) -> Result<Option<bool>, NoMemory> {
    if is_sound(alloc, plain)? {
        Ok(Some(is_within(alloc, plain, ModId(top))?))
    } else {
        Ok(None)
    }
}

/// Level k holds two instances of the level below it, so it unfolds to 2 ^ (k + 1) - 1 occurrences.
const LEVELS: u32 = 200;

/// The masters of three modules more.
const ABOVE: &[(u32, &[u32])] = &[
    (201, &[18, 17, 16, 15, 13, 8, 5, 1]),
    (202, &[18, 17, 16, 15, 13, 8, 5, 1, 0, 0, 0]),
    (203, &[18, 17, 16, 15, 13, 8, 5, 1, 0, 0, 0, 0]),
];

const OCCURRENCES: &[(u32, bool, &str)] = &[
    (18, true, "524,287 occurrences"),
    (19, false, "1,048,575 occurrences"),
    (200, false, "2 ^ 201 - 1 occurrences"),
    (201, true, "999,997 occurrences"),
    (202, true, "1,000,000 occurrences"),
    (203, false, "1,000,001 occurrences"),
    (204, true, "no such module: one occurrence"),
];

// A module that the top doesn't reach doesn't count, and a table that would unfold to far too much is judged as fast as
// any.
#[test]
fn occurrences_are_counted_with_the_top(rt: HostRuntime) -> Result<(), Fail> {
    let mut plain = empty_table(rt.alloc());
    add(rt.alloc(), &mut plain, 0, &[])?;
    for level in 0..LEVELS {
        add(rt.alloc(), &mut plain, level + 1, &[level, level])?;
    }
    for (id, masters) in ABOVE {
        add(rt.alloc(), &mut plain, *id, masters)?;
    }
    for (top, is_within, what) in OCCURRENCES {
        assert_eq!(rt;
            within(rt.alloc(), &plain, *top)?,
            Some(*is_within),
            "{what}"
        );
    }
    Ok(())
}

/// Module 0 holds nothing, and each of the others one instance of the one before it.
fn chain(alloc: Global, links: u32) -> Result<Plain, NoMemory> {
    let mut plain = empty_table(alloc);
    add(alloc, &mut plain, 0, &[])?;
    for link in 0..links {
        add(alloc, &mut plain, link + 1, &[link])?;
    }
    Ok(plain)
}

/// The links of a chain, a top, and whether the table is within the limits there.
const CHAINS: &[(u32, u32, bool, &str)] = &[
    (256, 256, true, "256 instances deep"),
    (257, 257, false, "257 instances deep"),
    (257, 0, false, "a deep module that the top doesn't reach"),
];

#[test]
fn walks_have_at_most_256_instances(rt: HostRuntime) -> Result<(), Fail> {
    for (links, top, is_within, what) in CHAINS {
        let plain = chain(rt.alloc(), *links)?;
        assert_eq!(rt;
            within(rt.alloc(), &plain, *top)?,
            Some(*is_within),
            "{what}"
        );
    }
    Ok(())
}

/// The links of a chain that begins at the top, and whether the table is within the limits there.
const CHAINS_DOWN: &[(u32, bool)] = &[
    (0, true),
    (255, true),
    (256, true),
    (257, false),
    (400, false),
];

#[test]
fn masters_may_come_later(rt: HostRuntime) -> Result<(), Fail> {
    for (links, is_within) in CHAINS_DOWN {
        let plain = chain_down(rt.alloc(), *links, &[])?;
        assert_eq!(rt;
            within(rt.alloc(), &plain, 0)?,
            Some(*is_within),
            "{links} instances deep"
        );
    }
    Ok(())
}

/// 15,625 bits; a leaf with a port of one bit; one bit inside a module; and a module with the leaf and module 5.
const WIDTHS: &[Module] = &[
    Module {
        id: 0,
        name: "wide",
        nets: &[
            (0, "a", WIDEST),
            (1, "b", WIDEST),
            (2, "c", WIDEST),
            (3, "d", REST),
        ],
        ..EMPTY
    },
    Module {
        id: 1,
        name: "leaf",
        leaf: true,
        nets: &[(0, "a", None)],
        ports: &[(0, Dir::Input)],
        ..EMPTY
    },
    Module {
        id: 2,
        name: "bit",
        nets: &[(0, "a", None)],
        ..EMPTY
    },
    Module {
        id: 3,
        name: "with_leaf",
        insts: &[(0, "u", 5, &[]), (1, "v", 1, &[&[]])],
        ..EMPTY
    },
];

const WIDEST: Option<Ends> = Some((0, 4095));

const REST: Option<Ends> = Some((0, 3336));

/// The masters of three modules more: 16 times module 0, 256 times, and once more with one bit.
const WIDER: &[(u32, &[u32])] = &[(4, &[0; 16]), (5, &[4; 16]), (6, &[5, 2])];

const NET_BITS: &[(u32, bool, &str)] = &[
    (5, true, "4,000,000 net bits"),
    (3, true, "and one of a leaf"),
    (6, false, "4,000,001 net bits"),
];

#[test]
fn net_bits_are_those_of_all_occurrences_but_leaves(rt: HostRuntime) -> Result<(), Fail> {
    let mut plain = table_of(rt.alloc(), WIDTHS, 10)?;
    for (id, masters) in WIDER {
        add(rt.alloc(), &mut plain, *id, masters)?;
    }
    for (top, is_within, what) in NET_BITS {
        assert_eq!(rt;
            within(rt.alloc(), &plain, *top)?,
            Some(*is_within),
            "{what}"
        );
    }
    Ok(())
}
