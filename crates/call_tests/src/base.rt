//! Names and their texts, pools, placements, and copies.
use emh_base::{
    By, Change, Conn, Dir, Edit, Fanout, InstId, Kind, List, ModId, Name, NetId, Orient, Placement,
    Places, Pool, Range, Settings, Src, Status, TryCopy, push_index, push_spelled, unspell,
};
use samples::designs::{Design, path_of, state_of};
use samples::modules::{EMPTY, Module};
use samples::texts::repeated;
use std::alloc::Global;
use std::fmt::{Debug, Write};
use std::str::from_utf8;
use std::test::Fail;

/// Adds a name to a pool, and answers whether it got that number and is found by it.
fn is_numbered(alloc: Global, pool: &mut Pool, name: &[u8], number: usize) -> Result<bool, Fail> {
    let given = pool.number(Name::new(alloc, name)?)?;
    Ok(given == number && pool.find(name) == Some(number) && is_at(pool, name, number))
}

fn is_at(pool: &Pool, name: &[u8], number: usize) -> bool {
    number < pool.len() && pool.at(number).as_bytes() == name
}

#[test]
fn a_pool_numbers_names_in_the_order_in_which_they_come(rt: HostRuntime) -> Result<(), Fail> {
    let cases: [(&[u8], usize); 6] = [
        (b"clk", 0),
        (b"u1", 1),
        (b"clk", 0),
        (b"u", 2),
        (b"u1", 1),
        (b"data[7]", 3),
    ];
    let mut pool = Pool::new(rt.alloc());
    assert!(rt; pool.is_empty());
    for (name, number) in cases {
        assert!(rt;
            is_numbered(rt.alloc(), &mut pool, name, number)?,
            "{name:?}"
        );
    }
    assert!(rt; pool.len() == 4 && pool.find(b"u2").is_none());
    Ok(())
}

/// What comes of bytes that are to be a name.
fn named(alloc: Global, bytes: &[u8]) -> Result<String, Fail> {
    Ok(match Name::new(alloc, bytes) {
        Ok(name) if name.as_bytes() == bytes => String::from_str(alloc, "as it is")?,
        Ok(_) => String::from_str(alloc, "another name")?,
        Err(fault) => format!(in alloc; "{fault:?}")?,
    })
}

#[test]
fn a_name_has_1_to_1024_printable_bytes(rt: HostRuntime) -> Result<(), Fail> {
    let cases: [(usize, &[u8], &str); 8] = [
        (1024, b"", "as it is"),
        (1025, b"", "TooLong"),
        (0, b"", "Empty"),
        (0, b"a", "as it is"),
        (0, b" a", "BadByte { at: 0 }"),
        (0, b"ab\x7f", "BadByte { at: 2 }"),
        (0, b"a\x1fb\x80", "BadByte { at: 1 }"),
        (0, b"a\n", "BadByte { at: 1 }"),
    ];
    for (times, rest, wanted) in cases {
        let bytes = repeated(rt.alloc(), b"", b'~', times, rest)?;
        assert_eq!(rt; named(rt.alloc(), bytes.as_slice())?.as_str(), wanted);
    }
    Ok(())
}

fn spelled(alloc: Global, name: &[u8]) -> Result<List<u8>, Fail> {
    let mut text = List::new(alloc);
    push_spelled(&mut text, &Name::new(alloc, name)?)?;
    Ok(text)
}

#[test]
fn texts_mark_what_would_be_read_otherwise(rt: HostRuntime) -> Result<(), Fail> {
    let cases: [(&[u8], &[u8]); 5] = [
        (b"u1", b"u1"),
        (b"bus[3]", b"bus\\[3\\]"),
        (b"=a=b", b"\\=a=b"),
        (b"x.y/z", b"x\\.y\\/z"),
        (b"\\", b"\\\\"),
    ];
    for (name, text) in cases {
        assert_eq!(rt; spelled(rt.alloc(), name)?.as_slice(), text);
    }
    Ok(())
}

#[test]
fn bits_are_told_by_the_indices_of_their_ranges(rt: HostRuntime) -> Result<(), Fail> {
    let cases: [(Option<Range>, u16, &[u8]); 4] = [
        (None, 0, b""),
        (Some(Range { left: 3, right: 0 }), 0, b"[3]"),
        (Some(Range { left: 3, right: 0 }), 3, b"[0]"),
        (Some(Range { left: 7, right: 19 }), 4, b"[11]"),
    ];
    for (range, offset, text) in cases {
        let mut out = List::new(rt.alloc());
        push_index(&mut out, range, offset)?;
        assert_eq!(rt; out.as_slice(), text);
    }
    Ok(())
}

/// The name that a word spells, or why it spells none.
fn unspelled(alloc: Global, word: &[u8]) -> Result<String, Fail> {
    Ok(match unspell(alloc, word) {
        Ok(name) => String::from_str(alloc, from_utf8(name.as_bytes())?)?,
        Err(fault) => format!(in alloc; "{fault:?}")?,
    })
}

/// Words with what they spell.
const WORDS: &[(&[u8], &str)] = &[
    (b"u1", "u1"),
    (b"bus\\[3\\]", "bus[3]"),
    (b"\\=a=b", "=a=b"),
    (b"a=", "a="),
    (b"x\\.y\\/z", "x.y/z"),
    (b"\\\\", "\\"),
    (b"\\\\\\.", "\\."),
    (b"", "NotSpelled"),
    (b"=", "NotSpelled"),
    (b"a/b", "NotSpelled"),
    (b"n[3]", "NotSpelled"),
    (b"x]", "NotSpelled"),
    (b"u.A", "NotSpelled"),
    (b"\\", "NotSpelled"),
    (b"a\\", "NotSpelled"),
    (b"\\a", "NotSpelled"),
    (b"a\\=", "NotSpelled"),
    (b"a b", "NotSpelled"),
];

#[test]
fn a_word_spells_one_name_or_none(rt: HostRuntime) -> Result<(), Fail> {
    for (word, name) in WORDS {
        assert_eq!(rt; unspelled(rt.alloc(), word)?.as_str(), *name, "{word:?}");
    }
    Ok(())
}

#[test]
fn a_word_spells_a_name_of_1024_bytes(rt: HostRuntime) -> Result<(), Fail> {
    for (times, is_name) in [(1024, true), (1025, false)] {
        let word = repeated(rt.alloc(), b"", b'~', times, b"")?;
        let name = unspelled(rt.alloc(), word.as_slice())?;
        assert_eq!(rt; name.as_bytes() == word.as_slice(), is_name);
    }
    Ok(())
}

fn at(x: i32) -> Placement {
    Placement {
        x,
        y: -7,
        orient: Orient::MXR90,
        status: Status::Fixed,
    }
}

/// Sets what is placed at a path, and answers whether it is found there.
fn is_set(alloc: Global, places: &mut Places, steps: &[u32], x: i32) -> Result<bool, Fail> {
    let path = path_of(alloc, steps)?;
    places.set(path_of(alloc, steps)?, at(x))?;
    Ok(places.get(&path) == Some(at(x)))
}

/// As `1/9/ 2, 2/ 5, `: the paths in order, each with its placement's x, or 0 for another one.
fn shown_places(alloc: Global, places: Places) -> Result<String, Fail> {
    let mut text = String::new(alloc);
    for (path, placement) in places.to_list()?.as_slice() {
        for step in path.steps() {
            write!(text, "{}/", step.0)?;
        }
        let x = placement.x;
        write!(text, " {}, ", if *placement == at(x) { x } else { 0 })?;
    }
    Ok(text)
}

#[test]
fn places_hold_one_placement_a_path(rt: HostRuntime) -> Result<(), Fail> {
    let alloc = rt.alloc();
    let cases: [(&[u32], i32); 5] = [(&[2], 1), (&[1, 9], 2), (&[1], 3), (&[10], 4), (&[2], 5)];
    let mut places = Places::new(alloc);
    assert!(rt; places.is_empty());
    for (steps, x) in cases {
        assert!(rt; is_set(alloc, &mut places, steps, x)?, "{steps:?}");
    }
    assert_eq!(rt; places.len(), 4);
    let gone: [&[u32]; 3] = [&[1], &[], &[9]];
    for steps in gone {
        places.remove(&path_of(alloc, steps)?);
    }
    assert_eq!(rt;
        shown_places(alloc, places)?.as_str(),
        "1/9/ 2, 2/ 5, 10/ 4, "
    );
    Ok(())
}

#[test]
fn paths_are_in_the_order_of_their_steps(rt: HostRuntime) -> Result<(), Fail> {
    let rising: [(&[u32], &[u32]); 3] = [(&[1], &[1, 0]), (&[], &[0]), (&[9, 5], &[10])];
    for (first, second) in rising {
        assert!(rt;
            path_of(rt.alloc(), first)? < path_of(rt.alloc(), second)?,
            "{first:?}"
        );
    }
    Ok(())
}

/// One module with one instance of another, which is placed.
const DESIGN: Design = Design {
    modules: &[Module {
        id: 3,
        name: "m",
        locked: true,
        nets: &[(2, "n", Some((7, 0)))],
        ports: &[(2, Dir::Inout)],
        insts: &[(4, "u4", 1, &[&[Src::Bit(NetId(2), 5), Src::Tie1], &[]])],
        next_net: 3,
        next_inst: 5,
        ..EMPTY
    }],
    next_module: 4,
    top: 3,
    places: &[(
        &[4, 0, 1, 2, 3, 5, 6, 7, 8, 9],
        Placement {
            x: 6,
            y: -7,
            orient: Orient::MXR90,
            status: Status::Fixed,
        },
    )],
    settings: Settings {
        fanout: Some(Fanout {
            max: 12,
            cell: ModId(5),
        }),
        grid: None,
    },
};

fn connect(alloc: Global) -> Result<Change, Fail> {
    let mut bits = List::new(alloc);
    bits.push(Src::Bit(NetId(6), 7))?;
    let mut was = List::new(alloc);
    was.push(Conn::Open)?;
    Ok(Change {
        edit: Edit::Connect {
            module: ModId(1),
            inst: InstId(2),
            port: NetId(4),
            bits,
        },
        by: By::Watch(3),
        was,
        made: Some(8),
    })
}

/// Whether a value's copy shows what the value shows.
fn is_copied<T: TryCopy + Debug + Drop>(alloc: Global, value: &T) -> Result<bool, Fail> {
    let shown = format!(in alloc; "{value:?}")?;
    let copy = value.copy()?;
    Ok(format!(in alloc; "{copy:?}")? == shown)
}

#[test]
fn a_copy_of_a_state_has_all_that_the_state_has(rt: HostRuntime) -> Result<(), Fail> {
    let state = state_of(rt.alloc(), &DESIGN)?;
    assert!(rt; is_copied(rt.alloc(), &state)?);
    Ok(())
}

#[test]
fn a_copy_of_a_change_has_all_that_the_change_has(rt: HostRuntime) -> Result<(), Fail> {
    let change = connect(rt.alloc())?;
    assert!(rt; is_copied(rt.alloc(), &change)?);
    Ok(())
}

#[test]
fn a_copy_of_a_kind_asks_for_the_same(rt: HostRuntime) -> Result<(), Fail> {
    let kind = Kind::Where(Name::new(rt.alloc(), b"w")?);
    assert!(rt; is_copied(rt.alloc(), &kind)?);
    Ok(())
}
