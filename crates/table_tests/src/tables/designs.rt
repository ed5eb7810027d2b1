ghost use Rattle.std.specs.Prelude.{◌≡◌, IsTrue, IfOk};
ghost use Rattle.flatten_rules.specs.Lookup.{module_of};
ghost use Rattle.flatten_rules.specs.Design.{IsInner, IsGood};
ghost use Rattle.flatten_rules.specs.Sound.{IsSound};

use super::builder::{EMPTY, table_of};
use super::shown::shown;
use crate::modules::{Module, Port};
use emh_base::{
    Dir, InstId, List, ModId, NetId, NoMemory, Orient, Path, Placement, Places, Plain, Src, Status,
};
use flatten_rules::{flat_lines, fresh, is_sound, is_within, module_of};
use samples::two_level::{BUF, INV, PAIR, TOP};
use std::alloc::Global;
use std::str::from_utf8;
use std::test::Fail;

/// Modules, a top of theirs and a path that is placed, with the lines of the flat netlist and what the top unfolds to.
struct Design {
    modules: &'static [Module],
    top: u32,
    placed: &'static [u32],
    lines: &'static str,
    unfolded: &'static str,
}

/// Net 0 and its further bits, and net 1.
const NET_0: Src = Src::Bit(NetId(0), 0);

const NET_0_1: Src = Src::Bit(NetId(0), 1);

const NET_0_2: Src = Src::Bit(NetId(0), 2);

const NET_1: Src = Src::Bit(NetId(1), 0);

const IN_0_OUT_1: &[Port] = &[(0, Dir::Input), (1, Dir::Output)];

/// The worked example, with a cell that isn't used.
const TWO_LEVEL: &[Module] = &[INV, BUF, PAIR, TOP];

/// Ties, open ports and pins, a bus without ports on it, and a cell whose ports stand in another order than its nets.
/// The top comes first.
const MIXED: &[Module] = &[
    Module {
        id: 0,
        name: "top",
        nets: &[(0, "n", Some((0, 2))), (1, "z", None)],
        ports: &[(1, Dir::Inout)],
        insts: &[
            (5, "c", 4, &[&[Src::Tie1], &[NET_0_2, Src::Tie0]]),
            (7, "x", 6, &[&[], &[NET_0_1]]),
            (8, "=y", 6, &[&[Src::Tie1], &[]]),
            (9, "d", 4, &[&[], &[]]),
        ],
        ..EMPTY
    },
    Module {
        id: 4,
        name: "C",
        leaf: true,
        nets: &[(0, "A", Some((1, 0))), (1, "B", None)],
        ports: &[(1, Dir::Input), (0, Dir::Input)],
        ..EMPTY
    },
    Module {
        id: 6,
        name: "box",
        nets: &[(0, "a", None), (1, "b", None)],
        ports: IN_0_OUT_1,
        insts: &[(0, "c", 4, &[&[NET_0], &[NET_1, NET_0]])],
        ..EMPTY
    },
];

/// A bus that goes down through two levels, in each of which its bits change places: `D` of the latch is on
/// `{x[1], x[0]}`, `x` on `{s[1], s[2]}`, and `s` on `{bus[6], bus[7]}` or on `{0, bus[7]}`.
const CROSSED: &[Module] = &[
    Module {
        id: 0,
        name: "LATCH",
        leaf: true,
        nets: &[(0, "D", Some((1, 0))), (1, "Q", None)],
        ports: IN_0_OUT_1,
        ..EMPTY
    },
    Module {
        id: 1,
        name: "inner",
        nets: &[(0, "x", Some((0, 1))), (1, "z", None)],
        ports: IN_0_OUT_1,
        insts: &[(0, "l", 0, &[&[NET_0_1, NET_0], &[NET_1]])],
        ..EMPTY
    },
    Module {
        id: 2,
        name: "middle",
        nets: &[(0, "s", Some((2, 1))), (1, "t", None)],
        ports: IN_0_OUT_1,
        insts: &[(0, "k", 1, &[&[NET_0_1, NET_0], &[NET_1]])],
        ..EMPTY
    },
    Module {
        id: 3,
        name: "top",
        nets: &[(0, "bus", Some((7, 6))), (1, "out", None)],
        ports: IN_0_OUT_1,
        insts: &[
            (0, "u[0]", 2, &[&[NET_0_1, NET_0], &[NET_1]]),
            (1, "v", 2, &[&[Src::Tie0, NET_0], &[]]),
        ],
        ..EMPTY
    },
];

const DESIGNS: &[Design] = &[
    Design {
        modules: TWO_LEVEL,
        top: 3,
        placed: &[0, 1],
        lines: "\
inst p/u1 INV
inst p/u2 INV
inst q/u1 INV
inst q/u2 INV
net i
net o
net p/m
net q/m
net w
pin p/u1.A i
pin p/u1.Y p/m
pin p/u2.A p/m
pin p/u2.Y w
pin q/u1.A w
pin q/u1.Y q/m
pin q/u2.A q/m
pin q/u2.Y o
term i input
term o output
",
        unfolded: "\
            / 3; /0/ 2; /0/0/ 0; /0/1/ 0; /1/ 2; /1/0/ 0; /1/1/ 0; \n\
            /0.0 /0.0; /1.0 /1.0; /2.0 /2.0; \
            /0/0.0 /0.0; /0/1.0 /2.0; /0/2.0 /0/2.0; \
            /1/0.0 /2.0; /1/1.0 /1.0; /1/2.0 /1/2.0; \n\
            /0/0/ 0 0; /0/1/ 0 7; /1/0/ 0 0; /1/1/ 0 0; \n\
            /0/0/0.0 /0.0; /0/0/1.0 /0/2.0; /0/1/0.0 /0/2.0; /0/1/1.0 /2.0; \
            /1/0/0.0 /2.0; /1/0/1.0 /1/2.0; /1/1/0.0 /1/2.0; /1/1/1.0 /1.0; \n",
    },
    Design {
        modules: TWO_LEVEL,
        top: 2,
        placed: &[1],
        lines: "\
inst u1 INV
inst u2 INV
net a
net m
net y
pin u1.A a
pin u1.Y m
pin u2.A m
pin u2.Y y
term a input
term y output
",
        unfolded: "\
            / 2; /0/ 0; /1/ 0; \n\
            /0.0 /0.0; /1.0 /1.0; /2.0 /2.0; \n\
            /0/ 0 9; /1/ 0 7; \n\
            /0/0.0 /0.0; /0/1.0 /2.0; /1/0.0 /2.0; /1/1.0 /1.0; \n",
    },
    Design {
        modules: MIXED,
        top: 0,
        placed: &[7, 0],
        lines: "\
inst \\=y/c C
inst c C
inst d C
inst x/c C
net \\=y/b
net n[0]
net n[1]
net n[2]
net x/a
net z
pin \\=y/c.A[0] =1
pin \\=y/c.A[1] \\=y/b
pin \\=y/c.B =1
pin c.A[0] =0
pin c.A[1] n[2]
pin c.B =1
pin d.A[0] =open
pin d.A[1] =open
pin d.B =open
pin x/c.A[0] x/a
pin x/c.A[1] n[1]
pin x/c.B x/a
term z inout
",
        unfolded: "\
            / 0; /5/ 4; /7/ 6; /7/0/ 4; /8/ 6; /8/0/ 4; /9/ 4; \n\
            /0.0 /0.0; /0.1 /0.1; /0.2 /0.2; /1.0 /1.0; \
            /7/0.0 /7/0.0; /7/1.0 /0.1; /8/0.0 =1; /8/1.0 /8/1.0; \n\
            /5/ 4 0; /7/0/ 4 7; /8/0/ 4 0; /9/ 4 0; \n\
            /5/1.0 =1; /5/0.0 /0.2; /5/0.1 =0; \
            /7/0/1.0 /7/0.0; /7/0/0.0 /0.1; /7/0/0.1 /7/0.0; \
            /8/0/1.0 =1; /8/0/0.0 /8/1.0; /8/0/0.1 =1; \
            /9/1.0 open; /9/0.0 open; /9/0.1 open; \n",
    },
    Design {
        modules: CROSSED,
        top: 3,
        placed: &[1, 0, 0],
        lines: "\
inst u\\[0\\]/k/l LATCH
inst v/k/l LATCH
net bus[6]
net bus[7]
net out
net v/t
pin u\\[0\\]/k/l.D[0] bus[7]
pin u\\[0\\]/k/l.D[1] bus[6]
pin u\\[0\\]/k/l.Q out
pin v/k/l.D[0] bus[7]
pin v/k/l.D[1] =0
pin v/k/l.Q v/t
term bus[6] input
term bus[7] input
term out output
",
        unfolded: "\
            / 3; /0/ 2; /0/0/ 1; /0/0/0/ 0; /1/ 2; /1/0/ 1; /1/0/0/ 0; \n\
            /0.0 /0.0; /0.1 /0.1; /1.0 /1.0; \
            /0/0.0 /0.1; /0/0.1 /0.0; /0/1.0 /1.0; \
            /0/0/0.0 /0.0; /0/0/0.1 /0.1; /0/0/1.0 /1.0; \
            /1/0.0 =0; /1/0.1 /0.0; /1/1.0 /1/1.0; \
            /1/0/0.0 /0.0; /1/0/0.1 =0; /1/0/1.0 /1/1.0; \n\
            /0/0/0/ 0 0; /1/0/0/ 0 7; \n\
            /0/0/0/0.0 /0.1; /0/0/0/0.1 /0.0; /0/0/0/1.0 /1.0; \
            /1/0/0/0.0 =0; /1/0/0/0.1 /0.0; /1/0/0/1.0 /1/1.0; \n",
    },
];

/// Whether a table is sound, within the limits at a top, and the top is no leaf.
fn is_good(alloc: Global, plain: &Plain, top: ModId) -> Result<bool, NoMemory>
    ensures { IfOk result (λ good. IsTrue good → IsGood plain.now top) }
{
    if !is_sound(alloc, plain)? {
        return Ok(false);
    }
    if !is_within(alloc, plain, top)? {
        return Ok(false);
    }
    Ok(is_inner(plain, top))
}

fn is_inner(plain: &Plain, id: ModId) -> bool
    requires { IsSound plain.now }
    ensures { IsTrue result → IsInner (module_of plain.now id) }
{
    match module_of(plain, id) {
        Some(holder) => !holder.leaf,
        None => false,
    }
}

fn path_of(alloc: Global, steps: &[u32]) -> Result<Path, NoMemory> {
    let mut path = Path::new(alloc);
    for step in steps {
        path.push(InstId(*step))?;
    }
    Ok(path)
}

/// A placement that is told by its x.
const SPOT: Placement = Placement {
    x: 7,
    y: 0,
    orient: Orient::R0,
    status: Status::Placed,
};

/// A path at 7, and instance 0 of the top at 9.
fn places_of(alloc: Global, placed: &[u32]) -> Result<Places, NoMemory> {
    let mut places = Places::new(alloc);
    places.set(path_of(alloc, placed)?, SPOT)?;
    places.set(path_of(alloc, &[0])?, Placement { x: 9, ..SPOT })?;
    Ok(places)
}

/// Lines as a text, each with a newline.
fn joined(alloc: Global, lines: &List<List<u8>>) -> Result<List<u8>, NoMemory> {
    let mut text = List::new(alloc);
    for line in lines.as_slice() {
        text.extend(line.as_slice())?;
        text.push(b'\n')?;
    }
    Ok(text)
}

/// The lines of a design, and what it unfolds to.
fn told(alloc: Global, design: &Design) -> Result<(List<u8>, String), Fail> {
    let plain = table_of(alloc, design.modules, 10)?;
    let top = ModId(design.top);
    if !is_good(alloc, &plain, top)? {
        return Err("no good design".into());
    }
    let lines = joined(alloc, &flat_lines(alloc, &plain, top)?)?;
    let places = places_of(alloc, design.placed)?;
    let unfolded = shown(alloc, &fresh(alloc, &plain, top, &places)?)?;
    Ok((lines, unfolded))
}

#[test]
fn designs_unfold(rt: HostRuntime) -> Result<(), Fail> {
    for design in DESIGNS {
        let (lines, unfolded) = told(rt.alloc(), design)?;
        assert_eq!(rt; from_utf8(lines.as_slice())?, design.lines);
        assert_eq!(rt; unfolded.as_str(), design.unfolded);
    }
    Ok(())
}
