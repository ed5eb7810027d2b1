//! Whole texts of reports.
use crate::asks::{Ask, Told, desk_of, tells};
use Ask::{Block, Counts, Modules, Net, Occurrences, Pins, Where};
use Told::Text;
use edit_rules::is_good_state;
use emh_base::{List, ModId, NoMemory, Orient, Placement, Status};
use reports::push_block;
use samples::designs::{BARE, Design, state_of};
use samples::modules::{EMPTY, Module};
use samples::two_level::{BUF, INV, PAIR, TOP, TWO_LEVEL};

/// The reports of the worked example.
const WORKED: &[(Ask, Told)] = &[
    (
        Counts,
        Text("modules 4\noccurrences 7\nleaves 4\nbits 9\nnets 5\npins 8\nplaced 0\n"),
    ),
    (
        Block,
        Text(
            "term i input\nterm o output\n\
             inst p/u1 INV unplaced\ninst p/u2 INV unplaced\n\
             inst q/u1 INV unplaced\ninst q/u2 INV unplaced\n\
             net i 1\nnet o 1\nnet w 2\nnet p/m 2\nnet q/m 2\n",
        ),
    ),
    (
        Pins,
        Text(
            "p/u1.A i\np/u1.Y p/m\np/u2.A p/m\np/u2.Y w\n\
             q/u1.A w\nq/u1.Y q/m\nq/u2.A q/m\nq/u2.Y o\n",
        ),
    ),
    (
        Net(&["p"], "y", None),
        Text("root w\nmember w\nmember p/y\nmember q/a\npin p/u2.Y\npin q/u1.A\n"),
    ),
    (Where("INV"), Text("p/u1\np/u2\nq/u1\nq/u2\n")),
    (Where("pair"), Text("p\nq\n")),
    (Where("top"), Text("/\n")),
    (Where("BUF"), Text("")),
];

#[test]
fn the_worked_example(rt: HostRuntime) -> Result<(), NoMemory> {
    let alloc = rt.alloc();
    let desk = desk_of(&rt, alloc, &TWO_LEVEL, "top")?;
    tells(&rt, alloc, &desk, WORKED)
}

/// A top that holds nothing.
const NOTHING: Design = Design {
    modules: &[Module { name: "t", ..EMPTY }],
    next_module: 1,
    ..BARE
};

#[test]
fn a_top_that_holds_nothing(rt: HostRuntime) -> Result<(), NoMemory> {
    let alloc = rt.alloc();
    let desk = desk_of(&rt, alloc, &NOTHING, "t")?;
    let table = [
        (Pins, Text("")),
        (Block, Text("")),
        (Occurrences, Text("occ / t\n")),
        (Modules, Text("module t open\n")),
    ];
    tells(&rt, alloc, &desk, &table)
}

/// The worked example with an instance placed.
const PLACED: Design = Design {
    places: &[(
        &[1, 0],
        Placement {
            x: -2147483648,
            y: 2147483647,
            orient: Orient::MXR90,
            status: Status::Placed,
        },
    )],
    ..TWO_LEVEL
};

#[test]
fn a_placed_instance(rt: HostRuntime) -> Result<(), NoMemory> {
    let alloc = rt.alloc();
    let state = state_of(alloc, &PLACED)?;
    let mut out = List::new(alloc);
    let good = is_good_state(alloc, &state)?;
    assert!(rt; good);
    push_block(alloc, &state.plain, state.top, &state.places, &mut out)?;
    let wanted = "term i input\nterm o output\n\
                  inst p/u1 INV unplaced\ninst p/u2 INV unplaced\n\
                  inst q/u1 INV -2147483648 2147483647 MXR90 Placed\ninst q/u2 INV unplaced\n\
                  net i 1\nnet o 1\nnet w 2\nnet p/m 2\nnet q/m 2\n";
    assert!(rt; out.as_slice() == wanted.as_bytes());
    Ok(())
}
