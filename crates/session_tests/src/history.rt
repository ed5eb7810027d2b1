//! Undo and redo, and commands without observers.
use crate::steps::Step::{Does, Ignore, Is, Observe, Redo, Refused, Undo};
use crate::steps::{Step, desk_of, plays, session_of};
use desk::{Denied, FirstFault};
use emh_base::Rule::{BadNumber, Locked, TooManyObjects};
use emh_base::{ModId, NoMemory, Object, Orient, Placement, Refusal, Status};
use emh_session::Observer;
use samples::asks::Ask::{CreateNet, DeleteInst, Lock, Place, SetGrid};
use samples::asks::edit_of;
use samples::designs::Design;
use samples::modules::Module;
use samples::two_level::{BUF, INV, PAIR, TOP, TWO_LEVEL};

const SPOT: Placement = Placement {
    x: 1,
    y: 2,
    orient: Orient::MX,
    status: Status::Placed,
};

/// With a block instance placed.
const PLACED: Design = Design {
    places: &[(&[1, 1], SPOT)],
    ..TWO_LEVEL
};

/// With a net `v` in the top, whose id is that of `z` before it.
pub const WITH_NET: Design = Design {
    modules: &[
        INV,
        BUF,
        PAIR,
        Module {
            nets: &[
                (0, "i", None),
                (1, "o", None),
                (2, "w", None),
                (3, "v", None),
            ],
            next_net: 4,
            ..TOP
        },
    ],
    ..TWO_LEVEL
};

/// What is done on the worked example, whose modules 2 and 3 are `pair` and `top`.
const HISTORIES: &[&[Step]] = &[
    // a block instance comes back with its placement
    &[
        Does(Place(&[1, 1], SPOT), 0),
        Does(DeleteInst(3, 1), 0),
        Undo(true),
        Is(PLACED, 1, 1),
        Redo(true),
        Undo(true),
        Is(PLACED, 1, 1),
        Undo(true),
        Is(TWO_LEVEL, 0, 2),
    ],
    // nothing to go back or forth to
    &[
        Undo(false),
        Redo(false),
        Does(CreateNet(3, "z", None), 0),
        Redo(false),
        Undo(true),
        Undo(false),
        Is(TWO_LEVEL, 0, 1),
        Does(CreateNet(3, "v", None), 0),
        Is(WITH_NET, 1, 0),
        Redo(false),
    ],
    // a refused command isn't a step, and a lock is
    &[
        Does(CreateNet(2, "z", None), 0),
        Does(Lock(2), 0),
        Refused(CreateNet(2, "v", None), Locked, Object::Module(ModId(2))),
        Undo(true),
        Undo(true),
        Is(TWO_LEVEL, 0, 2),
    ],
    // nobody is there
    &[
        Observe("Nobody", false),
        Ignore("Nobody", false),
        Is(TWO_LEVEL, 0, 0),
    ],
];

#[test]
fn states_are_gone_back_and_forth_to(rt: HostRuntime) -> Result<(), NoMemory> {
    let watch: [Box<dyn Observer>; 0] = [];
    for steps in HISTORIES {
        let mut session = session_of(&rt, rt.alloc(), &TWO_LEVEL, 1000, 0)?;
        plays(&rt, rt.alloc(), &mut session, &watch, steps)?;
    }
    Ok(())
}

/// The top has no id left for a net.
const FULL: Design = Design {
    modules: &[
        INV,
        BUF,
        PAIR,
        Module {
            next_net: 4294967295,
            ..TOP
        },
    ],
    ..TWO_LEVEL
};

#[test]
fn a_refused_command_is_not_open(rt: HostRuntime) -> Result<(), NoMemory> {
    let mut desk = desk_of(&rt, rt.alloc(), &FULL)?;
    let told = desk.first(edit_of(rt.alloc(), CreateNet(3, "z", None))?, 1000);
    let refusal = Refusal {
        rule: TooManyObjects,
        object: Object::Module(ModId(3)),
    };
    assert_eq!(rt; told.err(), Some(FirstFault::Rule(refusal)));
    assert_eq!(rt; desk.journal_len(), 0);
    Ok(())
}

#[test]
fn a_rule_is_told_before_the_budget(rt: HostRuntime) -> Result<(), NoMemory> {
    let alloc = rt.alloc();
    let mut desk = desk_of(&rt, alloc, &TWO_LEVEL)?;
    let first = desk.first(edit_of(alloc, CreateNet(3, "v", None))?, 0);
    assert!(rt; first.is_ok());
    desk.speak(5);
    let last = desk.apply(edit_of(alloc, SetGrid(7))?).err();
    assert_eq!(rt; last, Some(Denied::BudgetSpent { budget: 0 }));
    let bad = desk.apply(edit_of(alloc, SetGrid(0))?).err();
    let refusal = Refusal {
        rule: BadNumber,
        object: Object::Number,
    };
    assert_eq!(rt; bad, Some(Denied::Rule(refusal)));
    assert_eq!(rt; desk.journal_len(), 1);
    Ok(())
}

#[test]
fn a_command_is_made_and_dropped(rt: HostRuntime) -> Result<(), NoMemory> {
    let alloc = rt.alloc();
    let mut desk = desk_of(&rt, alloc, &TWO_LEVEL)?;
    let first = desk.first(edit_of(alloc, CreateNet(3, "v", None))?, 1);
    assert!(rt; first.is_ok());
    assert!(rt; desk.apply(edit_of(alloc, SetGrid(7))?).is_ok());
    assert_eq!(rt; desk.settings().grid, Some(7));
    desk.drop_command();
    assert_eq!(rt; desk.settings().grid, None);
    assert_eq!(rt; desk.journal_len(), 0);
    assert_eq!(rt; desk.past_len(), 0);
    Ok(())
}

#[test]
fn a_desk_tells_its_table_and_its_top(rt: HostRuntime) -> Result<(), NoMemory> {
    let desk = desk_of(&rt, rt.alloc(), &TWO_LEVEL)?;
    let table = desk.plain()?;
    assert_eq!(rt; table.modules.len(), 4);
    assert_eq!(rt; desk.top(), ModId(3));
    Ok(())
}
