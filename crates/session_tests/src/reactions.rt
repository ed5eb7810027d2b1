//! Commands that observers answer.
use crate::history::WITH_NET;
use crate::observers::{Setter, Turner};
use crate::steps::Step::{Does, Ignore, Is, Observe, Redo, Spends, Undo};
use crate::steps::{Step, plays, session_of};
use emh_base::{NoMemory, Settings};
use emh_session::Observer;
use samples::asks::Ask::CreateNet;
use samples::designs::Design;
use samples::two_level::TWO_LEVEL;
use std::alloc::Global;

/// What a net that is renamed back and forth comes to with each budget.
const BUDGETS: &[u32] = &[3, 0, 100_000];

#[test]
fn a_budget_is_used_up_by_renaming(rt: HostRuntime) -> Result<(), NoMemory> {
    let turner: Box<dyn Observer> = Box::new(rt.alloc(), Turner { alloc: rt.alloc() })?;
    let watch = [turner];
    for budget in BUDGETS {
        let mut session = session_of(&rt, rt.alloc(), &TWO_LEVEL, *budget, 1)?;
        let steps = [
            Observe("Turner", true),
            Spends(CreateNet(3, "x_p", None), *budget),
            Is(TWO_LEVEL, 0, 0),
            Ignore("Turner", true),
            Does(CreateNet(3, "x_q", None), 0),
            Undo(true),
            Is(TWO_LEVEL, 0, 1),
        ];
        plays(&rt, rt.alloc(), &mut session, &watch, &steps)?;
    }
    Ok(())
}

/// The net `v`, and the grid that an observer sets for it.
const WITH_GRID: Design = Design {
    settings: Settings {
        fanout: None,
        grid: Some(7),
    },
    ..WITH_NET
};

/// An observer that wants a grid of 0, which is refused, and then another one.
fn setter(alloc: Global, name: &'static [u8], grid: u32) -> Setter {
    Setter {
        alloc,
        name,
        first: 0,
        second: grid,
    }
}

/// An observer `grid` wants a grid of 0, which is refused, and then one of 7.
const ANSWERED: &[Step] = &[
    Does(CreateNet(3, "v", None), 0),
    Undo(true),
    Observe("grid", true),
    Does(CreateNet(3, "v", None), 1),
    Is(WITH_GRID, 1, 0),
    // what it made goes back and forth with the command
    Undo(true),
    Is(TWO_LEVEL, 0, 1),
    Redo(true),
    Is(WITH_GRID, 1, 0),
    // it is enabled still, and a new command leaves nothing to go forth to
    Undo(true),
    Does(CreateNet(3, "v", None), 1),
    Redo(false),
    Ignore("grid", true),
    Undo(true),
    Does(CreateNet(3, "v", None), 0),
    Is(WITH_NET, 1, 0),
];

#[test]
fn an_answer_goes_on_after_a_refused_edit(rt: HostRuntime) -> Result<(), NoMemory> {
    let only: Box<dyn Observer> = Box::new(rt.alloc(), setter(rt.alloc(), b"grid", 7))?;
    let watch = [only];
    let mut session = session_of(&rt, rt.alloc(), &TWO_LEVEL, 1000, 1)?;
    plays(&rt, rt.alloc(), &mut session, &watch, ANSWERED)
}

/// Two observers have the name `grid`, of which the second one wants 7, and between them one is called `other`.
const NAMESAKES: &[Step] = &[
    Observe("grid", true),
    Does(CreateNet(3, "v", None), 2),
    Is(WITH_GRID, 1, 0),
    Undo(true),
    Ignore("grid", true),
    Does(CreateNet(3, "v", None), 0),
    Is(WITH_NET, 1, 0),
];

#[test]
fn observers_of_one_name_are_told_in_order(rt: HostRuntime) -> Result<(), NoMemory> {
    let front: Box<dyn Observer> = Box::new(rt.alloc(), setter(rt.alloc(), b"grid", 5))?;
    let other: Box<dyn Observer> = Box::new(rt.alloc(), setter(rt.alloc(), b"other", 6))?;
    let back: Box<dyn Observer> = Box::new(rt.alloc(), setter(rt.alloc(), b"grid", 7))?;
    let watch = [front, other, back];
    let mut session = session_of(&rt, rt.alloc(), &TWO_LEVEL, 1000, 3)?;
    plays(&rt, rt.alloc(), &mut session, &watch, NAMESAKES)
}

/// So many changes as there are observers are within the budget, and one more isn't.
const MANY: &[(u32, Step)] = &[
    (64, Does(CreateNet(3, "v", None), 64)),
    (63, Spends(CreateNet(3, "v", None), 63)),
];

#[test]
fn sixty_four_observers_are_told(rt: HostRuntime) -> Result<(), NoMemory> {
    let mut watch: Vec<Box<dyn Observer>> = Vec::new(rt.alloc());
    for _ in 0..64 {
        watch.push(Box::new(rt.alloc(), setter(rt.alloc(), b"grid", 7))?)?;
    }
    assert_eq!(rt; watch.len(), 64);
    for (budget, step) in MANY {
        let mut session = session_of(&rt, rt.alloc(), &TWO_LEVEL, *budget, 64)?;
        let steps = [Observe("grid", true), *step];
        plays(&rt, rt.alloc(), &mut session, watch.as_slice(), &steps)?;
    }
    Ok(())
}
