mod counters;
mod told;
mod unnamed;
mod yard;

use crate::modules::{Conns, conns_of};
use asks::{Ask, edit_of};
use designs::{Design, state_of};
use edit_rules::{Judged, apply_plain, is_good_state, judge};
use emh_base::{By, Change, Object, Refusal, Rule, State, TryCopy};
use same::{same_conns, same_state};
use samples::{asks, designs, same};
use std::alloc::Global;
use std::process::Abort;

/// Edits of a design, of which the last is done: the id that it gives, and the connections that stood before.
type Done = (&'static [Ask], Ask, Option<u32>, Conns);

/// Edits of a design, of which the last is refused.
type Refused = (&'static [Ask], Ask, Told);

/// The code of the rule that is broken, the rule, and on what it is.
type Told = (u32, Rule, Object);

/// What is answered to an edit of a good state, which is done. It is judged the same before.
fn carried(rt: &impl Abort, alloc: Global, state: &mut State, ask: Ask) -> Result<Change, Judged> {
    let edit = edit_of(alloc, ask)?;
    let good = is_good_state(alloc, state)?;
    assert!(rt; good);
    let judged = judge(alloc, state, &edit).err();
    let told = apply_plain(alloc, state, &edit);
    assert!(rt; refusal_of(&told) == judged);
    told
}

fn refusal_of(told: &Result<Change, Judged>) -> Option<Judged> {
    match told {
        Ok(_) => None,
        Err(refused) => Some(*refused),
    }
}

/// A design after some edits, which are done.
fn begun(rt: &impl Abort, alloc: Global, design: &Design, asks: &[Ask]) -> Result<State, Judged> {
    let mut state = state_of(alloc, design)?;
    for ask in asks {
        carried(rt, alloc, &mut state, *ask)?;
    }
    Ok(state)
}

/// An edit is refused, and the state is as before.
fn refuses(
    rt: &impl Abort,
    alloc: Global,
    state: &mut State,
    ask: Ask,
    told: Told,
) -> Result<(), Judged> {
    let (code, rule, object) = told;
    let before = state.copy()?;
    let refused = carried(rt, alloc, state, ask).err();
    let same = same_state(state, &before)?;
    assert_eq!(rt; refused, Some(Judged::Rule(Refusal { rule, object })));
    assert_eq!(rt; rule.code(), code);
    assert!(rt; same);
    Ok(())
}

/// The last of some edits of a design is done, and this is told of it.
fn is_done(rt: &impl Abort, alloc: Global, design: &Design, case: &Done) -> Result<(), Judged> {
    let (first, last, made, was) = case;
    let wanted = conns_of(alloc, was)?;
    let mut state = begun(rt, alloc, design, first)?;
    let change = carried(rt, alloc, &mut state, *last)?;
    assert_eq!(rt; change.by, By::User);
    assert_eq!(rt; change.made, *made);
    assert!(rt; same_conns(&change.was, &wanted));
    Ok(())
}

/// The last of some edits of a design is refused.
fn is_refused(
    rt: &impl Abort,
    alloc: Global,
    design: &Design,
    case: &Refused,
) -> Result<(), Judged> {
    let (first, last, told) = case;
    let mut state = begun(rt, alloc, design, first)?;
    refuses(rt, alloc, &mut state, *last, *told)
}
