//! Steps of a session, each with what is told of it.
ghost use Rattle.std.specs.Prelude.{◌≡◌, ◌≤◌, [], length, IfOk};
ghost use Rattle.desk.specs.Desk.{IsClosed};

use desk::Desk;
use edit_rules::OpenFault;
use emh_base::{NoMemory, Object, Refusal, Rule, State};
use emh_session::{Accepted, CommandFault, Observer, Session};
use flatten_rules::is_sound;
use samples::asks::{Ask, edit_of};
use samples::designs::{Design, state_of};
use samples::modules::name_of;
use samples::same::same_state;
use std::alloc::Global;
use std::process::Abort;

#[derive(Clone, Copy)]
pub enum Step {
    /// A command to which observers add so many edits.
    Does(Ask, u32),
    /// A command that a rule refuses.
    Refused(Ask, Rule, Object),
    /// A command whose budget, which this is, is used up.
    Spends(Ask, u32),
    /// Whether there is a state to go back to.
    Undo(bool),
    /// Whether there is a state to go forth to.
    Redo(bool),
    /// Whether there is an observer of the name.
    Observe(&'static str, bool),
    /// Whether there is an observer of the name.
    Ignore(&'static str, bool),
    /// The state is this design, and there are so many states before and ahead.
    Is(Design, usize, usize),
}

/// A session on a design, which is opened at `top`.
pub fn session_of(
    rt: &impl Abort,
    alloc: Global,
    design: &Design,
    budget: u32,
    watchers: u32,
) -> Result<Session, NoMemory>
    requires budget { budget ≤ 100000 }
    requires watchers { watchers ≤ 64 }
    ensures { IfOk result (λ session. length session.enabled ≡ watchers) }
{
    let desk = desk_of(rt, alloc, design)?;
    Session::open(alloc, desk, budget, watchers)
}

/// A desk with a design, which is opened at `top`.
pub fn desk_of(rt: &impl Abort, alloc: Global, design: &Design) -> Result<Desk, NoMemory>
    ensures closed { IfOk result IsClosed }
    ensures past { IfOk result (λ desk. desk.past ≡ []) }
    ensures future { IfOk result (λ desk. desk.future ≡ []) }
{
    let state = state_of(alloc, design)?;
    let top = name_of(alloc, "top")?;
    let sound = is_sound(alloc, &state.plain)?;
    assert!(rt; sound);
    match Desk::open(state.plain, &top) {
        Ok(desk) => Ok(desk),
        Err(fault) => {
            assert_eq!(rt; fault, OpenFault::NoMemory);
            Err(NoMemory)
        }
    }
}

/// Takes steps in order.
pub fn plays(
    rt: &impl Abort,
    alloc: Global,
    session: &mut Session,
    watch: &[Box<dyn Observer>],
    steps: &[Step],
) -> Result<(), NoMemory>
    requires { length watch.now ≡ length session.old.enabled }
{
    for step in steps {
        take(rt, alloc, session, watch, *step)?;
    }
    Ok(())
}

fn take(
    rt: &impl Abort,
    alloc: Global,
    session: &mut Session,
    watch: &[Box<dyn Observer>],
    step: Step,
) -> Result<(), NoMemory>
    requires { length watch.now ≡ length session.old.enabled }
    ensures { length session.new.enabled ≡ length session.old.enabled }
{
    match step {
        Step::Does(ask, edits) => {
            let told = session.command(edit_of(alloc, ask)?, watch);
            assert_eq!(rt;
                told.ok(),
                Some(Accepted {
                    observer_edits: edits
                })
            );
        }
        Step::Refused(ask, rule, object) => {
            let told = session.command(edit_of(alloc, ask)?, watch);
            let refusal = Refusal { rule, object };
            assert_eq!(rt; told.err(), Some(CommandFault::Rule(refusal)));
        }
        Step::Spends(ask, budget) => {
            let told = session.command(edit_of(alloc, ask)?, watch);
            assert_eq!(rt; told.err(), Some(CommandFault::BudgetSpent { budget }));
        }
        Step::Undo(done) => assert_eq!(rt; session.undo().is_ok(), done),
        Step::Redo(done) => assert_eq!(rt; session.redo().is_ok(), done),
        Step::Observe(name, done) => {
            assert_eq!(rt; session.observe(name.as_bytes(), watch).is_ok(), done);
        }
        Step::Ignore(name, done) => {
            assert_eq!(rt; session.ignore(name.as_bytes(), watch).is_ok(), done);
        }
        Step::Is(design, past, future) => is_now(rt, alloc, session, &design, past, future)?,
    }
    Ok(())
}

fn is_now(
    rt: &impl Abort,
    alloc: Global,
    session: &Session,
    design: &Design,
    past: usize,
    future: usize,
) -> Result<(), NoMemory> {
    let wanted = state_of(alloc, design)?;
    let same = same_state(session.desk().state(), &wanted)?;
    assert!(rt; same);
    assert_eq!(rt; session.desk().past_len(), past);
    assert_eq!(rt; session.desk().future_len(), future);
    Ok(())
}
