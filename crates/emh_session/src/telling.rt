ghost use Rattle.std.specs.Prelude.{◌≡◌, ◌<◌, ◌≤◌, length, map, IsSome};
ghost use Rattle.session_rules.specs.React.{react};
ghost use Rattle.desk.specs.Desk.{IsClosed};
ghost use Rattle.emh_session.specs.Observing.{AnswersEntry};
ghost use Rattle.emh_session.specs.inside.Telling.{TellsOne, TellsEntry, TellsAll};
ghost use Rattle.emh_session.specs.inside.Running.{RunsCommand};

use crate::answers::{Accepted, CommandFault, Halt, halted};
use crate::observer::Observer;
use desk::Desk;
use emh_base::Edit;

/// Does an edit of the user as a command: observers are told of each change, and it is kept as one
/// step of undo; or it is dropped, with all that observers made of it.
pub fn run_command(
    desk: &mut Desk,
    budget: u32,
    edit: Edit,
    enabled: &[bool],
    watch: &[Box<dyn Observer>],
) -> Result<Accepted, CommandFault>
    requires closed { IsClosed desk.old }
    requires budget { budget ≤ 100000 }
    requires marks { length watch.now ≡ length enabled.now }
    requires few { length watch.now ≤ 64 }
    ensures { let wanted = map (λ b. wants b) watch.now in
        RunsCommand (react wanted enabled.now budget desk.old.state edit) budget
        desk.old result desk.new }
{
    if let Err(fault) = desk.first(edit, budget) {
        return Err(CommandFault::from(fault));
    }
    match tell_all(desk, enabled, watch) {
        Ok(()) => {
            let observer_edits = desk.journal_len() - 1;
            desk.keep();
            Ok(Accepted { observer_edits })
        }
        Err(halt) => {
            desk.drop_command();
            Err(halted(budget, halt))
        }
    }
}

/// Tells all observers of each entry of the open command's journal, those that come meanwhile among
/// them.
fn tell_all(desk: &mut Desk, enabled: &[bool], watch: &[Box<dyn Observer>]) -> Result<(), Halt>
    requires open { IsSome desk.old.base }
    requires marks { length watch.now ≡ length enabled.now }
    requires few { length watch.now ≤ 64 }
    ensures { TellsAll (map (λ b. wants b) watch.now) enabled.now desk.old result desk.new }
{
    let mut entry = 0;
    while entry < desk.journal_len() {
        tell_entry(desk, enabled, watch, entry)?;
        entry += 1;
    }
    Ok(())
}

/// Tells each enabled observer of an entry, in order.
fn tell_entry(
    desk: &mut Desk,
    enabled: &[bool],
    watch: &[Box<dyn Observer>],
    entry: u32,
) -> Result<(), Halt>
    requires open { IsSome desk.old.base }
    requires there { entry < length desk.old.journal }
    requires marks { length watch.now ≡ length enabled.now }
    requires few { length watch.now ≤ 64 }
    ensures { TellsEntry (map (λ b. wants b) watch.now) enabled.now entry desk.old result desk.new }
{
    for (i, member) in watch.iter().enumerate() {
        tell_one(desk, member, enabled[i], i as u32, entry)?;
    }
    Ok(())
}

/// Tells an observer of an entry, if it is enabled.
fn tell_one(
    desk: &mut Desk,
    member: &Box<dyn Observer>,
    enabled: bool,
    who: u32,
    entry: u32,
) -> Result<(), Halt>
    requires open { IsSome desk.old.base }
    requires there { entry < length desk.old.journal }
    ensures { TellsOne (wants member.now) enabled who entry desk.old result desk.new }
{
    if enabled {
        desk.speak(who);
        return notify(desk, member, entry);
    }
    Ok(())
}

fn notify(desk: &mut Desk, member: &Box<dyn Observer>, entry: u32) -> Result<(), Halt>
    requires open { IsSome desk.old.base }
    requires there { entry < length desk.old.journal }
    ensures { AnswersEntry (wants member.now) entry desk.old result desk.new }
{
    member.changed(desk, entry)
}
