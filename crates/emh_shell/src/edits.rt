//! The lines of edits.
ghost use Rattle.std.specs.Prelude.{◌≡◌, IfOk, IsTrue, length, map};
ghost use Rattle.script_read.specs.Resolve.{is_edit, resolution};
ghost use Rattle.session_rules.specs.React.{react};
ghost use Rattle.emh_shell.specs.Printing.{refused_line, number_object};
ghost use Rattle.emh_shell.specs.Answers.{watched};
ghost use Rattle.emh_shell.specs.Edits.{EditAnswers, reacted};
ghost use Rattle.emh_shell.specs.inside.Telling.{Tells};

use crate::answer::Told;
use crate::objects::rule_line;
use crate::printing::{edit_line, number_object, refused_line};
use edit_rules::Judged;
use emh_base::{Edit, List, NoMemory};
use emh_session::{CommandFault, Observer, Session};
use script_read::{Line, resolve};
use std::alloc::Global;

/// An edit: its names are looked up, and it is a command of the session.
pub fn edit(
    alloc: Global,
    line: &Line,
    session: &mut Session,
    watch: &[Box<dyn Observer>],
) -> Result<Told, NoMemory>
    requires edit { IsTrue (is_edit line.now.command) }
    requires watched { length watch.now ≡ length session.old.enabled }
    ensures tells { let W = watched (λ b. called b) (λ b. wants b) watch.now in
        IfOk result (λ told. Tells (λ s answer.
        EditAnswers W line.now s (resolution s.now line.now.command) answer)
        session.old told session.new) }
    ensures marks { session.new.enabled ≡ session.old.enabled }
{
    let state = session.desk().state();
    match resolve(alloc, state, &line.command) {
        Ok(edit) => command(alloc, line, edit, session, watch),
        Err(Judged::Rule(refusal)) => {
            let text = rule_line(alloc, &state.plain, line, refusal)?;
            Ok(Told::Refused(text))
        }
        Err(Judged::NoMemory) => Err(NoMemory),
    }
}

/// Does an edit whose names were looked up.
fn command(
    alloc: Global,
    line: &Line,
    edit: Edit,
    session: &mut Session,
    watch: &[Box<dyn Observer>],
) -> Result<Told, NoMemory>
    requires watched { length watch.now ≡ length session.old.enabled }
    ensures tells { let wanted = map (λ b. wants b) watch.now in
        IfOk result (λ told. Tells (λ s answer.
        answer ≡ reacted line.now s (react wanted s.enabled s.budget s.now edit))
        session.old told session.new) }
    ensures marks { session.new.enabled ≡ session.old.enabled }
{
    match session.command(edit, watch) {
        Ok(accepted) => {
            let text = edit_line(alloc, line.number, accepted.observer_edits)?;
            Ok(Told::Accepted(text))
        }
        Err(CommandFault::Rule(refusal)) => {
            let plain = &session.desk().state().plain;
            Ok(Told::Refused(rule_line(alloc, plain, line, refusal)?))
        }
        Err(CommandFault::BudgetSpent { budget }) => {
            Ok(Told::Refused(spent_line(alloc, line.number, budget)?))
        }
        Err(CommandFault::NoMemory) => Err(NoMemory),
    }
}

/// The line of an edit whose observers have used up the budget.
fn spent_line(alloc: Global, number: u32, budget: u32) -> Result<List<u8>, NoMemory>
    ensures { IfOk result (λ text. text ≡ refused_line number 28 (number_object budget)) }
{
    let object = number_object(alloc, budget)?;
    refused_line(alloc, number, 28, object.as_slice())
}
