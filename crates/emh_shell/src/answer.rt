//! Lines that are about the open session.
ghost use Rattle.std.specs.Prelude.{◌≡◌, ◌≤◌, IfOk, IsTrue, length};
ghost use Rattle.emh_shell.specs.Answers.{watched, no_design_line, Answered};
ghost use Rattle.emh_shell.specs.Steps.{first_word, asks_session, SessionAnswers};
ghost use Rattle.emh_shell.specs.inside.Telling.{Tells};

use crate::churn::churn;
use crate::edits::edit;
use crate::history::{redo, undo};
use crate::objects::word_line;
use crate::observers::mark;
use crate::progress::Progress;
use crate::report::report;
use emh_base::{List, NoMemory};
use emh_session::{Observer, Session};
use script_read::{Command, Line};
use std::alloc::Global;

/// What a line tells that is about the open session.
#[derive(Debug, Drop)]
pub enum Told {
    /// It is refused, and changes nothing.
    Refused(List<u8>),
    Accepted(List<u8>),
}

/// The line of a command that needs a design, where none is open, by its first word.
pub fn no_design_line(alloc: Global, line: &Line) -> Result<List<u8>, NoMemory>
    ensures { IfOk result (λ text. text ≡ no_design_line line.now.number (first_word line.now)) }
{
    word_line(alloc, line, 27, 0)
}

/// Carries out a line that is about the open session, and gives what it prints.
pub fn answer(
    alloc: Global,
    line: &Line,
    progress: &mut Progress,
    watch: &[Box<dyn Observer>],
) -> Result<List<u8>, NoMemory>
    requires asks { IsTrue (asks_session line.now.command) }
    requires watched { length watch.now ≡ progress.old.watchers }
    requires few { length watch.now ≤ 64 }
    ensures answers { let W = watched (λ b. called b) (λ b. wants b) watch.now in
        IfOk result (λ said. Answered line.now.number (first_word line.now)
        (SessionAnswers W line.now.command line.now) progress.old said progress.new) }
    ensures watchers { progress.new.watchers ≡ progress.old.watchers }
{
    match &mut progress.session {
        None => {
            let text = no_design_line(alloc, line)?;
            progress.has_refused = true;
            Ok(text)
        }
        Some(session) => match answer_in(alloc, line, session, watch)? {
            Told::Refused(text) => {
                progress.has_refused = true;
                Ok(text)
            }
            Told::Accepted(text) => Ok(text),
        },
    }
}

/// Carries out a line in a session.
fn answer_in(
    alloc: Global,
    line: &Line,
    session: &mut Session,
    watch: &[Box<dyn Observer>],
) -> Result<Told, NoMemory>
    requires asks { IsTrue (asks_session line.now.command) }
    requires watched { length watch.now ≡ length session.old.enabled }
    requires few { length watch.now ≤ 64 }
    ensures tells { let W = watched (λ b. called b) (λ b. wants b) watch.now in
        IfOk result (λ told. Tells (SessionAnswers W line.now.command line.now)
        session.old told session.new) }
    ensures marks { length session.new.enabled ≡ length session.old.enabled }
{
    match &line.command {
        Command::Undo => undo(alloc, line, session),
        Command::Redo => redo(alloc, line, session),
        Command::Observe { observer } => mark(alloc, line, observer, true, session, watch),
        Command::Ignore { observer } => mark(alloc, line, observer, false, session, watch),
        Command::Report(kind) => report(alloc, line, kind, session, watch),
        Command::Churn { seed, turns } => churn(alloc, line, *seed, *turns, session, watch),
        _ => edit(alloc, line, session, watch),
    }
}
