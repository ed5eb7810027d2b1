//! The lines of history.
ghost use Rattle.std.specs.Prelude.{◌≡◌, IfOk};
ghost use Rattle.emh_shell.specs.History.{UndoAnswers, RedoAnswers};
ghost use Rattle.emh_shell.specs.Steps.{first_word};
ghost use Rattle.emh_shell.specs.inside.Telling.{Tells};

use crate::answer::Told;
use crate::objects::word_line;
use crate::printing::ok_line;
use emh_base::NoMemory;
use emh_session::{NothingToRedo, NothingToUndo, Session};
use script_read::Line;
use std::alloc::Global;

/// `undo`.
pub fn undo(alloc: Global, line: &Line, session: &mut Session) -> Result<Told, NoMemory>
    ensures tells { IfOk result (λ told.
        Tells (UndoAnswers line.now.number (first_word line.now)) session.old told session.new) }
    ensures marks { session.new.enabled ≡ session.old.enabled }
{
    match session.undo() {
        Ok(()) => Ok(Told::Accepted(ok_line(alloc, line.number)?)),
        Err(NothingToUndo) => Ok(Told::Refused(word_line(alloc, line, 34, 0)?)),
    }
}

/// `redo`.
pub fn redo(alloc: Global, line: &Line, session: &mut Session) -> Result<Told, NoMemory>
    ensures tells { IfOk result (λ told.
        Tells (RedoAnswers line.now.number (first_word line.now)) session.old told session.new) }
    ensures marks { session.new.enabled ≡ session.old.enabled }
{
    match session.redo() {
        Ok(()) => Ok(Told::Accepted(ok_line(alloc, line.number)?)),
        Err(NothingToRedo) => Ok(Told::Refused(word_line(alloc, line, 35, 0)?)),
    }
}
