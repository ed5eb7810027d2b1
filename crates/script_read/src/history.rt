ghost use Rattle.std.specs.Prelude.{◌≡◌, IfOk};
ghost use Rattle.word_table.specs.Texts.{texts};
ghost use Rattle.script_read.specs.Table.{undo_form, redo_form, form_in, history_rows};

use crate::command::Command;
use crate::observers::read_observers;
use emh_base::NoMemory;
use std::alloc::Global;

/// What a line asks for, by its first word and those behind it, where its row stands among those
/// of the history or further on.
pub fn read_history(
    alloc: Global,
    first: &[u8],
    words: &[&[u8]],
) -> Result<Option<Command>, NoMemory>
    ensures { IfOk result (λ command. command ≡ form_in history_rows first.now (texts words.now)) }
{
    if first == b"undo".as_slice() {
        read_undo(alloc, words)
    } else if first == b"redo".as_slice() {
        read_redo(alloc, words)
    } else {
        read_observers(alloc, first, words)
    }
}

/// `undo`, behind its first word.
fn read_undo(alloc: Global, words: &[&[u8]]) -> Result<Option<Command>, NoMemory>
    ensures { IfOk result (λ command. command ≡ undo_form (texts words.now)) }
{
    match words {
        [] => Ok(Some(Command::Undo)),
        _ => Ok(None),
    }
}

/// `redo`, behind its first word.
fn read_redo(alloc: Global, words: &[&[u8]]) -> Result<Option<Command>, NoMemory>
    ensures { IfOk result (λ command. command ≡ redo_form (texts words.now)) }
{
    match words {
        [] => Ok(Some(Command::Redo)),
        _ => Ok(None),
    }
}
