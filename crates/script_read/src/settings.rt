ghost use Rattle.std.specs.Prelude.{◌≡◌, IfOk};
ghost use Rattle.word_table.specs.Texts.{texts};
ghost use Rattle.script_read.specs.Table.{set_fanout_form, set_grid_form, form_in, setting_rows};

use crate::command::Command;
use crate::number::number_of;
use crate::word::name_of;
use emh_base::NoMemory;
use std::alloc::Global;

/// What a line asks for, by its first word and those behind it, where its row stands among those
/// of settings or further on.
pub fn read_settings(
    alloc: Global,
    first: &[u8],
    words: &[&[u8]],
) -> Result<Option<Command>, NoMemory>
    ensures { IfOk result (λ command. command ≡ form_in setting_rows first.now (texts words.now)) }
{
    if first == b"set_fanout".as_slice() {
        read_set_fanout(alloc, words)
    } else if first == b"set_grid".as_slice() {
        read_set_grid(alloc, words)
    } else {
        Ok(None)
    }
}

/// `set_fanout U CELL`, behind its first word.
fn read_set_fanout(alloc: Global, words: &[&[u8]]) -> Result<Option<Command>, NoMemory>
    ensures { IfOk result (λ command. command ≡ set_fanout_form (texts words.now)) }
{
    match words {
        [max, cell] => {
            let Some(max) = number_of(max) else {
                return Ok(None);
            };
            let Some(cell) = name_of(alloc, cell)? else {
                return Ok(None);
            };
            Ok(Some(Command::SetFanout { max, cell }))
        }
        _ => Ok(None),
    }
}

/// `set_grid U`, behind its first word.
fn read_set_grid(alloc: Global, words: &[&[u8]]) -> Result<Option<Command>, NoMemory>
    ensures { IfOk result (λ command. command ≡ set_grid_form (texts words.now)) }
{
    match words {
        [grid] => {
            let Some(grid) = number_of(grid) else {
                return Ok(None);
            };
            Ok(Some(Command::SetGrid { grid }))
        }
        _ => Ok(None),
    }
}
