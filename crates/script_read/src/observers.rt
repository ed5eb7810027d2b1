ghost use Rattle.std.specs.Prelude.{◌≡◌, IfOk};
ghost use Rattle.word_table.specs.Texts.{texts};
ghost use Rattle.script_read.specs.Table.{observe_form, ignore_form, form_in, observer_rows};

use crate::command::Command;
use crate::reports::read_reports;
use crate::word::name_of;
use emh_base::NoMemory;
use std::alloc::Global;

/// What a line asks for, by its first word and those behind it, where its row stands among those
/// of observers or further on.
pub fn read_observers(
    alloc: Global,
    first: &[u8],
    words: &[&[u8]],
) -> Result<Option<Command>, NoMemory>
    ensures { IfOk result (λ command. command ≡ form_in observer_rows first.now (texts words.now)) }
{
    if first == b"observe".as_slice() {
        read_observe(alloc, words)
    } else if first == b"ignore".as_slice() {
        read_ignore(alloc, words)
    } else {
        read_reports(alloc, first, words)
    }
}

/// `observe NAME`, behind its first word.
fn read_observe(alloc: Global, words: &[&[u8]]) -> Result<Option<Command>, NoMemory>
    ensures { IfOk result (λ command. command ≡ observe_form (texts words.now)) }
{
    match words {
        [observer] => {
            let Some(observer) = name_of(alloc, observer)? else {
                return Ok(None);
            };
            Ok(Some(Command::Observe { observer }))
        }
        _ => Ok(None),
    }
}

/// `ignore NAME`, behind its first word.
fn read_ignore(alloc: Global, words: &[&[u8]]) -> Result<Option<Command>, NoMemory>
    ensures { IfOk result (λ command. command ≡ ignore_form (texts words.now)) }
{
    match words {
        [observer] => {
            let Some(observer) = name_of(alloc, observer)? else {
                return Ok(None);
            };
            Ok(Some(Command::Ignore { observer }))
        }
        _ => Ok(None),
    }
}
