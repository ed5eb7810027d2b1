ghost use Rattle.std.specs.Prelude.{◌≡◌, IfOk};
ghost use Rattle.word_table.specs.Texts.{texts};
ghost use Rattle.script_read.specs.Table.{command_of};

use crate::command::Command;
use crate::netlists::read_netlists;
use emh_base::NoMemory;
use std::alloc::Global;

/// What a line's words ask for; none where they are of no form.
pub fn read_command(alloc: Global, words: &[&[u8]]) -> Result<Option<Command>, NoMemory>
    ensures { IfOk result (λ command. command ≡ command_of (texts words.now)) }
{
    match words {
        [] => Ok(None),
        [first, others @ ..] => read_netlists(alloc, first, others),
    }
}
