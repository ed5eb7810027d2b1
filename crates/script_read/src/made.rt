ghost use Rattle.std.specs.Prelude.{◌≡◌, IfOk};
ghost use Rattle.word_table.specs.Texts.{texts};
ghost use Rattle.script_read.specs.Table.{generate_form, churn_form, form_in, made_rows};

use crate::command::Command;
use crate::history::read_history;
use crate::number::number_of;
use emh_base::NoMemory;
use std::alloc::Global;

/// What a line asks for, by its first word and those behind it, where its row stands among those
/// of made designs or further on.
pub fn read_made(alloc: Global, first: &[u8], words: &[&[u8]]) -> Result<Option<Command>, NoMemory>
    ensures { IfOk result (λ command. command ≡ form_in made_rows first.now (texts words.now)) }
{
    if first == b"generate".as_slice() {
        read_generate(alloc, words)
    } else if first == b"churn".as_slice() {
        read_churn(alloc, words)
    } else {
        read_history(alloc, first, words)
    }
}

/// `generate U U U`, behind its first word.
fn read_generate(alloc: Global, words: &[&[u8]]) -> Result<Option<Command>, NoMemory>
    ensures { IfOk result (λ command. command ≡ generate_form (texts words.now)) }
{
    match words {
        [seed, modules, width] => {
            let Some(seed) = number_of(seed) else {
                return Ok(None);
            };
            let Some(modules) = number_of(modules) else {
                return Ok(None);
            };
            let Some(width) = number_of(width) else {
                return Ok(None);
            };
            Ok(Some(Command::Generate {
                seed,
                modules,
                width,
            }))
        }
        _ => Ok(None),
    }
}

/// `churn U U`, behind its first word.
fn read_churn(alloc: Global, words: &[&[u8]]) -> Result<Option<Command>, NoMemory>
    ensures { IfOk result (λ command. command ≡ churn_form (texts words.now)) }
{
    match words {
        [seed, turns] => {
            let Some(seed) = number_of(seed) else {
                return Ok(None);
            };
            let Some(turns) = number_of(turns) else {
                return Ok(None);
            };
            Ok(Some(Command::Churn { seed, turns }))
        }
        _ => Ok(None),
    }
}
