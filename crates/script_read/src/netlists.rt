ghost use Rattle.std.specs.Prelude.{◌≡◌, IfOk};
ghost use Rattle.word_table.specs.Texts.{texts};
ghost use Rattle.script_read.specs.Table.{load_form, cells_form, write_form, compare_form, form_in, netlist_rows};

use crate::command::Command;
use crate::made::read_made;
use crate::word::{file_of, name_of};
use emh_base::NoMemory;
use std::alloc::Global;

/// What a line asks for, by its first word and those behind it, where its row stands among those
/// of netlists or further on.
pub fn read_netlists(
    alloc: Global,
    first: &[u8],
    words: &[&[u8]],
) -> Result<Option<Command>, NoMemory>
    ensures { IfOk result (λ command. command ≡ form_in netlist_rows first.now (texts words.now)) }
{
    if first == b"load".as_slice() {
        read_load(alloc, words)
    } else if first == b"cells".as_slice() {
        read_cells(alloc, words)
    } else if first == b"write".as_slice() {
        read_write(alloc, words)
    } else if first == b"compare".as_slice() {
        read_compare(alloc, words)
    } else {
        read_made(alloc, first, words)
    }
}

/// `load FILE TOP`, behind its first word.
fn read_load(alloc: Global, words: &[&[u8]]) -> Result<Option<Command>, NoMemory>
    ensures { IfOk result (λ command. command ≡ load_form (texts words.now)) }
{
    match words {
        [file, top] => {
            let Some(file) = file_of(alloc, file)? else {
                return Ok(None);
            };
            let Some(top) = name_of(alloc, top)? else {
                return Ok(None);
            };
            Ok(Some(Command::Load { file, top }))
        }
        _ => Ok(None),
    }
}

/// `cells FILE`, behind its first word.
fn read_cells(alloc: Global, words: &[&[u8]]) -> Result<Option<Command>, NoMemory>
    ensures { IfOk result (λ command. command ≡ cells_form (texts words.now)) }
{
    match words {
        [file] => {
            let Some(file) = file_of(alloc, file)? else {
                return Ok(None);
            };
            Ok(Some(Command::Cells { file }))
        }
        _ => Ok(None),
    }
}

/// `write FILE`, behind its first word.
fn read_write(alloc: Global, words: &[&[u8]]) -> Result<Option<Command>, NoMemory>
    ensures { IfOk result (λ command. command ≡ write_form (texts words.now)) }
{
    match words {
        [file] => {
            let Some(file) = file_of(alloc, file)? else {
                return Ok(None);
            };
            Ok(Some(Command::Write { file }))
        }
        _ => Ok(None),
    }
}

/// `compare FILE TOP`, behind its first word.
fn read_compare(alloc: Global, words: &[&[u8]]) -> Result<Option<Command>, NoMemory>
    ensures { IfOk result (λ command. command ≡ compare_form (texts words.now)) }
{
    match words {
        [file, top] => {
            let Some(file) = file_of(alloc, file)? else {
                return Ok(None);
            };
            let Some(top) = name_of(alloc, top)? else {
                return Ok(None);
            };
            Ok(Some(Command::Compare { file, top }))
        }
        _ => Ok(None),
    }
}
