ghost use Rattle.std.specs.Prelude.{◌≡◌, IfOk};
ghost use Rattle.word_table.specs.Texts.{texts};
ghost use Rattle.script_read.specs.Table.{place_form, unplace_form, placement_form, form_in, spot_rows};

use crate::command::Command;
use crate::number::signed_of;
use crate::settings::read_settings;
use crate::word::{orient_of, path_of, status_of};
use emh_base::{List, Name, NoMemory};
use std::alloc::Global;

/// What a line asks for, by its first word and those behind it, where its row stands among those
/// of edits of placements or further on.
pub fn read_spots(alloc: Global, first: &[u8], words: &[&[u8]]) -> Result<Option<Command>, NoMemory>
    ensures { IfOk result (λ command. command ≡ form_in spot_rows first.now (texts words.now)) }
{
    if first == b"place".as_slice() {
        read_place(alloc, words)
    } else if first == b"unplace".as_slice() {
        read_unplace(alloc, words)
    } else {
        read_settings(alloc, first, words)
    }
}

/// `place PATH I I ORIENT STATUS`, behind its first word.
fn read_place(alloc: Global, words: &[&[u8]]) -> Result<Option<Command>, NoMemory>
    ensures { IfOk result (λ command. command ≡ place_form (texts words.now)) }
{
    match words {
        [path, others @ ..] => {
            let Some(path) = path_of(alloc, path)? else {
                return Ok(None);
            };
            Ok(read_placement(path, others))
        }
        _ => Ok(None),
    }
}

/// The same, behind the path.
fn read_placement(path: List<Name>, words: &[&[u8]]) -> Option<Command>
    ensures { result ≡ placement_form path (texts words.now) }
{
    match words {
        [x, y, orient, status] => {
            let x = signed_of(x)?;
            let y = signed_of(y)?;
            let orient = orient_of(orient)?;
            let status = status_of(status)?;
            Some(Command::Place {
                path,
                x,
                y,
                orient,
                status,
            })
        }
        _ => None,
    }
}

/// `unplace PATH`, behind its first word.
fn read_unplace(alloc: Global, words: &[&[u8]]) -> Result<Option<Command>, NoMemory>
    ensures { IfOk result (λ command. command ≡ unplace_form (texts words.now)) }
{
    match words {
        [path] => {
            let Some(path) = path_of(alloc, path)? else {
                return Ok(None);
            };
            Ok(Some(Command::Unplace { path }))
        }
        _ => Ok(None),
    }
}
