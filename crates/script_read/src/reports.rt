ghost use Rattle.std.specs.Prelude.{◌≡◌, IfOk};
ghost use Rattle.word_table.specs.Texts.{texts};
ghost use Rattle.script_read.specs.Form.{plain_kind};
ghost use Rattle.script_read.specs.Table.{report_form, net_bit_form, where_form, kind_form, form_in, report_rows};

use crate::command::Command;
use crate::modules::read_modules;
use crate::word::{name_of, net_bit_of};
use emh_base::{Kind, NoMemory};
use std::alloc::Global;

/// What a line asks for, by its first word and those behind it, where its row stands among those
/// of reports or further on.
pub fn read_reports(
    alloc: Global,
    first: &[u8],
    words: &[&[u8]],
) -> Result<Option<Command>, NoMemory>
    ensures { IfOk result (λ command. command ≡ form_in report_rows first.now (texts words.now)) }
{
    if first == b"report".as_slice() {
        read_report(alloc, words)
    } else {
        read_modules(alloc, first, words)
    }
}

/// `report KIND`, behind its first word.
fn read_report(alloc: Global, words: &[&[u8]]) -> Result<Option<Command>, NoMemory>
    ensures { IfOk result (λ command. command ≡ report_form (texts words.now)) }
{
    match words {
        [] => Ok(None),
        [word, others @ ..] => {
            if *word == b"net".as_slice() {
                read_net_bit(alloc, others)
            } else if *word == b"where".as_slice() {
                read_where(alloc, others)
            } else {
                Ok(read_kind(words))
            }
        }
    }
}

/// `report net NETBIT`, behind its first two words.
fn read_net_bit(alloc: Global, words: &[&[u8]]) -> Result<Option<Command>, NoMemory>
    ensures { IfOk result (λ command. command ≡ net_bit_form (texts words.now)) }
{
    match words {
        [word] => match net_bit_of(alloc, word)? {
            None => Ok(None),
            Some(kind) => Ok(Some(Command::Report(kind))),
        },
        _ => Ok(None),
    }
}

/// `report where MODULE`, behind its first two words.
fn read_where(alloc: Global, words: &[&[u8]]) -> Result<Option<Command>, NoMemory>
    ensures { IfOk result (λ command. command ≡ where_form (texts words.now)) }
{
    match words {
        [word] => match name_of(alloc, word)? {
            None => Ok(None),
            Some(name) => Ok(Some(Command::Report(Kind::Where(name)))),
        },
        _ => Ok(None),
    }
}

/// A report that one word asks for.
fn read_kind(words: &[&[u8]]) -> Option<Command>
    ensures { result ≡ kind_form (texts words.now) }
{
    match words {
        [word] => match plain_kind(word) {
            None => None,
            Some(kind) => Some(Command::Report(kind)),
        },
        _ => None,
    }
}

/// What `report` tells, by one word.
fn plain_kind(word: &[u8]) -> Option<Kind>
    ensures { result ≡ plain_kind word.now }
{
    if word == b"pins".as_slice() {
        Some(Kind::Pins)
    } else if word == b"block".as_slice() {
        Some(Kind::Block)
    } else if word == b"occurrences".as_slice() {
        Some(Kind::Occurrences)
    } else if word == b"modules".as_slice() {
        Some(Kind::Modules)
    } else if word == b"counts".as_slice() {
        Some(Kind::Counts)
    } else if word == b"log".as_slice() {
        Some(Kind::Log)
    } else {
        None
    }
}
