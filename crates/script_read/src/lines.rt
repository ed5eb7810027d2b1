ghost use Rattle.std.specs.Prelude.{◌≡◌, ◌==◌, ◌+◌, ◌≤◌, length, slice_index, IfOk};
ghost use Rattle.std.specs.List.{list_all, count_by, slice_split};
ghost use Rattle.word_table.specs.Texts.{texts};
ghost use Rattle.script_read.specs.Written.{is_some_word};
ghost use Rattle.script_read.specs.Script.{IsScriptAnswer, is_blank, is_line_byte, line_says, lines_from, lines_of, script_of, without_return, words_in, words_say};

use crate::command::Command;
use crate::read::read_command;
use emh_base::{List, NoMemory};
use std::alloc::{AllocError, Global};

/// The most lines that a script may have.
pub const LINE_LIMIT: usize = 1_000_000;

/// A line that asks for a command.
#[derive(Debug, Drop)]
pub struct Line {
    /// Its number, counted from 1 over all lines, those that are passed over too.
    pub number: u32,
    /// Its words as written.
    pub words: List<List<u8>>,
    pub command: Command,
}

/// The lines of a script that ask for commands, in order.
pub type Script = List<Line>;

/// Why bytes are no script.
#[derive(Clone, Copy, Debug, PartialEq, Eq)]
pub enum ScriptFault {
    /// There are more than 1,000,000 lines.
    TooManyLines,
    /// The line of this number, counted from 1, is the first one outside the grammar.
    BadLine { line: u32 },
    NoMemory,
}

impl From<NoMemory> for ScriptFault {
    ghost use Rattle.script_read.specs.declared.lines.ScriptFault.TheVariants.{NoMemory as no_memory};

    ghost from_gives = { λ _ fault. fault ≡ no_memory };

    fn from(_: NoMemory) -> ScriptFault {
        ScriptFault::NoMemory
    }
}

/// What a line is.
#[derive(Debug, Drop)]
pub enum Says {
    /// It is outside the grammar.
    Bad,
    /// It has no words, or is a comment, and is passed over.
    Nothing,
    /// It asks for a command.
    Asks {
        words: List<List<u8>>,
        command: Command,
    },
}

/// The lines of a script that ask for commands, each with its number, its words and its command.
///
/// A script's lines end with a newline; a last piece that isn't empty is a line too. A line has only the
/// bytes 32 to 126 and tabs, but for one carriage return at its end, and its words are divided by spaces
/// and tabs. A line without words, or whose first word begins with `#`, is passed over. Any other one is
/// as `specs/Table.antt` has it.
///
/// `TooManyLines` comes exactly where there are more than 1,000,000 lines, and is looked for first; else `BadLine`
/// exactly where some line is outside the grammar, with the first one's number. The time is linear in the bytes.
pub fn script(alloc: Global, bytes: &[u8]) -> Result<Script, ScriptFault>
    ensures answer { IsScriptAnswer (script_of bytes.now) result }
    ensures few { IfOk result (λ lines. length lines ≤ 1000000) }
{
    if line_count(bytes) > LINE_LIMIT {
        return Err(ScriptFault::TooManyLines);
    }
    let lines = split_lines(alloc, bytes)?;
    read_lines(alloc, lines.as_slice())
}

/// The number of lines, counted before memory is taken for them.
fn line_count(bytes: &[u8]) -> usize
    ensures { result ≡ length (lines_of bytes.now) }
{
    match bytes.split_last() {
        None => 0,
        Some((last, text)) => {
            if *last == b'\n' {
                return newlines(text) + 1;
            }
            newlines(bytes) + 1
        }
    }
}

fn newlines(bytes: &[u8]) -> usize
    ensures value { result ≡ count_by (λ byte. byte == 10) bytes.now }
    ensures few { result ≤ length bytes.now }
{
    bytes.iter().filter(|byte| **byte == b'\n').count()
}

/// The lines of bytes.
fn split_lines(alloc: Global, bytes: &[u8]) -> Result<Vec<&[u8]>, NoMemory>
    ensures { IfOk result (λ lines. texts lines.items ≡ lines_of bytes.now) }
{
    match bytes.split_last() {
        None => Ok(Vec::new(alloc)),
        Some((last, text)) => Ok(split_text(alloc, if *last == b'\n' { text } else { bytes })?),
    }
}

fn split_text(alloc: Global, text: &[u8]) -> Result<Vec<&[u8]>, AllocError>
    ensures { IfOk result (λ found. texts found.items ≡ slice_split (λ byte. byte == 10) text.now) }
{
    text.split(|byte| *byte == b'\n').collect(alloc)
}

fn read_lines(alloc: Global, lines: &[&[u8]]) -> Result<Script, ScriptFault>
    requires { length lines.now ≤ 1000000 }
    ensures answer { IsScriptAnswer (lines_from 1 (texts lines.now)) result }
    ensures few { IfOk result (λ found. length found ≤ 1000000) }
{
    let mut found = List::new(alloc);
    for (at, line) in lines.iter().enumerate() {
        let number = at as u32 + 1;
        match read_line(alloc, line)? {
            Says::Bad => return Err(ScriptFault::BadLine { line: number }),
            Says::Nothing => {}
            Says::Asks { words, command } => found.push(Line {
                number,
                words,
                command,
            })?,
        }
    }
    Ok(found)
}

/// What a line is, by its bytes.
fn read_line(alloc: Global, line: &[u8]) -> Result<Says, NoMemory>
    ensures { IfOk result (λ says. says ≡ line_says line.now) }
{
    let text = without_return(line);
    if !are_line_bytes(text) {
        return Ok(Says::Bad);
    }
    let words = split_words(alloc, text)?;
    read_words(alloc, words.as_slice())
}

/// A line without the carriage return at its end, if it has one.
fn without_return(line: &[u8]) -> &[u8]
    ensures { result.now ≡ without_return line.now }
{
    match line.split_last() {
        Some((b'\r', text)) => text,
        _ => line,
    }
}

fn are_line_bytes(text: &[u8]) -> bool
    ensures { result ≡ list_all is_line_byte text.now }
{
    text.iter().all(|byte| is_line_byte(*byte))
}

/// Whether a byte may stand in a line.
fn is_line_byte(byte: u8) -> bool
    ensures { result ≡ is_line_byte byte }
{
    (32..=126).contains(&byte) || byte == b'\t'
}

/// Whether a byte stands between words.
fn is_blank(byte: u8) -> bool
    ensures { result ≡ is_blank byte }
{
    byte == b' ' || byte == b'\t'
}

/// Whether bytes between two blanks are a word.
fn is_some_word(bytes: &[u8]) -> bool
    ensures { result ≡ is_some_word bytes.now }
{
    match bytes {
        [] => false,
        [_, ..] => true,
    }
}

/// The words of a line.
fn split_words(alloc: Global, text: &[u8]) -> Result<Vec<&[u8]>, AllocError>
    ensures { IfOk result (λ found. texts found.items ≡ words_in text.now) }
{
    text.split(|byte| is_blank(*byte))
        .filter(|word| is_some_word(word))
        .collect(alloc)
}

/// What a line is, by its words.
fn read_words(alloc: Global, words: &[&[u8]]) -> Result<Says, NoMemory>
    ensures { IfOk result (λ says. says ≡ words_say (texts words.now)) }
{
    match words {
        [] => Ok(Says::Nothing),
        [first, ..] => {
            if is_comment(first) {
                return Ok(Says::Nothing);
            }
            match read_command(alloc, words)? {
                None => Ok(Says::Bad),
                Some(command) => Ok(Says::Asks {
                    words: copied(alloc, words)?,
                    command,
                }),
            }
        }
    }
}

/// Whether a line whose first word this is is a comment.
fn is_comment(first: &[u8]) -> bool
    ensures { result ≡ (slice_index first.now 0 == 35) }
{
    first.first() == Some(&b'#')
}

/// Words of their own.
fn copied(alloc: Global, words: &[&[u8]]) -> Result<List<List<u8>>, NoMemory>
    ensures { IfOk result (λ found. found ≡ texts words.now) }
{
    let mut found = List::new(alloc);
    for word in words {
        found.push(List::from_slice(alloc, word)?)?;
    }
    Ok(found)
}
