//! What a line of a script prints first.
ghost use Rattle.std.specs.Prelude.{◌≡◌, ◌++◌, IfOk};
ghost use Rattle.emh_shell.specs.Printing.{ok_line, edit_line, refused_line, word_object, number_object, module_object, place_object, text_object, fault_line};

use emh_base::{List, Name, NoMemory, push_number, push_spelled};
use script_read::ScriptFault;
use std::alloc::Global;
use word_table::cause_name;

/// `ok LINE`, for an accepted command.
pub fn ok_line(alloc: Global, number: u32) -> Result<List<u8>, NoMemory>
    ensures { IfOk result (λ text. text ≡ ok_line number) }
{
    let mut text = List::from_slice(alloc, b"ok ")?;
    push_number(&mut text, u64::from(number))?;
    text.push(b'\n')?;
    Ok(text)
}

/// `ok LINE K`, for an accepted edit, to which observers added so many.
pub fn edit_line(alloc: Global, number: u32, added: u32) -> Result<List<u8>, NoMemory>
    ensures { IfOk result (λ text. text ≡ edit_line number added) }
{
    let mut text = List::from_slice(alloc, b"ok ")?;
    push_number(&mut text, u64::from(number))?;
    text.push(b' ')?;
    push_number(&mut text, u64::from(added))?;
    text.push(b'\n')?;
    Ok(text)
}

/// `refused LINE CODE NAME OBJECT`, for a command that is refused by a cause of that code, because of that object.
pub fn refused_line(
    alloc: Global,
    number: u32,
    code: u32,
    object: &[u8],
) -> Result<List<u8>, NoMemory>
    ensures { IfOk result (λ text. text ≡ refused_line number code object.now) }
{
    let mut text = List::from_slice(alloc, b"refused ")?;
    push_number(&mut text, u64::from(number))?;
    text.push(b' ')?;
    push_number(&mut text, u64::from(code))?;
    text.push(b' ')?;
    text.extend(cause_name(code))?;
    text.push(b' ')?;
    text.extend(object)?;
    text.push(b'\n')?;
    Ok(text)
}

/// A word of the line.
pub fn word_object(alloc: Global, word: &[u8]) -> Result<List<u8>, NoMemory>
    ensures { IfOk result (λ text. text ≡ word_object word.now) }
{
    let mut text = List::from_slice(alloc, b"word ")?;
    text.extend(word)?;
    Ok(text)
}

pub fn number_object(alloc: Global, number: u32) -> Result<List<u8>, NoMemory>
    ensures { IfOk result (λ text. text ≡ number_object number) }
{
    let mut text = List::from_slice(alloc, b"number ")?;
    push_number(&mut text, u64::from(number))?;
    Ok(text)
}

/// A module, by its name.
pub fn module_object(alloc: Global, name: &Name) -> Result<List<u8>, NoMemory>
    ensures { IfOk result (λ text. text ≡ module_object name.now) }
{
    let mut text = List::from_slice(alloc, b"module ")?;
    push_spelled(&mut text, name)?;
    Ok(text)
}

/// A place of a file, by its byte counted from 0.
pub fn place_object(alloc: Global, at: u32) -> Result<List<u8>, NoMemory>
    ensures { IfOk result (λ text. text ≡ place_object at) }
{
    let mut text = List::from_slice(alloc, b"at ")?;
    push_number(&mut text, u64::from(at))?;
    Ok(text)
}

/// A place of a file, and what stands there.
pub fn text_object(alloc: Global, at: u32, there: &[u8]) -> Result<List<u8>, NoMemory>
    ensures { IfOk result (λ text. text ≡ text_object at there.now) }
{
    let mut text = place_object(alloc, at)?;
    text.push(b' ')?;
    text.extend(there)?;
    Ok(text)
}

/// The line that names the first bad line of a script.
pub fn bad_line(alloc: Global, line: u32) -> Result<List<u8>, NoMemory>
    ensures { IfOk result (λ text. text ≡ fault_line (ScriptFault.BadLine line)) }
{
    let mut text = List::from_slice(alloc, b"bad line ")?;
    push_number(&mut text, u64::from(line))?;
    text.push(b'\n')?;
    Ok(text)
}
