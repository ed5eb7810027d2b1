//! The words of a line that is written, each behind a space.

ghost use Rattle.std.specs.Prelude.{◌≡◌, ℕ, ℤ, ◌∷◌, ◌++◌, List, codes, OnOk};
ghost use Rattle.std.specs.Fmt.{decimal, signed_decimal};
ghost use Rattle.emh_base.specs.Text.{dir_text, front_text, path_text, spell};
ghost use Rattle.script_read.specs.Text.{bit_text, index_text, net_bit_text, orient_text, range_text, select_text, status_text};
ghost use Rattle.script_read.specs.inside.Line.{bits_text, steps_text, tail_text};
ghost use Rattle.script_read.specs.Written.{range_words};

use crate::command::BitWord;
use emh_base::{Dir, List, Name, NoMemory, Orient, Range, Status, push_number, push_spelled};

/// Puts a word of these bytes last.
pub fn put_bytes(line: &mut List<u8>, word: &[u8]) -> Result<(), NoMemory>
    ensures { OnOk result (line.new ≡ line.old ++ 32 ∷ word.now) }
{
    line.push(b' ')?;
    line.extend(word)
}

pub fn put_name(line: &mut List<u8>, name: &Name) -> Result<(), NoMemory>
    ensures { OnOk result (line.new ≡ line.old ++ 32 ∷ spell name.now) }
{
    line.push(b' ')?;
    push_spelled(line, name)
}

pub fn put_number(line: &mut List<u8>, number: u32) -> Result<(), NoMemory>
    ensures { OnOk result (line.new ≡ line.old ++ 32 ∷ decimal number) }
{
    line.push(b' ')?;
    push_number(line, u64::from(number))
}

pub fn put_signed(line: &mut List<u8>, number: i32) -> Result<(), NoMemory>
    ensures { OnOk result (line.new ≡ line.old ++ 32 ∷ signed_decimal number) }
{
    let digits = number.to_string(line.alloc())?;
    put_bytes(line, digits.as_bytes())
}

pub fn put_dir(line: &mut List<u8>, dir: Dir) -> Result<(), NoMemory>
    ensures { OnOk result (line.new ≡ line.old ++ 32 ∷ dir_text dir) }
{
    put_bytes(line, dir.word())
}

pub fn put_orient(line: &mut List<u8>, orient: Orient) -> Result<(), NoMemory>
    ensures { OnOk result (line.new ≡ line.old ++ 32 ∷ orient_text orient) }
{
    put_bytes(line, orient_word(orient))
}

/// The word for how a block instance is turned.
pub fn orient_word(orient: Orient) -> &'static [u8]
    ensures { result.now ≡ orient_text orient }
{
    match orient {
        Orient::R0 => b"R0",
        Orient::R90 => b"R90",
        Orient::R180 => b"R180",
        Orient::R270 => b"R270",
        Orient::MX => b"MX",
        Orient::MY => b"MY",
        Orient::MXR90 => b"MXR90",
        Orient::MYR90 => b"MYR90",
    }
}

pub fn put_status(line: &mut List<u8>, status: Status) -> Result<(), NoMemory>
    ensures { OnOk result (line.new ≡ line.old ++ 32 ∷ status_text status) }
{
    put_bytes(line, status_word(status))
}

/// The word for whether a placed block instance may be moved.
pub fn status_word(status: Status) -> &'static [u8]
    ensures { result.now ≡ status_text status }
{
    match status {
        Status::Placed => b"Placed",
        Status::Fixed => b"Fixed",
    }
}

/// A range behind a space, or nothing.
pub fn put_maybe_range(line: &mut List<u8>, range: Option<Range>) -> Result<(), NoMemory>
    ensures { OnOk result (line.new ≡ line.old ++ tail_text (range_words range)) }
{
    match range {
        None => Ok(()),
        Some(range) => {
            line.push(b' ')?;
            push_range(line, range)
        }
    }
}

/// Puts `[left:right]` last.
fn push_range(line: &mut List<u8>, range: Range) -> Result<(), NoMemory>
    ensures { OnOk result (line.new ≡ line.old ++ range_text range) }
{
    line.push(b'[')?;
    push_number(line, u64::from(range.left))?;
    line.push(b':')?;
    push_number(line, u64::from(range.right))?;
    line.push(b']')
}

fn push_select(line: &mut List<u8>, select: Option<Range>) -> Result<(), NoMemory>
    ensures { OnOk result (line.new ≡ line.old ++ select_text select) }
{
    match select {
        None => Ok(()),
        Some(range) => push_range(line, range),
    }
}

/// Each source behind a space.
pub fn put_bits(line: &mut List<u8>, bits: &[BitWord]) -> Result<(), NoMemory>
    ensures { OnOk result (line.new ≡ line.old ++ bits_text bits.now) }
{
    for bit in bits {
        put_bit(line, bit)?;
    }
    Ok(())
}

fn put_bit(line: &mut List<u8>, bit: &BitWord) -> Result<(), NoMemory>
    ensures { OnOk result (line.new ≡ line.old ++ 32 ∷ bit_text bit.now) }
{
    match bit {
        BitWord::Zero => put_bytes(line, b"=0".as_slice()),
        BitWord::One => put_bytes(line, b"=1".as_slice()),
        BitWord::Net { net, select } => {
            put_name(line, net)?;
            push_select(line, *select)
        }
    }
}

/// A path behind a space.
pub fn put_path(line: &mut List<u8>, path: &List<Name>) -> Result<(), NoMemory>
    ensures { OnOk result (line.new ≡ line.old ++ 32 ∷ path_text path.now) }
{
    match path.as_slice().split_first() {
        None => put_bytes(line, b"/".as_slice()),
        Some((first, others)) => put_steps(line, first, others),
    }
}

/// A name behind a space, and each further one behind a `/`.
fn put_steps(line: &mut List<u8>, first: &Name, others: &[Name]) -> Result<(), NoMemory>
    ensures { OnOk result (line.new ≡ line.old ++ 32 ∷ (spell first.now ++ steps_text others.now)) }
{
    put_name(line, first)?;
    push_steps(line, others)
}

/// Each further name of a path behind a `/`.
fn push_steps(line: &mut List<u8>, names: &[Name]) -> Result<(), NoMemory>
    ensures { OnOk result (line.new ≡ line.old ++ steps_text names.now) }
{
    for name in names {
        line.push(b'/')?;
        push_spelled(line, name)?;
    }
    Ok(())
}

/// A net bit at a path behind a space.
pub fn put_net_bit(
    line: &mut List<u8>,
    path: &[Name],
    net: &Name,
    index: Option<u32>,
) -> Result<(), NoMemory>
    ensures { OnOk result (line.new ≡ line.old ++ 32 ∷ net_bit_text path.now net.now index) }
{
    line.push(b' ')?;
    push_front(line, path)?;
    push_spelled(line, net)?;
    push_index(line, index)
}

/// Each name of a path with a `/` behind it.
fn push_front(line: &mut List<u8>, path: &[Name]) -> Result<(), NoMemory>
    ensures { OnOk result (line.new ≡ line.old ++ front_text path.now) }
{
    for name in path {
        push_spelled(line, name)?;
        line.push(b'/')?;
    }
    Ok(())
}

fn push_index(line: &mut List<u8>, index: Option<u32>) -> Result<(), NoMemory>
    ensures { OnOk result (line.new ≡ line.old ++ index_text index) }
{
    match index {
        None => Ok(()),
        Some(index) => {
            line.push(b'[')?;
            push_number(line, u64::from(index))?;
            line.push(b']')
        }
    }
}
