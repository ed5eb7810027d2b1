//! Files that aren't plain text, by marks: `\n` is a newline, `\\` a backslash, `\xHH` the byte of
//! two lower-case hexadecimal digits, and `\*COUNT*` stands before a byte that comes so many times.
//! The file's own newlines don't count.
ghost use Rattle.std.specs.Prelude.{◌<◌, length, IfSome};

use crate::fault::CaseFault;
use emh_base::List;
use std::alloc::Global;
use std::str::from_utf8;

/// A byte, how many times it comes, and what stands behind it.
#[derive(Clone, Copy, Debug)]
struct Taken<'a> {
    byte: u8,
    times: u32,
    rest: &'a [u8],
}

/// The bytes that a text with marks stands for.
pub fn unmarked(alloc: Global, text: &[u8]) -> Result<List<u8>, CaseFault> {
    let mut bytes = List::new(alloc);
    let mut rest = text;
    while !rest.is_empty() {
        let taken = take(rest).ok_or(CaseFault::NoSection)?;
        push_times(&mut bytes, taken.byte, taken.times)?;
        rest = taken.rest;
    }
    Ok(bytes)
}

fn push_times(bytes: &mut List<u8>, byte: u8, times: u32) -> Result<(), CaseFault> {
    for _ in 0..times {
        bytes.push(byte)?;
    }
    Ok(())
}

/// Takes the first byte, which may be told by marks. A newline comes no times.
fn take(text: &[u8]) -> Option<Taken<'_>>
    ensures { IfSome result (λ taken. length taken.rest.now < length text.now) }
{
    match text {
        [b'\\', b'*', rest @ ..] => take_times(rest),
        [b'\n', rest @ ..] => Some(Taken {
            byte: b'\n',
            times: 0,
            rest,
        }),
        _ => take_byte(text, 1),
    }
}

/// Takes a count that ends with a star, and the byte behind it.
fn take_times(text: &[u8]) -> Option<Taken<'_>>
    ensures { IfSome result (λ taken. length taken.rest.now < length text.now) }
{
    let star = text.iter().position(|byte| *byte == b'*')?;
    let times = from_utf8(&text[..star]).ok()?.parse::<u32>().ok()?;
    take_byte(&text[star + 1..], times)
}

/// Takes a byte that stands for itself, or behind a backslash.
fn take_byte(text: &[u8], times: u32) -> Option<Taken<'_>>
    ensures { IfSome result (λ taken. length taken.rest.now < length text.now) }
{
    let (byte, rest) = match text {
        [b'\\', b'n', rest @ ..] => (b'\n', rest),
        [b'\\', b'\\', rest @ ..] => (b'\\', rest),
        [b'\\', b'x', high, low, rest @ ..] => (digit(*high)? * 16 + digit(*low)?, rest),
        [b'\\', ..] => return None,
        [byte, rest @ ..] => (*byte, rest),
        [] => return None,
    };
    Some(Taken { byte, times, rest })
}

fn digit(byte: u8) -> Option<u8>
    ensures { IfSome result (λ value. value < 16) }
{
    match byte {
        b'0'..=b'9' => Some(byte - b'0'),
        b'a'..=b'f' => Some(byte - b'a' + 10),
        _ => None,
    }
}
