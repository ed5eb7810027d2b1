ghost use Rattle.std.specs.Prelude.{◌≡◌, ℕ, ◌+◌, ◌^◌, ◌<◌, ◌==◌, ◌||◌, [], ◌∷◌, ◌++◌, length, take, OnOk, OnErr};
ghost use Rattle.std.specs.Fmt.{decimal};
ghost use Rattle.emh_base.specs.Text.{is_special, marked, spell, index_text};

use crate::list::List;
use crate::memory::NoMemory;
use crate::name::Name;
use crate::plain::{Dir, Range};

/// Puts the spelled text of a name last: a `\` stands before each `/`, `[`, `]`, `.` and `\`, and before a `=` that is
/// its first byte. This project's own. After want of memory the text is as before.
pub fn push_spelled(out: &mut List<u8>, name: &Name) -> Result<(), NoMemory>
    ensures ok { OnOk result (out.new ≡ out.old ++ spell name.now) }
    ensures err { OnErr result (out.new ≡ out.old) }
{
    let before = out.len();
    let pushed = push_spelled_bytes(out, name.as_bytes());
    if pushed.is_err() {
        out.truncate(before);
    }
    pushed
}

/// Puts the spelled text of the bytes of a name last. After want of memory a part of the text may stand there.
pub fn push_spelled_bytes(out: &mut List<u8>, name: &[u8]) -> Result<(), NoMemory>
    ensures ok { OnOk result (out.new ≡ out.old ++ spell name.now) }
    ensures err { OnErr result (take (length out.old) out.new ≡ out.old) }
{
    match name {
        [] => Ok(()),
        [first, others @ ..] => {
            push_marked(out, is_special(*first) || *first == b'=', *first)?;
            for byte in others {
                push_marked(out, is_special(*byte), *byte)?;
            }
            Ok(())
        }
    }
}

/// Puts the index of a bit in brackets last, by its offset from the left of its net's range; nothing without a range.
/// After want of memory the text is as before.
pub fn push_index(out: &mut List<u8>, range: Option<Range>, offset: u16) -> Result<(), NoMemory>
    ensures ok { OnOk result (out.new ≡ out.old ++ index_text range offset) }
    ensures err { OnErr result (out.new ≡ out.old) }
{
    match range {
        None => Ok(()),
        Some(range) => {
            let before = out.len();
            let pushed = push_bracketed(out, range.index_at(offset));
            if pushed.is_err() {
                out.truncate(before);
            }
            pushed
        }
    }
}

/// After want of memory a part of the text may stand there.
fn push_bracketed(out: &mut List<u8>, index: u64) -> Result<(), NoMemory>
    ensures ok { OnOk result (out.new ≡ out.old ++ 91 ∷ decimal index ++ 93 ∷ []) }
    ensures err { OnErr result (take (length out.old) out.new ≡ out.old) }
{
    out.push(b'[')?;
    push_number(out, index)?;
    out.push(b']')
}

impl Range {
    ghost use Rattle.emh_base.specs.Text.{index_of};

    /// The index of the bit at an offset from the left.
    fn index_at(self, offset: u16) -> u64
        ensures { result ≡ index_of self offset }
    {
        if self.right < self.left {
            u64::from(self.left.saturating_sub(u32::from(offset)))
        } else {
            u64::from(self.left) + u64::from(offset)
        }
    }
}

impl Dir {
    ghost use Rattle.emh_base.specs.Text.{dir_text};

    /// The word for the direction, as netlists, scripts and reports write it.
    pub fn word(self) -> &'static [u8]
        ensures { result.now ≡ dir_text self }
    {
        match self {
            Dir::Input => b"input",
            Dir::Output => b"output",
            Dir::Inout => b"inout",
        }
    }
}

/// Whether a byte is one that is marked wherever it stands in a name.
pub fn is_special(byte: u8) -> bool
    ensures { result ≡ is_special byte }
{
    byte == b'/' || byte == b'[' || byte == b']' || byte == b'.' || byte == b'\\'
}

fn push_marked(out: &mut List<u8>, mark: bool, byte: u8) -> Result<(), NoMemory>
    ensures ok { OnOk result (out.new ≡ out.old ++ marked mark byte) }
    ensures err { OnErr result (out.new ≡ out.old) }
{
    if mark {
        out.extend(&[b'\\', byte])
    } else {
        out.push(byte)
    }
}

/// Puts a number last, in decimal without leading zeros. After want of memory the text is as before.
pub fn push_number(out: &mut List<u8>, number: u64) -> Result<(), NoMemory>
    ensures ok { OnOk result (out.new ≡ out.old ++ decimal number) }
    ensures err { OnErr result (out.new ≡ out.old) }
{
    let digits = number.to_string(out.alloc())?;
    out.extend(digits.as_bytes())
}
