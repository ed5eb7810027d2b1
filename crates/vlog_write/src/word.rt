ghost use Rattle.std.specs.Prelude.{◌≡◌, ◌++◌, ◌&&◌, slice_index, OnOk};
ghost use Rattle.std.specs.List.{list_all};
ghost use Rattle.vlog_lex.specs.Byte.{begins_word, is_word_byte};
ghost use Rattle.vlog_write.specs.Word.{is_reserved, is_simple, name_text};
ghost use Rattle.vlog_write.specs.inside.Steps.{comma_before};

use emh_base::{List, NoMemory};
use word_table::reserved_words;

/// Puts a name last: as it is where it is a simple identifier and no reserved word, else between a backslash and a
/// space.
pub fn push_name(out: &mut List<u8>, name: &[u8]) -> Result<(), NoMemory>
    ensures { OnOk result (out.new ≡ out.old ++ name_text name.now) }
{
    if is_simple(name) {
        return out.extend(name);
    }
    out.push(b'\\')?;
    out.extend(name)?;
    out.push(b' ')
}

/// Puts a comma and a space last, but for the item at place 0 of a list.
pub fn push_comma(out: &mut List<u8>, at: usize) -> Result<(), NoMemory>
    ensures { OnOk result (out.new ≡ out.old ++ comma_before at) }
{
    if at == 0 { Ok(()) } else { out.extend(b", ") }
}

/// Whether a name is a simple identifier and no reserved word.
fn is_simple(name: &[u8]) -> bool
    ensures { result ≡ is_simple name.now }
{
    has_shape(name) && !is_reserved(name)
}

/// Whether a name begins as a word does, and has bytes of words alone.
fn has_shape(name: &[u8]) -> bool
    ensures { result ≡ (begins_word (slice_index name.now 0) && list_all is_word_byte name.now) }
{
    match name {
        [first, ..] => begins_word(*first) && are_word_bytes(name),
        [] => false,
    }
}

fn is_reserved(name: &[u8]) -> bool
    ensures { result ≡ is_reserved name.now }
{
    match reserved_words().find(name) {
        Some(_) => true,
        None => false,
    }
}

fn are_word_bytes(bytes: &[u8]) -> bool
    ensures { result ≡ list_all is_word_byte bytes.now }
{
    bytes.iter().all(|&byte| is_word_byte(byte))
}

fn begins_word(byte: u8) -> bool
    ensures { result ≡ begins_word byte }
{
    matches!(byte, b'A'..=b'Z' | b'a'..=b'z' | b'_')
}

fn is_word_byte(byte: u8) -> bool
    ensures { result ≡ is_word_byte byte }
{
    matches!(byte, b'A'..=b'Z' | b'a'..=b'z' | b'_' | b'0'..=b'9' | b'$')
}
