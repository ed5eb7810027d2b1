ghost use Rattle.std.specs.Prelude.{◌≡◌, ◌-◌, ◌+◌, length, map, position, [], Some, None, IfOk, option_map, option_and_then, slice_index, take};
ghost use Rattle.std.specs.List.{list_all};
ghost use Rattle.emh_base.specs.Name.{is_name_byte};
ghost use Rattle.word_table.specs.Texts.{texts};
ghost use Rattle.script_read.specs.Word.{file_of, is_name, name_of, is_stop, is_mark, pieces, before_bracket, is_colon, pair_of, select_of, range_at, range_in, range_of, bits_in, net_word, bit_of, names_of, path_of, net_bit_in, net_bit_after, net_bit_of, dir_of, orient_of, status_of, number_of, range_between};

use crate::command::BitWord;
use crate::number::number_of;
use emh_base::{Dir, Kind, List, Name, NoMemory, Orient, Range, SpellFault, Status, unspell};
use std::alloc::{AllocError, Global};

/// The name that a word spells.
pub fn name_of(alloc: Global, word: &[u8]) -> Result<Option<Name>, NoMemory>
    ensures { IfOk result (λ name. name ≡ name_of word.now) }
{
    match unspell(alloc, word) {
        Ok(name) => Ok(Some(name)),
        Err(SpellFault::NotSpelled) => Ok(None),
        Err(SpellFault::NoMemory) => Err(NoMemory),
    }
}

/// The pieces of a text between the bytes `stop` that no `\` stands before.
fn pieces(alloc: Global, text: &[u8], stop: u8) -> Result<Vec<&[u8]>, AllocError>
    ensures { IfOk result (λ found. texts found.items ≡ pieces stop text.now) }
{
    let mut found = Vec::new(alloc);
    let mut from = 0;
    let mut marked = false;
    for (at, byte) in text.iter().enumerate() {
        if is_stop(stop, marked, *byte) {
            found.push(&text[from..at])?;
            from = at + 1;
            marked = false;
        } else {
            marked = is_mark(marked, *byte);
        }
    }
    found.push(&text[from..])?;
    Ok(found)
}

/// Whether a text is divided at a byte.
fn is_stop(stop: u8, marked: bool, byte: u8) -> bool
    ensures { result ≡ is_stop stop marked byte }
{
    !marked && byte == stop
}

/// Whether a byte marks the next one.
fn is_mark(marked: bool, byte: u8) -> bool
    ensures { result ≡ is_mark marked byte }
{
    !marked && byte == b'\\'
}

/// A text whose last byte is a `]`, without it.
fn before_bracket(text: &[u8]) -> Option<&[u8]>
    ensures { option_map (λ found. found.now) result ≡ before_bracket text.now }
{
    match text.split_last() {
        None => None,
        Some((last, front)) => { if *last == b']' { Some(front) } else { None } }
    }
}

/// The place of the first `:`.
fn colon_in(text: &[u8]) -> Option<usize>
    ensures { result ≡ position is_colon text.now }
{
    text.iter().position(|byte| *byte == b':')
}

/// Two numbers about the `:` at a place.
fn range_at(text: &[u8], at: usize) -> Option<Range>
    requires { position is_colon text.now ≡ Some at }
    ensures { result ≡ range_at text.now at }
{
    match (number_of(&text[..at]), number_of(&text[at + 1..])) {
        (Some(left), Some(right)) => Some(Range { left, right }),
        _ => None,
    }
}

/// Two numbers with a `:` between them.
fn pair_of(text: &[u8]) -> Option<Range>
    ensures { result ≡ pair_of text.now }
{
    match colon_in(text) {
        None => None,
        Some(at) => range_at(text, at),
    }
}

/// Two numbers with a `:` between them, or one, which stands for the range from it to itself.
fn select_of(text: &[u8]) -> Option<Range>
    ensures { result ≡ select_of text.now }
{
    match colon_in(text) {
        None => lone(number_of(text)),
        Some(at) => range_at(text, at),
    }
}

fn lone(number: Option<u32>) -> Option<Range>
    ensures { result ≡ option_map (λ number. record { left = number; right = number }) number }
{
    match number {
        None => None,
        Some(number) => Some(Range {
            left: number,
            right: number,
        }),
    }
}

/// A range in brackets: `[U:U]`.
pub fn range_of(alloc: Global, word: &[u8]) -> Result<Option<Range>, NoMemory>
    ensures { IfOk result (λ range. range ≡ range_of word.now) }
{
    let pieces = pieces(alloc, word, b'[')?;
    Ok(range_in(pieces.as_slice()))
}

fn range_in(pieces: &[&[u8]]) -> Option<Range>
    ensures { result ≡ range_in (texts pieces.now) }
{
    match pieces {
        [front, inside] => {
            if *front == b"".as_slice() {
                match before_bracket(inside) {
                    None => None,
                    Some(text) => pair_of(text),
                }
            } else {
                None
            }
        }
        _ => None,
    }
}

/// A source of a connection: `=0`, `=1`, or a net, with or without a select.
pub fn bit_of(alloc: Global, word: &[u8]) -> Result<Option<BitWord>, NoMemory>
    ensures { IfOk result (λ bit. bit ≡ bit_of word.now) }
{
    if word == b"=0".as_slice() {
        Ok(Some(BitWord::Zero))
    } else if word == b"=1".as_slice() {
        Ok(Some(BitWord::One))
    } else {
        let pieces = pieces(alloc, word, b'[')?;
        bits_in(alloc, pieces.as_slice())
    }
}

fn bits_in(alloc: Global, pieces: &[&[u8]]) -> Result<Option<BitWord>, NoMemory>
    ensures { IfOk result (λ bit. bit ≡ bits_in (texts pieces.now)) }
{
    match pieces {
        [net] => Ok(whole_net(name_of(alloc, net)?)),
        [net, inside] => {
            let net = name_of(alloc, net)?;
            Ok(net_word(net, select_in(inside)))
        }
        _ => Ok(None),
    }
}

fn whole_net(net: Option<Name>) -> Option<BitWord>
    ensures { result ≡ option_map (λ net. BitWord.Net net None) net }
{
    match net {
        None => None,
        Some(net) => Some(BitWord::Net { net, select: None }),
    }
}

fn select_in(inside: &[u8]) -> Option<Range>
    ensures { result ≡ option_and_then select_of (before_bracket inside.now) }
{
    match before_bracket(inside) {
        None => None,
        Some(text) => select_of(text),
    }
}

fn net_word(net: Option<Name>, select: Option<Range>) -> Option<BitWord>
    ensures { result ≡ net_word net select }
{
    match (net, select) {
        (Some(net), Some(select)) => Some(BitWord::Net {
            net,
            select: Some(select),
        }),
        _ => None,
    }
}

/// A path: names with a `/` between them, or a `/` alone.
pub fn path_of(alloc: Global, word: &[u8]) -> Result<Option<List<Name>>, NoMemory>
    ensures { IfOk result (λ path. path ≡ path_of word.now) }
{
    if word == b"/".as_slice() {
        Ok(Some(List::new(alloc)))
    } else {
        let pieces = pieces(alloc, word, b'/')?;
        names_of(alloc, pieces.as_slice())
    }
}

/// The names that words spell, if each of them spells one.
pub fn names_of(alloc: Global, words: &[&[u8]]) -> Result<Option<List<Name>>, NoMemory>
    ensures { IfOk result (λ names. names ≡ names_of (texts words.now)) }
{
    let mut names = List::new(alloc);
    for word in words {
        match name_of(alloc, word)? {
            None => return Ok(None),
            Some(name) => names.push(name)?,
        }
    }
    Ok(Some(names))
}

/// A direction.
pub fn dir_of(word: &[u8]) -> Option<Dir>
    ensures { result ≡ dir_of word.now }
{
    if word == b"input".as_slice() {
        Some(Dir::Input)
    } else if word == b"output".as_slice() {
        Some(Dir::Output)
    } else if word == b"inout".as_slice() {
        Some(Dir::Inout)
    } else {
        None
    }
}

/// One of the eight orientations.
#[tactic(auto, unfolding(crate::specs::Word::orient_of))]
pub fn orient_of(word: &[u8]) -> Option<Orient>
    ensures { result ≡ orient_of word.now }
{
    if word == b"R0".as_slice() {
        Some(Orient::R0)
    } else if word == b"R90".as_slice() {
        Some(Orient::R90)
    } else if word == b"R180".as_slice() {
        Some(Orient::R180)
    } else if word == b"R270".as_slice() {
        Some(Orient::R270)
    } else if word == b"MX".as_slice() {
        Some(Orient::MX)
    } else if word == b"MY".as_slice() {
        Some(Orient::MY)
    } else if word == b"MXR90".as_slice() {
        Some(Orient::MXR90)
    } else if word == b"MYR90".as_slice() {
        Some(Orient::MYR90)
    } else {
        None
    }
}

/// `Placed` or `Fixed`.
pub fn status_of(word: &[u8]) -> Option<Status>
    ensures { result ≡ status_of word.now }
{
    if word == b"Placed".as_slice() {
        Some(Status::Placed)
    } else if word == b"Fixed".as_slice() {
        Some(Status::Fixed)
    } else {
        None
    }
}

/// The bytes of a file's name: at most 1,024, taken as they are.
pub fn file_of(alloc: Global, word: &[u8]) -> Result<Option<List<u8>>, NoMemory>
    ensures { IfOk result (λ file. file ≡ file_of word.now) }
{
    if is_name(word) {
        Ok(Some(List::from_slice(alloc, word)?))
    } else {
        Ok(None)
    }
}

fn is_name(word: &[u8]) -> bool
    ensures { result ≡ is_name word.now }
{
    !word.is_empty() && word.len() <= 1024 && are_name_bytes(word)
}

fn are_name_bytes(word: &[u8]) -> bool
    ensures { result ≡ list_all is_name_byte word.now }
{
    word.iter().all(|byte| (33..=126).contains(byte))
}

/// A net bit at a path, which `report net` tells of.
pub fn net_bit_of(alloc: Global, word: &[u8]) -> Result<Option<Kind>, NoMemory>
    ensures { IfOk result (λ kind. kind ≡ net_bit_of word.now) }
{
    let pieces_of_path = pieces(alloc, word, b'/')?;
    net_bit_after(alloc, pieces_of_path.as_slice())
}

fn net_bit_after(alloc: Global, words: &[&[u8]]) -> Result<Option<Kind>, NoMemory>
    ensures { IfOk result (λ kind. kind ≡ net_bit_after [] (texts words.now)) }
{
    match words.split_last() {
        None => Ok(None),
        Some((last, front)) => {
            match names_of(alloc, front)? {
                None => Ok(None),
                Some(path) => {
                    let pieces_of_bit = pieces(alloc, last, b'[')?;
                    net_bit_in(alloc, path, pieces_of_bit.as_slice())
                }
            }
        }
    }
}

fn net_bit_in(alloc: Global, path: List<Name>, words: &[&[u8]]) -> Result<Option<Kind>, NoMemory>
    ensures { IfOk result (λ kind. kind ≡ net_bit_in path (texts words.now)) }
{
    match words {
        [net] => {
            let Some(net) = name_of(alloc, net)? else {
                return Ok(None);
            };
            Ok(Some(Kind::Net {
                path,
                net,
                index: None,
            }))
        }
        [net, inside] => {
            let Some(net) = name_of(alloc, net)? else {
                return Ok(None);
            };
            let Some(index) = index_in(inside) else {
                return Ok(None);
            };
            Ok(Some(Kind::Net {
                path,
                net,
                index: Some(index),
            }))
        }
        _ => Ok(None),
    }
}

fn index_in(inside: &[u8]) -> Option<u32>
    ensures { result ≡ option_and_then number_of (before_bracket inside.now) }
{
    match before_bracket(inside) {
        None => None,
        Some(text) => number_of(text),
    }
}
