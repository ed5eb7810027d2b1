//! What a section's first line says.
use std::str::from_utf8;

/// What a section is.
#[derive(Clone, Copy, Debug)]
pub enum Head<'a> {
    /// A file of that name follows.
    File(&'a str),
    /// A file of that name follows, with marks.
    Bytes(&'a str),
    /// A file of that name follows, as it is to be after the run.
    After(&'a str),
    /// What is to be printed follows.
    Prints,
    /// The words of the command line.
    Words(&'a str),
    /// How many bytes a put takes at most.
    Takes(u32),
    /// The number of the fetch that fails, counted from 1.
    FailsFetch(u16),
    /// The number of the put that fails, counted from 1.
    FailsPut(u16),
    /// The number of the store that fails, counted from 1.
    FailsStore(u16),
    /// The status, behind which the case ends.
    Status(u8),
}

/// What a section's first line says, or none where no section begins so.
pub fn read_head(line: &[u8]) -> Option<Head<'_>> {
    let text = from_utf8(line).ok()?;
    let (word, rest) = text.split_once(' ').unwrap_or((text, ""));
    match word {
        "script" => rest.is_empty().then_some(Head::File("script")),
        "prints" => rest.is_empty().then_some(Head::Prints),
        "words" => Some(Head::Words(rest)),
        "file" => Some(Head::File(rest)),
        "bytes" => Some(Head::Bytes(rest)),
        "after" => Some(Head::After(rest)),
        "status" => Some(Head::Status(rest.parse::<u8>().ok()?)),
        "takes" => Some(Head::Takes(rest.parse::<u32>().ok().filter(|most| *most > 0)?)),
        "fails" => read_fails(rest),
        _ => None,
    }
}

fn read_fails(text: &str) -> Option<Head<'_>> {
    let (word, number) = text.split_once(' ')?;
    let number = number.parse::<u16>().ok().filter(|number| *number > 0)?;
    match word {
        "fetch" => Some(Head::FailsFetch(number)),
        "put" => Some(Head::FailsPut(number)),
        "store" => Some(Head::FailsStore(number)),
        _ => None,
    }
}
