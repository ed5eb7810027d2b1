//! The sections of a case file: a line that begins with `> `, and the lines below it up to the next.
ghost use Rattle.std.specs.Prelude.{◌<◌, ◌≤◌, length, IfSome};

/// A section of a case file.
#[derive(Clone, Copy, Debug)]
pub struct Section<'a> {
    /// The number of its first line, counted from 1.
    pub line: u64,
    /// What stands in its first line behind the `> `.
    pub head: &'a [u8],
    /// The lines below, each with its newline.
    pub body: &'a [u8],
}

/// The sections of a text that are still to come.
#[derive(Clone, Copy, Debug)]
pub struct Sections<'a> {
    pub rest: &'a [u8],
    pub line: u64,
}

impl<'a> Sections<'a> {
    /// All sections of a text. What stands before the first one is prose.
    pub fn new(text: &'a [u8]) -> Sections<'a> {
        let (prose, rest) = text.split_at(body_len(text));
        Sections {
            rest,
            line: line_count(prose).saturating_add(1),
        }
    }

    /// The next section.
    pub fn next(&mut self) -> Option<Section<'a>>
        ensures { IfSome result (λ _. length self.new.rest.now < length self.old.rest.now) }
    {
        if self.rest.is_empty() {
            return None;
        }
        let (first, below) = self.rest.split_at(line_len(self.rest));
        let (body, rest) = below.split_at(body_len(below));
        let line = self.line;
        self.rest = rest;
        self.line = line.saturating_add(line_count(body)).saturating_add(1);
        Some(Section {
            line,
            head: head_of(first),
            body,
        })
    }
}

/// A section's first line without the `> ` and the newline.
fn head_of(first: &[u8]) -> &[u8] {
    let head = first.strip_prefix(b"> ").unwrap_or(first);
    head.strip_suffix(b"\n").unwrap_or(head)
}

/// The length of a text's first line, with its newline.
fn line_len(text: &[u8]) -> usize
    ensures within { result ≤ length text.now }
    ensures some { 0 < length text.now → 0 < result }
{
    match text.iter().position(|byte| *byte == b'\n') {
        Some(at) => at + 1,
        None => text.len(),
    }
}

/// The length of the lines before the first that begins a section.
fn body_len(text: &[u8]) -> usize
    ensures { result ≤ length text.now }
{
    let mut at = 0;
    while at < text.len() && !text[at..].starts_with(b"> ") {
        at += line_len(&text[at..]);
    }
    at
}

fn line_count(text: &[u8]) -> u64 {
    text.iter().filter(|byte| **byte == b'\n').count() as u64
}
