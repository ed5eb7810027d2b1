//! A case as it is read, section by section.
ghost use Rattle.std.specs.Prelude.{◌≤◌, IfOk};

use crate::fault::CaseFault;
use crate::head::{Head, read_head};
use crate::marks::unmarked;
use crate::section::Section;
use crate::trying::{Faults, Wanted};
use emh_base::List;
use emh_io::Held;
use std::alloc::{AllocError, Global};

/// A file of a case.
#[derive(Clone, Copy, Debug)]
pub struct File<'a> {
    name: &'a str,
    text: &'a [u8],
    has_marks: bool,
}

impl<'a> File<'a> {
    fn new(name: &'a str, text: &'a [u8], has_marks: bool) -> File<'a> {
        File {
            name,
            text,
            has_marks,
        }
    }

    fn bytes(&self, alloc: Global) -> Result<List<u8>, CaseFault> {
        if self.has_marks {
            return unmarked(alloc, self.text);
        }
        Ok(List::from_slice(alloc, self.text)?)
    }
}

/// What a case has so far.
#[derive(Drop)]
pub struct Case<'a> {
    alloc: Global,
    files: Vec<File<'a>>,
    after: Vec<File<'a>>,
    prints: &'a [u8],
    /// The number of the first line in the case file of what is to be printed.
    pub prints_line: u64,
    words: Option<&'a str>,
    most: Option<u32>,
    fails_fetch: u16,
    fails_put: u16,
    fails_store: u16,
}

impl<'a> Case<'a> {
    /// A case of no files, which prints nothing.
    pub fn new(alloc: Global) -> Case<'a> {
        Case {
            alloc,
            files: Vec::new(alloc),
            after: Vec::new(alloc),
            prints: b"",
            prints_line: 0,
            words: None,
            most: None,
            fails_fetch: 0,
            fails_put: 0,
            fails_store: 0,
        }
    }

    /// Begins the next case of a case file: its files are those so far.
    pub fn go_on(&mut self) {
        self.prints = b"";
        self.after.clear();
        self.words = None;
        self.most = None;
        self.fails_fetch = 0;
        self.fails_put = 0;
        self.fails_store = 0;
    }

    /// Takes a section, and answers the status where it ends the case.
    pub fn take(&mut self, section: Section<'a>) -> Result<Option<u8>, CaseFault> {
        match read_head(section.head).ok_or(CaseFault::NoSection)? {
            Head::File(name) => put(&mut self.files, File::new(name, section.body, false))?,
            Head::Bytes(name) => put(&mut self.files, File::new(name, section.body, true))?,
            Head::After(name) => put(&mut self.after, File::new(name, section.body, false))?,
            Head::Prints => {
                self.prints = section.body;
                self.prints_line = section.line.saturating_add(1);
            }
            Head::Words(words) => self.words = Some(words),
            Head::Takes(most) => self.most = Some(most),
            Head::FailsFetch(number) => self.fails_fetch = number,
            Head::FailsPut(number) => self.fails_put = number,
            Head::FailsStore(number) => self.fails_store = number,
            Head::Status(status) => return Ok(Some(status)),
        }
        Ok(None)
    }

    /// The files, for a shelf.
    pub fn files(&self) -> Result<List<Held>, CaseFault> {
        held_of(self.alloc, self.files.as_slice())
    }

    /// What is wanted of the case, which is to end with that status.
    pub fn wanted(&self, status: u8) -> Result<Wanted<'a>, CaseFault> {
        Ok(Wanted {
            text: self.prints,
            status,
            files: held_of(self.alloc, self.after.as_slice())?,
        })
    }

    /// The words of the command line: `script`, where the case has none.
    pub fn words(&self) -> Result<Vec<String>, AllocError> {
        let mut words = Vec::new(self.alloc);
        for word in self.words.unwrap_or("script").split(' ') {
            if !word.is_empty() {
                words.push(String::from_str(self.alloc, word)?)?;
            }
        }
        Ok(words)
    }

    /// What fails.
    pub fn faults(&self) -> Result<Faults, CaseFault>
        ensures { IfOk result (λ faults. 1 ≤ faults.most) }
    {
        Ok(Faults {
            fetches: plan_of(self.alloc, self.fails_fetch)?,
            puts: plan_of(self.alloc, self.fails_put)?,
            stores: plan_of(self.alloc, self.fails_store)?,
            most: self.most.filter(|most| *most > 0).unwrap_or(4096),
        })
    }
}

/// Puts a file among files, in place of one of its name.
fn put<'a>(files: &mut Vec<File<'a>>, file: File<'a>) -> Result<(), AllocError> {
    match files.iter().position(|one| one.name == file.name) {
        Some(at) => files[at] = file,
        None => files.push(file)?,
    }
    Ok(())
}

fn held_of(alloc: Global, files: &[File<'_>]) -> Result<List<Held>, CaseFault> {
    let mut held = List::new(alloc);
    for file in files {
        held.push(Held {
            name: List::from_slice(alloc, file.name.as_bytes())?,
            bytes: file.bytes(alloc)?,
        })?;
    }
    Ok(held)
}

/// A plan in which one call fails, counted from 1, or none at 0.
fn plan_of(alloc: Global, number: u16) -> Result<List<bool>, CaseFault> {
    let mut plan = List::new(alloc);
    for at in 1..=number {
        plan.push(at == number)?;
    }
    Ok(plan)
}
