ghost use Rattle.std.specs.Prelude.{◌≡◌, ◌≤◌, map, length, IsTrue, string_bytes};
ghost use Rattle.emh_shell.specs.Answers.{watched};
ghost use Rattle.emh_io.specs.Held.{files_of, are_distinct};
ghost use Rattle.cases.specs.Compared.{is_held, are_held, with_files, IsTrueOf};

use crate::verdict::{Verdict, compare};
use emh_base::List;
use emh_io::{Held, MemShelf, MemSink};
use emh_session::Observer;
use emh_shell::{each_session_once, run};
use std::alloc::Global;

/// What fails in a run: which fetches, puts and stores, the first one first, and how many bytes a put
/// takes at most.
#[derive(Debug, Drop)]
pub struct Faults {
    pub fetches: List<bool>,
    pub puts: List<bool>,
    pub stores: List<bool>,
    pub most: u32,
}

/// What a script is to print, the status it is to end with, and files as they are to be afterwards.
#[derive(Debug, Drop)]
pub struct Wanted<'a> {
    pub text: &'a [u8],
    pub status: u8,
    pub files: List<Held>,
}

/// Runs a script over files, with observers, and says whether it prints the wanted text, ends with
/// the wanted status and leaves the wanted files.
pub fn try_case(
    alloc: Global,
    files: List<Held>,
    words: &[String],
    faults: Faults,
    wanted: &Wanted<'_>,
    watch: &[Box<dyn Observer>],
) -> Verdict
    requires distinct { IsTrue (are_distinct (files_of files)) }
    requires most { 1 ≤ faults.most }
    requires few { length watch.now ≤ 64 }
    ensures { IsTrueOf (watched (λ b. called b) (λ b. wants b) watch.now)
        (files_of files) (map string_bytes words.now)
        wanted.now.text.now wanted.now.status wanted.now.files result }
{
    each_session_once();
    let mut shelf = MemShelf::new(alloc, files, faults.fetches, faults.stores);
    let mut out = MemSink::new(alloc, faults.most, faults.puts);
    let status = run(alloc, words, &mut shelf, &mut out, watch);
    let verdict = compare(wanted.text, wanted.status, out.bytes(), status);
    with_files(verdict, are_held(&shelf, wanted.files.as_slice()), status)
}

/// What is said of a case once its files are looked at too, whether they are as they were to be.
fn with_files(verdict: Verdict, held: bool, status: u8) -> Verdict
    ensures { result ≡ with_files verdict held status }
{
    match verdict {
        Verdict::Passed => {
            if held {
                Verdict::Passed
            } else {
                Verdict::OtherFiles { status }
            }
        }
        Verdict::OtherText { .. } => verdict,
        Verdict::OtherStatus { .. } => verdict,
        Verdict::OtherFiles { .. } => verdict,
    }
}

/// Whether a shelf holds each of these files as it stands.
fn are_held(shelf: &MemShelf, files: &[Held]) -> bool
    ensures { result ≡ are_held shelf.now.files files.now }
{
    files.iter().all(|file| is_held(shelf, file))
}

fn is_held(shelf: &MemShelf, file: &Held) -> bool
    ensures { result ≡ is_held shelf.now.files file.now }
{
    match shelf.held(file.name.as_slice()) {
        Some(bytes) => bytes == file.bytes.as_slice(),
        None => false,
    }
}
