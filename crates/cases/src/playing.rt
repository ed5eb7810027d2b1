//! A case file, played from its first section to its last.
ghost use Rattle.std.specs.Prelude.{◌≤◌, IsTrue};
ghost use Rattle.emh_io.specs.Held.{files_of, are_distinct};

use crate::case::Case;
use crate::fault::CaseFault;
use crate::section::Sections;
use crate::tally::Tally;
use crate::trying::{Faults, Wanted, try_case};
use crate::verdict::Verdict;
use emh_base::{List, NoMemory};
use emh_io::{Held, are_distinct};
use emh_session::Observer;
use std::alloc::Global;
use std::io;
use std::io::ErrorKind;
use std::rt::Runtime;
use watch_kit::{FanoutLimit, Restless, Snap, Sweep};

/// Plays the cases of a text, prints a line for each that differs, and counts them.
pub fn play_cases<R: Runtime + AllocGlobal>(
    rt: &R,
    path: &str,
    text: &[u8],
    tally: &mut Tally,
) -> io::Result<()> {
    let mut sections = Sections::new(text);
    let mut case = Case::new(rt.alloc());
    while let Some(section) = sections.next() {
        match case.take(section) {
            Ok(None) => {}
            Ok(Some(status)) => {
                let verdict = play_case(rt.alloc(), &case, status);
                tell(rt, path, section.line, &case, verdict, tally)?;
                case.go_on();
            }
            Err(fault) => return tell(rt, path, section.line, &case, Err(fault), tally),
        }
    }
    Ok(())
}

fn play_case(alloc: Global, case: &Case<'_>, status: u8) -> Result<Verdict, CaseFault> {
    let files = case.files()?;
    if !are_distinct(files.as_slice()) {
        return Err(CaseFault::NoSection);
    }
    let words = case.words()?;
    let faults = case.faults()?;
    let wanted = case.wanted(status)?;
    Ok(try_watched(alloc, files, words.as_slice(), faults, &wanted)?)
}

/// Tries a case with the observers of the program.
fn try_watched(
    alloc: Global,
    files: List<Held>,
    words: &[String],
    faults: Faults,
    wanted: &Wanted<'_>,
) -> Result<Verdict, NoMemory>
    requires distinct { IsTrue (are_distinct (files_of files)) }
    requires most { 1 ≤ faults.most }
{
    let sweep: Box<dyn Observer> = Box::new(alloc, Sweep::new(alloc))?;
    let fanout: Box<dyn Observer> = Box::new(alloc, FanoutLimit::new(alloc))?;
    let snap: Box<dyn Observer> = Box::new(alloc, Snap::new(alloc))?;
    let restless: Box<dyn Observer> = Box::new(alloc, Restless::new(alloc))?;
    let watch = [sweep, fanout, snap, restless];
    Ok(try_case(alloc, files, words, faults, wanted, &watch))
}

/// Counts a case, and prints where it differs. The place is a line of the case file.
fn tell<R: Runtime + AllocGlobal>(
    rt: &R,
    path: &str,
    line: u64,
    case: &Case<'_>,
    verdict: Result<Verdict, CaseFault>,
    tally: &mut Tally,
) -> io::Result<()> {
    match verdict {
        Ok(Verdict::Passed) => {
            tally.add_passed();
            return Ok(());
        }
        Ok(Verdict::OtherText { lines, status }) => {
            let line = case.prints_line.saturating_add(lines as u64);
            println!(rt;
                "{path}:{line}: from here on something else is printed; it ends with {status}"
            )?;
        }
        Ok(Verdict::OtherStatus { status }) => {
            println!(rt; "{path}:{line}: it ends with {status}")?;
        }
        Ok(Verdict::OtherFiles { status }) => {
            println!(rt; "{path}:{line}: a file is another one afterwards; it ends with {status}")?;
        }
        Err(CaseFault::NoSection) => {
            println!(rt; "{path}:{line}: no section begins so, or it has a mark that there isn't")?;
        }
        Err(CaseFault::NoMemory) => return Err(io::Error::from(ErrorKind::OutOfMemory)),
    }
    tally.add_differing();
    Ok(())
}
