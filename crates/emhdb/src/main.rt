//! The program `emhdb`: runs a script of commands over the files of the current folder.
#![tactic(auto)]

ghost use Rattle.std.specs.Prelude.{◌≡◌, ◌≤◌, IfOk};
ghost use Rattle.std.specs.IoError.{error_kind};

use emh_base::NoMemory;
use emh_io::{FileShelf, OutSink};
use emh_session::Observer;
use emh_shell::run;
use std::io::ErrorKind;
use std::process::ExitCode;
use std::rt::Runtime;
use std::{env, io};
use watch_kit::{FanoutLimit, Restless, Snap, Sweep};

/// The status where the words of the command line aren't text.
const NO_WORDS: u8 = 2;

/// The status where no memory is found.
const NO_MEMORY: u8 = 5;

/// Runs the script that the command line names over the real files and standard output, and ends with its status.
/// It ends with 2 where a word of the command line isn't UTF-8 and with 5 where no memory is found for the words or the
/// files, and prints nothing then.
fn main(rt: HostRuntime) -> ExitCode {
    ExitCode::from(status(&rt))
}

/// The status of the run that the command line asks for.
fn status<R: Runtime + AllocGlobal>(rt: &R) -> u8
    ensures { result ≤ 5 }
{
    match words(rt) {
        Ok(words) => status_of(rt, words.as_slice()),
        Err(error) => status_without_words(&error),
    }
}

/// The words of the command line behind the program's name.
fn words<R: Runtime + AllocGlobal>(rt: &R) -> io::Result<Vec<String>> {
    let mut words = env::args(rt)?;
    words.next();
    Ok(words.collect(rt.alloc())?)
}

/// The status of a run of these words.
fn status_of<R: Runtime + AllocGlobal>(rt: &R, words: &[String]) -> u8
    ensures { result ≤ 5 }
{
    match run_over_files(rt, words) {
        Ok(status) => status,
        Err(NoMemory) => NO_MEMORY,
    }
}

/// Runs these words over the real files and standard output, with the observers that a script may enable in the order
/// in which they are told.
///
/// # Errors
///
/// [`NoMemory`] where no memory is found for the files or the observers; nothing has been printed then.
fn run_over_files<R: Runtime + AllocGlobal>(rt: &R, words: &[String]) -> Result<u8, NoMemory>
    ensures statuses { IfOk result (λ status. status ≤ 5) }
{
    let Ok(files) = rt.clone() else {
        return Err(NoMemory);
    };
    let alloc = rt.alloc();
    let sweep: Box<dyn Observer> = Box::new(alloc, Sweep::new(alloc))?;
    let fanout: Box<dyn Observer> = Box::new(alloc, FanoutLimit::new(alloc))?;
    let snap: Box<dyn Observer> = Box::new(alloc, Snap::new(alloc))?;
    let restless: Box<dyn Observer> = Box::new(alloc, Restless::new(alloc))?;
    let watch = [sweep, fanout, snap, restless];
    let mut shelf = FileShelf::new(alloc, files);
    let mut out = OutSink::new(io::writer(rt));
    Ok(run(alloc, words, &mut shelf, &mut out, &watch))
}

/// The status where the words can't be had.
fn status_without_words(error: &io::Error) -> u8
    ensures memory { error_kind error.now ≡ ErrorKind.OutOfMemory → result ≡ 5 }
    ensures text { ¬ error_kind error.now ≡ ErrorKind.OutOfMemory → result ≡ 2 }
    ensures statuses { result ≤ 5 }
{
    match error.kind() {
        ErrorKind::OutOfMemory => NO_MEMORY,
        _ => NO_WORDS,
    }
}
