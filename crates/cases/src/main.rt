//! The program `cases`: plays the case files of the folders that it is given, each of which holds
//! scripts over files with what they print, and says where a script prints something else.
#![tactic(auto)]

mod case;
mod fault;
mod head;
mod marks;
mod playing;
mod section;
mod tally;
mod trying;
mod verdict;

use playing::play_cases;
use std::process::ExitCode;
use std::rt::Runtime;
use std::{env, fs, io};
use tally::Tally;

/// The status where the case files can't be played: one can't be read, or memory is wanting.
const NOT_PLAYED: u8 = 2;

/// Plays the case files of each folder that the command line names. It prints a line for each case
/// that differs, and last how many passed and how many differ. It ends with 0 where none differs,
/// else with 1, and with 2 where a folder or a file of it can't be read.
fn main(rt: HostRuntime) -> ExitCode {
    match play_folders(&rt) {
        Ok(tally) => ExitCode::from(tally.status()),
        Err(_) => ExitCode::from(NOT_PLAYED),
    }
}

fn play_folders<R: Runtime + AllocGlobal>(rt: &R) -> io::Result<Tally> {
    let mut tally = Tally::new();
    let mut words = env::args(rt)?;
    words.next();
    for folder in words {
        play_folder(rt, folder.as_str(), &mut tally)?;
    }
    println!(rt; "{} passed, {} differ", tally.passed, tally.differ)?;
    Ok(tally)
}

/// Plays the files of a folder whose names end in `.case`, in the order of their names.
fn play_folder<R: Runtime + AllocGlobal>(
    rt: &R,
    folder: &str,
    tally: &mut Tally,
) -> io::Result<()> {
    for name in case_files(rt, folder)? {
        let path = format!(in rt.alloc(); "{folder}/{name}")?;
        let text = fs::read(rt, path.as_str())?;
        play_cases(rt, path.as_str(), text.as_slice(), tally)?;
    }
    Ok(())
}

fn case_files<R: Runtime + AllocGlobal>(rt: &R, folder: &str) -> io::Result<Vec<String>> {
    let mut names = Vec::new(rt.alloc());
    for entry in fs::read_dir(rt, folder)? {
        let entry = entry?;
        if entry.file_name().ends_with(".case") {
            names.push(String::from_str(rt.alloc(), entry.file_name())?)?;
        }
    }
    names.sort()?;
    Ok(names)
}
