//! The top call.
ghost use Rattle.std.specs.Prelude.{◌≡◌, ℕ, ◌<◌, ◌≤◌, List, Some, map, length, Ok, ◌⊎◌, string_bytes};
ghost use Rattle.emh_io.specs.Count.{Rose};
ghost use Rattle.emh_shell.specs.Answers.{watched};
ghost use Rattle.emh_shell.specs.Fetching.{Gives};
ghost use Rattle.emh_shell.specs.Play.{Reads};
ghost use Rattle.command_line.specs.CommandLine.{asked};
ghost use Rattle.command_line.specs.declared.words.Asked.{Asked};
ghost use Rattle.emh_shell.specs.Run.{Played, WholeAtFetch, WholeAtStore, Cut, QuietShelf, Failed};
ghost use Rattle.emh_shell.specs.inside.Ends.{Ends, FaultEnds};

use crate::fault::Halt;
use crate::printing::bad_line;
use crate::progress::Progress;
use crate::step::step;
use command_line::ask;
use emh_io::{FetchFault, Shelf, Sink, put_all};
use emh_session::Observer;
use script_read::{Line, ScriptFault, script};
use std::alloc::Global;

/// Runs the script that the words ask for, `[--budget N] SCRIPT`, over a shelf of files, and prints
/// all that it says to a sink. The observers, at most 64, are told of each edit where a line has
/// enabled them; they may add so many changes to it as the budget says.
///
/// The status is 0 where each line was accepted and 1 where one was refused; 2 where the words ask for nothing or the
/// bytes are no script, and then nothing is run; 3 where a file can't be fetched; 4 where a file can't be stored or the
/// text can't be written; 5 for want of memory. At 3, 4 and 5 nothing more is printed.
pub fn run<F: Shelf, K: Sink>(
    alloc: Global,
    words: &[String],
    shelf: &mut F,
    out: &mut K,
    watch: &[Box<dyn Observer>],
) -> u8
    requires few { length watch.now ≤ 64 }
    // At 0, 1 and 2 it is the plain session: its status, its text after what was there, its files.
    ensures played { result < 3 → Played (watched (λ b. called b) (λ b. wants b) watch.now)
        (map string_bytes words.now)
        (F.told shelf.old) (F.told shelf.new) (K.told out.old) (K.told out.new) result }
    // At 3 a fetch came to nothing: the files after k lines are held, and their text is written.
    ensures fetch { result ≡ 3 → WholeAtFetch (watched (λ b. called b) (λ b. wants b) watch.now)
        (map string_bytes words.now)
        (F.told shelf.old) (F.told shelf.new) (K.told out.old) (K.told out.new) }
    // At 4 a store failed, which leaves the same, or a put, which leaves the front of that text.
    ensures failed { let W = watched (λ b. called b) (λ b. wants b) watch.now in
        result ≡ 4 → WholeAtStore W (map string_bytes words.now)
        (F.told shelf.old) (F.told shelf.new) (K.told out.old) (K.told out.new)
        ⊎ (Cut W (map string_bytes words.now)
        (F.told shelf.old) (F.told shelf.new) (K.told out.old) (K.told out.new)
        × Rose (K.told out.old).faults (K.told out.new).faults) }
    // At 5 the files after k lines are held, and the front of their text is written.
    ensures memory { result ≡ 5 → Cut (watched (λ b. called b) (λ b. wants b) watch.now)
        (map string_bytes words.now)
        (F.told shelf.old) (F.told shelf.new) (K.told out.old) (K.told out.new) }
    // Where no call failed it is the plain session, at 3 too, unless memory was wanting.
    ensures complete { ¬ Failed
        (F.told shelf.old) (F.told shelf.new) (K.told out.old) (K.told out.new)
        → (result ≡ 5) ⊎ Played (watched (λ b. called b) (λ b. wants b) watch.now)
        (map string_bytes words.now)
        (F.told shelf.old) (F.told shelf.new) (K.told out.old) (K.told out.new) result }
    // At 0, 1 and 2 no call failed.
    ensures quiet { result < 3 → QuietShelf (F.told shelf.old) (F.told shelf.new)
        × ((K.told out.new).faults ≡ (K.told out.old).faults) }
    ensures statuses { result ≤ 5 }
{
    match run_words(alloc, words, shelf, out, watch) {
        Ok(status) => status,
        Err(Halt::Fetch) => 3,
        Err(Halt::Store) => 4,
        Err(Halt::Put) => 4,
        Err(Halt::NoMemory) => 5,
    }
}

/// Plays the script that the words ask for.
fn run_words<F: Shelf, K: Sink>(
    alloc: Global,
    words: &[String],
    shelf: &mut F,
    out: &mut K,
    watch: &[Box<dyn Observer>],
) -> Result<u8, Halt>
    requires few { length watch.now ≤ 64 }
    ensures { Ends (watched (λ b. called b) (λ b. wants b) watch.now) (map string_bytes words.now)
        (F.told shelf.old) (F.told shelf.new) (K.told out.old) (K.told out.new) result }
{
    match ask(alloc, words)? {
        None => print_fault(out, b"usage emhdb [--budget N] SCRIPT\n".as_slice()),
        Some(ask) => {
            let script = ask.script.as_slice();
            run_named(alloc, ask.budget, script, shelf, out, watch)
        }
    }
}

/// Fetches the script of that name and plays it under a budget.
fn run_named<F: Shelf, K: Sink>(
    alloc: Global,
    budget: u32,
    name: &[u8],
    shelf: &mut F,
    out: &mut K,
    watch: &[Box<dyn Observer>],
) -> Result<u8, Halt>
    requires few { length watch.now ≤ 64 }
    requires budget { budget ≤ 100000 }
    ensures { (words : List (List ℕ))
        → asked words ≡ Some (record { budget = budget; script = name.now })
        → Ends (watched (λ b. called b) (λ b. wants b) watch.now) words
        (F.told shelf.old) (F.told shelf.new) (K.told out.old) (K.told out.new) result }
{
    match shelf.fetch(name) {
        Ok(bytes) => run_script(alloc, budget, bytes.as_slice(), shelf, out, watch),
        Err(FetchFault::TooLong) => print_fault(out, b"script too long\n".as_slice()),
        Err(FetchFault::Failed) => Err(Halt::Fetch),
        Err(FetchFault::Missing) => Err(Halt::Fetch),
        Err(FetchFault::NoMemory) => Err(Halt::NoMemory),
    }
}

/// Plays a script, or writes what is wrong with it.
fn run_script<F: Shelf, K: Sink>(
    alloc: Global,
    budget: u32,
    bytes: &[u8],
    shelf: &mut F,
    out: &mut K,
    watch: &[Box<dyn Observer>],
) -> Result<u8, Halt>
    requires few { length watch.now ≤ 64 }
    requires budget { budget ≤ 100000 }
    ensures { (words : List (List ℕ)) (ask : Asked) → asked words ≡ Some ask → ask.budget ≡ budget
        → Gives (F.told shelf.old).holds ask.script (Ok bytes.now)
        → Ends (watched (λ b. called b) (λ b. wants b) watch.now) words
        (F.told shelf.old) (F.told shelf.new) (K.told out.old) (K.told out.new) result }
{
    match script(alloc, bytes) {
        Ok(lines) => run_lines(alloc, budget, lines.as_slice(), shelf, out, watch),
        Err(ScriptFault::NoMemory) => Err(Halt::NoMemory),
        Err(ScriptFault::TooManyLines) => {
            print_fault(out, b"script has too many lines\n".as_slice())
        }
        Err(ScriptFault::BadLine { line }) => {
            let text = bad_line(alloc, line)?;
            print_fault(out, text.as_slice())
        }
    }
}

/// Writes the one line that says why nothing is run.
fn print_fault<K: Sink>(out: &mut K, text: &[u8]) -> Result<u8, Halt>
    ensures { FaultEnds text.now (K.told out.old) (K.told out.new) result }
{
    put_all(out, text)?;
    Ok(2)
}

/// Plays the lines in order. What a line prints is written before the next one begins.
fn run_lines<F: Shelf, K: Sink>(
    alloc: Global,
    budget: u32,
    lines: &[Line],
    shelf: &mut F,
    out: &mut K,
    watch: &[Box<dyn Observer>],
) -> Result<u8, Halt>
    requires few { length watch.now ≤ 64 }
    requires budget { budget ≤ 100000 }
    ensures { (words : List (List ℕ)) (reads : Reads (F.told shelf.old).holds words lines.now)
        → reads.ask.budget ≡ budget
        → Ends (watched (λ b. called b) (λ b. wants b) watch.now) words
        (F.told shelf.old) (F.told shelf.new) (K.told out.old) (K.told out.new) result }
{
    let mut progress = Progress::new(alloc, budget, watch.len() as u32);
    for line in lines {
        let said = step(alloc, line, &mut progress, shelf, watch)?;
        put_all(out, said.as_slice())?;
    }
    Ok(u8::from(progress.has_refused()))
}
