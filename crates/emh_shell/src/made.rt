//! The line of made designs.
ghost use Rattle.std.specs.Prelude.{◌≡◌, ◌≤◌, None, IfOk};
ghost use Rattle.emh_shell.specs.Made.{out_of_range, Generates, OpensMade};

use crate::fetching::open_table;
use crate::objects::word_line;
use crate::printing::ok_line;
use crate::progress::Progress;
use crate::refusing::opening_line;
use emh_base::{List, NoMemory};
use gen_design::top_name;
use script_read::Line;
use std::alloc::Global;

/// `generate X N W`: begins a session on a made design. A refused one leaves the open session.
pub fn generate(
    alloc: Global,
    line: &Line,
    seed: u32,
    modules: u32,
    width: u32,
    progress: &mut Progress,
) -> Result<List<u8>, NoMemory>
    ensures answers { IfOk result (λ said.
        Generates line.now seed modules width progress.old said progress.new) }
    ensures watchers { progress.new.watchers ≡ progress.old.watchers }
{
    match out_of_range(modules, width) {
        Some(place) => {
            let said = word_line(alloc, line, 26, place)?;
            progress.refuse();
            Ok(said)
        }
        None => open_made(alloc, line.number, seed, modules, width, progress),
    }
}

/// The place in the line of the first number that is out of its range.
fn out_of_range(modules: u32, width: u32) -> Option<u32>
    ensures { result ≡ out_of_range modules width }
{
    if modules < 1 || modules > 10_000 {
        Some(2)
    } else if width < 1 || width > 64 {
        Some(3)
    } else {
        None
    }
}

/// Begins a session on a made design, where nothing refuses it as a top.
fn open_made(
    alloc: Global,
    number: u32,
    seed: u32,
    modules: u32,
    width: u32,
    progress: &mut Progress,
) -> Result<List<u8>, NoMemory>
    requires { out_of_range modules width ≡ None }
    ensures answers { IfOk result (λ said.
        OpensMade number seed modules width progress.old said progress.new) }
    ensures watchers { progress.new.watchers ≡ progress.old.watchers }
{
    let plain = gen_design::generate(alloc, seed, modules, width)?;
    let top = top_name(alloc, modules)?;
    match open_table(plain, &top)? {
        Ok(desk) => {
            let said = ok_line(alloc, number)?;
            progress.open(alloc, desk)?;
            Ok(said)
        }
        Err(fault) => {
            let said = opening_line(alloc, number, &top, &fault)?;
            progress.refuse();
            Ok(said)
        }
    }
}
