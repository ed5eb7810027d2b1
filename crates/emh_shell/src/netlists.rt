//! The commands of netlists.
ghost use Rattle.std.specs.Prelude.{◌≡◌, ◌↔◌, ◌++◌, ℕ, List, IsTrue, IfOk};
ghost use Rattle.emh_base.specs.declared.state.State.{State};
ghost use Rattle.flatten_rules.specs.Sound.{IsSound};
ghost use Rattle.flatten_rules.specs.Design.{IsGood};
ghost use Rattle.flatten_rules.specs.FlatLines.{flat_lines};
ghost use Rattle.script_read.specs.declared.command.Command.TheVariants.{Load, Cells, Write, Compare};
ghost use Rattle.vlog_write.specs.Written.{written};
ghost use Rattle.emh_shell.specs.Printing.{ok_line};
ghost use Rattle.emh_shell.specs.Answers.{Watched};
ghost use Rattle.emh_shell.specs.Netlists.{TellsWhether};
ghost use Rattle.emh_shell.specs.inside.Ends.{CommandEnds};

use crate::answer::no_design_line;
use crate::fault::Halt;
use crate::fetching::{fetch_design, fetch_table};
use crate::printing::ok_line;
use crate::progress::Progress;
use emh_base::{List, Name, NoMemory, Plain, State};
use emh_io::{Shelf, StoreFault};
use flatten_rules::flat_lines;
use script_read::Line;
use std::alloc::Global;
use vlog_write::{write_cells, write_modules};

/// `load FILE TOP`: begins a session on the file's design. A refused one leaves the open session.
pub fn load<F: Shelf>(
    alloc: Global,
    line: &Line,
    file: &[u8],
    top: &Name,
    progress: &mut Progress,
    shelf: &mut F,
) -> Result<List<u8>, Halt>
    ensures ends { (W : Watched) → CommandEnds W (Load file.now top.now) line.now
        (F.told shelf.old) (F.told shelf.new) progress.old progress.new result }
    ensures watchers { progress.new.watchers ≡ progress.old.watchers }
{
    match fetch_design(alloc, progress.library(), file, top, shelf)? {
        Ok(desk) => {
            let said = ok_line(alloc, line.number)?;
            progress.open(alloc, desk)?;
            Ok(said)
        }
        Err(fault) => {
            let said = fault.line(alloc, line.number, file, top)?;
            progress.refuse();
            Ok(said)
        }
    }
}

/// `cells FILE`: adds the file's modules to the library, as leaves. A refused one leaves the library.
pub fn cells<F: Shelf>(
    alloc: Global,
    line: &Line,
    file: &[u8],
    progress: &mut Progress,
    shelf: &mut F,
) -> Result<List<u8>, Halt>
    ensures ends { (W : Watched) → CommandEnds W (Cells file.now) line.now
        (F.told shelf.old) (F.told shelf.new) progress.old progress.new result }
    ensures watchers { progress.new.watchers ≡ progress.old.watchers }
{
    match fetch_table(alloc, progress.library(), true, file, shelf)? {
        Ok(library) => {
            let said = ok_line(alloc, line.number)?;
            progress.set_library(library);
            Ok(said)
        }
        Err(fault) => {
            let said = fault.line(alloc, line.number, file)?;
            progress.refuse();
            Ok(said)
        }
    }
}

/// `write FILE`: stores the open design as a netlist.
pub fn write<F: Shelf>(
    alloc: Global,
    line: &Line,
    file: &[u8],
    progress: &mut Progress,
    shelf: &mut F,
) -> Result<List<u8>, Halt>
    ensures ends { (W : Watched) → CommandEnds W (Write file.now) line.now
        (F.told shelf.old) (F.told shelf.new) progress.old progress.new result }
    ensures watchers { progress.new.watchers ≡ progress.old.watchers }
{
    match progress.session() {
        None => {
            let said = no_design_line(alloc, line)?;
            progress.refuse();
            Ok(said)
        }
        Some(session) => {
            let said = ok_line(alloc, line.number)?;
            let bytes = written(&session.desk().state().plain)?;
            match shelf.store(file, bytes.as_slice()) {
                Ok(()) => Ok(said),
                Err(StoreFault::Failed) => Err(Halt::Store),
                Err(StoreFault::NoMemory) => Err(Halt::NoMemory),
            }
        }
    }
}

/// What is written of a table: its leaves as cells, and its other modules.
fn written(plain: &Plain) -> Result<List<u8>, NoMemory>
    requires { IsSound plain.now }
    ensures { IfOk result (λ bytes. bytes ≡ written plain.now) }
{
    let mut bytes = write_cells(plain)?;
    bytes.extend(write_modules(plain)?.as_slice())?;
    Ok(bytes)
}

/// `compare FILE TOP`: tells whether the file's design has the flat netlist of the open one.
pub fn compare<F: Shelf>(
    alloc: Global,
    line: &Line,
    file: &[u8],
    top: &Name,
    progress: &mut Progress,
    shelf: &mut F,
) -> Result<List<u8>, Halt>
    ensures ends { (W : Watched) → CommandEnds W (Compare file.now top.now) line.now
        (F.told shelf.old) (F.told shelf.new) progress.old progress.new result }
    ensures watchers { progress.new.watchers ≡ progress.old.watchers }
{
    let Some(session) = progress.session() else {
        let said = no_design_line(alloc, line)?;
        progress.refuse();
        return Ok(said);
    };
    match fetch_design(alloc, progress.library(), file, top, shelf)? {
        Ok(other) => Ok(compared(alloc, line.number, session.desk().state(), other.state())?),
        Err(fault) => {
            let said = fault.line(alloc, line.number, file, top)?;
            progress.refuse();
            Ok(said)
        }
    }
}

/// What a comparison prints of two designs.
fn compared(alloc: Global, number: u32, design: &State, other: &State) -> Result<List<u8>, NoMemory>
    requires design { IsGood design.now.plain design.now.top }
    requires other { IsGood other.now.plain other.now.top }
    ensures { IfOk result (λ said. (told : List ℕ)
        × TellsWhether (flat_lines other.now.plain other.now.top
        ≡ flat_lines design.now.plain design.now.top) told
        × (said ≡ ok_line number ++ told)) }
{
    let mut said = ok_line(alloc, number)?;
    let lines = flat_lines(alloc, &design.plain, design.top)?;
    let others = flat_lines(alloc, &other.plain, other.top)?;
    if are_same(others.as_slice(), lines.as_slice()) {
        said.extend(b"same\n")?;
    } else {
        said.extend(b"differs\n")?;
    }
    Ok(said)
}

/// Whether two lists have the same lines in the same order.
fn are_same(lines: &[List<u8>], others: &[List<u8>]) -> bool
    ensures { IsTrue result ↔ (lines.now ≡ others.now) }
{
    if lines.len() != others.len() {
        return false;
    }
    let mut at = 0;
    while at < lines.len() {
        if lines[at].as_slice() != others[at].as_slice() {
            return false;
        }
        at += 1;
    }
    true
}
