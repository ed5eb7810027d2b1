//! Files of a shelf as tables and as designs.
ghost use Rattle.std.specs.Prelude.{◌≡◌, ◌≤◌, length, IfOk};
ghost use Rattle.emh_base.specs.declared.file.TheConstants.{FILE_LIMIT};
ghost use Rattle.flatten_rules.specs.Sound.{IsSound};
ghost use Rattle.emh_shell.specs.Fetching.{HasTable, HasDesign, Opens};
ghost use Rattle.emh_shell.specs.inside.Ends.{FetchEnds};
ghost use Rattle.emh_shell.specs.inside.Replies.{IsTable, IsFresh, state_of};

use crate::fault::{DesignFault, FileFault, Halt};
use desk::Desk;
use edit_rules::OpenFault;
use emh_base::{Name, NoMemory, Plain};
use emh_io::{FetchFault, Shelf};
use std::alloc::Global;
use vlog_elab::{ElabFault, ReadFault, read_netlist};
use vlog_lex::LexFault;
use vlog_read::ParseFault;

/// A file of the shelf as a table over a library, or what is wrong with it.
pub fn fetch_table<F: Shelf>(
    alloc: Global,
    library: &Plain,
    all_leaf: bool,
    file: &[u8],
    shelf: &mut F,
) -> Result<Result<Plain, FileFault>, Halt>
    requires { IsSound library.now }
    ensures ends { FetchEnds (HasTable (F.told shelf.old).holds library.now all_leaf file.now)
        file.now (F.told shelf.old) (F.told shelf.new) result }
    ensures sound { IfOk result (λ reply. IfOk reply IsSound) }
{
    match shelf.fetch(file) {
        Ok(bytes) => Ok(read_table(alloc, library, all_leaf, bytes.as_slice())?),
        Err(FetchFault::TooLong) => Ok(Err(FileFault::TooLong)),
        Err(FetchFault::Failed) => Err(Halt::Fetch),
        Err(FetchFault::Missing) => Err(Halt::Fetch),
        Err(FetchFault::NoMemory) => Err(Halt::NoMemory),
    }
}

/// Bytes as a table over a library, or what is wrong with them.
fn read_table(
    alloc: Global,
    library: &Plain,
    all_leaf: bool,
    bytes: &[u8],
) -> Result<Result<Plain, FileFault>, NoMemory>
    requires sound { IsSound library.now }
    requires size { length bytes.now ≤ FILE_LIMIT }
    ensures table { IfOk result (IsTable library.now all_leaf bytes.now) }
    ensures sound { IfOk result (λ reply. IfOk reply IsSound) }
{
    match read_netlist(alloc, library, bytes, all_leaf) {
        Ok(plain) => Ok(Ok(plain)),
        Err(ReadFault::Lex(LexFault::NoMemory)) => Err(NoMemory),
        Err(ReadFault::Parse(ParseFault::NoMemory)) => Err(NoMemory),
        Err(ReadFault::Elab(ElabFault::NoMemory)) => Err(NoMemory),
        Err(fault) => Ok(Err(FileFault::Reading(fault))),
    }
}

/// A file of the shelf as a design with a module of that name at its top, or what is wrong with it. Nothing is placed,
/// set or remembered in it.
pub fn fetch_design<F: Shelf>(
    alloc: Global,
    library: &Plain,
    file: &[u8],
    top: &Name,
    shelf: &mut F,
) -> Result<Result<Desk, DesignFault>, Halt>
    requires { IsSound library.now }
    ensures ends { FetchEnds (λ reply. HasDesign (F.told shelf.old).holds library.now file.now top.now
        (state_of reply)) file.now (F.told shelf.old) (F.told shelf.new) result }
    ensures fresh { IfOk result (λ reply. IfOk reply IsFresh) }
{
    match fetch_table(alloc, library, false, file, shelf)? {
        Ok(plain) => match open_table(plain, top)? {
            Ok(desk) => Ok(Ok(desk)),
            Err(fault) => Ok(Err(DesignFault::Opening(fault))),
        },
        Err(fault) => Ok(Err(DesignFault::File(fault))),
    }
}

/// The design of a table at the named top, or why it isn't opened. Nothing is placed, set or remembered in it.
pub fn open_table(plain: Plain, top: &Name) -> Result<Result<Desk, OpenFault>, NoMemory>
    requires { IsSound plain }
    ensures opens { IfOk result (λ reply. Opens plain top.now (state_of reply)) }
    ensures fresh { IfOk result (λ reply. IfOk reply IsFresh) }
{
    match Desk::open(plain, top) {
        Ok(desk) => Ok(Ok(desk)),
        Err(OpenFault::NoMemory) => Err(NoMemory),
        Err(fault) => Ok(Err(fault)),
    }
}
