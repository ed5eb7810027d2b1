//! One line of a script.
ghost use Rattle.std.specs.Prelude.{◌≡◌, ◌≤◌, length};
ghost use Rattle.emh_shell.specs.Answers.{watched};
ghost use Rattle.emh_shell.specs.inside.Ends.{LineEnds};

use crate::answer::answer;
use crate::fault::Halt;
use crate::made::generate;
use crate::netlists::{cells, compare, load, write};
use crate::progress::Progress;
use emh_base::List;
use emh_io::Shelf;
use emh_session::Observer;
use script_read::{Command, Line};
use std::alloc::Global;

/// Carries out a line, and gives what it prints. A file is stored last, when that text is there.
pub fn step<F: Shelf>(
    alloc: Global,
    line: &Line,
    progress: &mut Progress,
    shelf: &mut F,
    watch: &[Box<dyn Observer>],
) -> Result<List<u8>, Halt>
    requires watched { length watch.now ≡ progress.old.watchers }
    requires few { length watch.now ≤ 64 }
    ensures ends { let W = watched (λ b. called b) (λ b. wants b) watch.now in
        LineEnds W line.now (F.told shelf.old) (F.told shelf.new)
        progress.old progress.new result }
    ensures watchers { progress.new.watchers ≡ progress.old.watchers }
{
    match &line.command {
        Command::Load { file, top } => load(alloc, line, file.as_slice(), top, progress, shelf),
        Command::Cells { file } => cells(alloc, line, file.as_slice(), progress, shelf),
        Command::Write { file } => write(alloc, line, file.as_slice(), progress, shelf),
        Command::Compare { file, top } => {
            compare(alloc, line, file.as_slice(), top, progress, shelf)
        }
        Command::Generate {
            seed,
            modules,
            width,
        } => Ok(generate(alloc, line, *seed, *modules, *width, progress)?),
        _ => Ok(answer(alloc, line, progress, watch)?),
    }
}
