ghost use Rattle.std.specs.Prelude.{◌≡◌, ℕ, ◌∷◌, ◌++◌, List, codes, IfOk};
ghost use Rattle.std.specs.Fmt.{decimal};
ghost use Rattle.emh_base.specs.Text.{spell, path_text};
ghost use Rattle.script_read.specs.declared.lines.Says.TheVariants.{Asks};
ghost use Rattle.script_read.specs.Script.{line_says, line_text};
ghost use Rattle.script_read.specs.Written.{words_by};

use crate::command::{BitWord, Command};
use crate::put::{
    put_bits, put_bytes, put_dir, put_maybe_range, put_name, put_net_bit, put_number, put_orient,
    put_path, put_signed, put_status,
};
use emh_base::{Dir, Kind, List, Name, NoMemory, Orient, Range, Status};
use std::alloc::Global;

/// A line that reads as a command: its first word, and the words that say its values, with a space before each. Numbers
/// are in decimal without leading zeros and names are spelled; no newline ends the line.
pub fn text_of(alloc: Global, command: &Command) -> Result<List<u8>, NoMemory>
    ensures text { IfOk result (λ line. line ≡ line_text command.now) }
    ensures reads { IfOk result (λ text. (line : List ℕ) (words : List (List ℕ))
        → line_says line ≡ Asks words command.now
        → line_says text ≡ Asks (words_by command.now) command.now) }
{
    let line = written(alloc, command)?;
    Ok(line)
}

/// The line of a command.
fn written(alloc: Global, command: &Command) -> Result<List<u8>, NoMemory>
    ensures { IfOk result (λ line. line ≡ line_text command.now) }
{
    match command {
        Command::Load { file, top } => file_and_name(alloc, b"load".as_slice(), file, top),
        Command::Cells { file } => one_file(alloc, b"cells".as_slice(), file),
        Command::Write { file } => one_file(alloc, b"write".as_slice(), file),
        Command::Compare { file, top } => file_and_name(alloc, b"compare".as_slice(), file, top),
        Command::Generate {
            seed,
            modules,
            width,
        } => three_numbers(alloc, b"generate".as_slice(), *seed, *modules, *width),
        Command::Churn { seed, turns } => two_numbers(alloc, b"churn".as_slice(), *seed, *turns),
        Command::Undo => first_word(alloc, b"undo".as_slice()),
        Command::Redo => first_word(alloc, b"redo".as_slice()),
        Command::Observe { observer } => one_name(alloc, b"observe".as_slice(), observer),
        Command::Ignore { observer } => one_name(alloc, b"ignore".as_slice(), observer),
        Command::Report(kind) => report_text(alloc, kind),
        Command::CreateModule { name } => one_name(alloc, b"create_module".as_slice(), name),
        Command::DeleteModule { module } => one_name(alloc, b"delete_module".as_slice(), module),
        Command::CreateNet {
            module,
            name,
            range,
        } => create_net_text(alloc, module, name, *range),
        Command::DeleteNet { module, net } => two_names(
            alloc,
            b"delete_net".as_slice(),
            module,
            net,
        ),
        Command::CreatePort {
            module,
            name,
            dir,
            range,
        } => create_port_text(alloc, module, name, *dir, *range),
        Command::DeletePort { module, port } => two_names(
            alloc,
            b"delete_port".as_slice(),
            module,
            port,
        ),
        Command::CreateInst {
            module,
            name,
            master,
        } => three_names(alloc, b"create_inst".as_slice(), module, name, master),
        Command::DeleteInst { module, inst } => two_names(
            alloc,
            b"delete_inst".as_slice(),
            module,
            inst,
        ),
        Command::Connect {
            module,
            inst,
            port,
            bits,
        } => connect_text(alloc, module, inst, port, bits),
        Command::Disconnect { module, inst, port } => three_names(
            alloc,
            b"disconnect".as_slice(),
            module,
            inst,
            port,
        ),
        Command::RenameModule { module, name } => two_names(
            alloc,
            b"rename_module".as_slice(),
            module,
            name,
        ),
        Command::RenameNet { module, net, name } => three_names(
            alloc,
            b"rename_net".as_slice(),
            module,
            net,
            name,
        ),
        Command::RenameInst { module, inst, name } => three_names(
            alloc,
            b"rename_inst".as_slice(),
            module,
            inst,
            name,
        ),
        Command::Resize {
            module,
            inst,
            master,
        } => three_names(alloc, b"resize".as_slice(), module, inst, master),
        Command::Uniquify { module, inst, name } => three_names(
            alloc,
            b"uniquify".as_slice(),
            module,
            inst,
            name,
        ),
        Command::Place {
            path,
            x,
            y,
            orient,
            status,
        } => place_text(alloc, path, *x, *y, *orient, *status),
        Command::Unplace { path } => one_path(alloc, b"unplace".as_slice(), path),
        Command::Lock { module } => one_name(alloc, b"lock".as_slice(), module),
        Command::Unlock { module } => one_name(alloc, b"unlock".as_slice(), module),
        Command::SetFanout { max, cell } => number_and_name(
            alloc,
            b"set_fanout".as_slice(),
            *max,
            cell,
        ),
        Command::SetGrid { grid } => one_number(alloc, b"set_grid".as_slice(), *grid),
    }
}

/// A first word.
fn first_word(alloc: Global, first: &[u8]) -> Result<List<u8>, NoMemory>
    ensures { IfOk result (λ line. line ≡ first.now) }
{
    List::from_slice(alloc, first)
}

/// A first word and a name.
fn one_name(alloc: Global, first: &[u8], name: &Name) -> Result<List<u8>, NoMemory>
    ensures { IfOk result (λ line. line ≡ first.now ++ 32 ∷ spell name.now) }
{
    let mut line = List::from_slice(alloc, first)?;
    put_name(&mut line, name)?;
    Ok(line)
}

/// A first word and two names.
fn two_names(alloc: Global, first: &[u8], name: &Name, other: &Name) -> Result<List<u8>, NoMemory>
    ensures { IfOk result (λ line. line ≡ first.now ++ 32 ∷ (spell name.now ++ 32 ∷ spell other.now)) }
{
    let mut line = one_name(alloc, first, name)?;
    put_name(&mut line, other)?;
    Ok(line)
}

/// A first word and three names.
fn three_names(
    alloc: Global,
    first: &[u8],
    name: &Name,
    other: &Name,
    third: &Name,
) -> Result<List<u8>, NoMemory>
    ensures { IfOk result (λ line. line
        ≡ first.now ++ 32 ∷ (spell name.now ++ 32 ∷ (spell other.now ++ 32 ∷ spell third.now))) }
{
    let mut line = two_names(alloc, first, name, other)?;
    put_name(&mut line, third)?;
    Ok(line)
}

/// A first word and a file's name.
fn one_file(alloc: Global, first: &[u8], file: &List<u8>) -> Result<List<u8>, NoMemory>
    ensures { IfOk result (λ line. line ≡ first.now ++ 32 ∷ file.now) }
{
    let mut line = List::from_slice(alloc, first)?;
    put_bytes(&mut line, file.as_slice())?;
    Ok(line)
}

/// A first word, a file's name and a name.
fn file_and_name(
    alloc: Global,
    first: &[u8],
    file: &List<u8>,
    name: &Name,
) -> Result<List<u8>, NoMemory>
    ensures { IfOk result (λ line. line ≡ first.now ++ 32 ∷ (file.now ++ 32 ∷ spell name.now)) }
{
    let mut line = one_file(alloc, first, file)?;
    put_name(&mut line, name)?;
    Ok(line)
}

/// A first word and a number.
fn one_number(alloc: Global, first: &[u8], number: u32) -> Result<List<u8>, NoMemory>
    ensures { IfOk result (λ line. line ≡ first.now ++ 32 ∷ decimal number) }
{
    let mut line = List::from_slice(alloc, first)?;
    put_number(&mut line, number)?;
    Ok(line)
}

/// A first word and two numbers.
fn two_numbers(alloc: Global, first: &[u8], number: u32, other: u32) -> Result<List<u8>, NoMemory>
    ensures { IfOk result (λ line. line ≡ first.now ++ 32 ∷ (decimal number ++ 32 ∷ decimal other)) }
{
    let mut line = one_number(alloc, first, number)?;
    put_number(&mut line, other)?;
    Ok(line)
}

/// A first word and three numbers.
fn three_numbers(
    alloc: Global,
    first: &[u8],
    number: u32,
    other: u32,
    third: u32,
) -> Result<List<u8>, NoMemory>
    ensures { IfOk result (λ line. line
        ≡ first.now ++ 32 ∷ (decimal number ++ 32 ∷ (decimal other ++ 32 ∷ decimal third))) }
{
    let mut line = two_numbers(alloc, first, number, other)?;
    put_number(&mut line, third)?;
    Ok(line)
}

/// A first word, a number and a name.
fn number_and_name(
    alloc: Global,
    first: &[u8],
    number: u32,
    name: &Name,
) -> Result<List<u8>, NoMemory>
    ensures { IfOk result (λ line. line ≡ first.now ++ 32 ∷ (decimal number ++ 32 ∷ spell name.now)) }
{
    let mut line = one_number(alloc, first, number)?;
    put_name(&mut line, name)?;
    Ok(line)
}

/// A first word and a path.
fn one_path(alloc: Global, first: &[u8], path: &List<Name>) -> Result<List<u8>, NoMemory>
    ensures { IfOk result (λ line. line ≡ first.now ++ 32 ∷ path_text path.now) }
{
    let mut line = List::from_slice(alloc, first)?;
    put_path(&mut line, path)?;
    Ok(line)
}

fn create_net_text(
    alloc: Global,
    module: &Name,
    name: &Name,
    range: Option<Range>,
) -> Result<List<u8>, NoMemory>
    ensures { IfOk result (λ line. line ≡ line_text (Command.CreateNet «module».now name.now range)) }
{
    let mut line = two_names(alloc, b"create_net".as_slice(), module, name)?;
    put_maybe_range(&mut line, range)?;
    Ok(line)
}

fn create_port_text(
    alloc: Global,
    module: &Name,
    name: &Name,
    dir: Dir,
    range: Option<Range>,
) -> Result<List<u8>, NoMemory>
    ensures { IfOk result (λ line. line ≡ line_text (Command.CreatePort «module».now name.now dir range)) }
{
    let mut line = two_names(alloc, b"create_port".as_slice(), module, name)?;
    put_dir(&mut line, dir)?;
    put_maybe_range(&mut line, range)?;
    Ok(line)
}

fn connect_text(
    alloc: Global,
    module: &Name,
    inst: &Name,
    port: &Name,
    bits: &List<BitWord>,
) -> Result<List<u8>, NoMemory>
    ensures { IfOk result (λ line. line ≡ line_text (Command.Connect «module».now inst.now port.now bits.now)) }
{
    let mut line = three_names(alloc, b"connect".as_slice(), module, inst, port)?;
    put_bits(&mut line, bits.as_slice())?;
    Ok(line)
}

fn place_text(
    alloc: Global,
    path: &List<Name>,
    x: i32,
    y: i32,
    orient: Orient,
    status: Status,
) -> Result<List<u8>, NoMemory>
    ensures { IfOk result (λ line. line ≡ line_text (Command.Place path.now x y orient status)) }
{
    let mut line = one_path(alloc, b"place".as_slice(), path)?;
    put_signed(&mut line, x)?;
    put_signed(&mut line, y)?;
    put_orient(&mut line, orient)?;
    put_status(&mut line, status)?;
    Ok(line)
}

/// The line of a report.
fn report_text(alloc: Global, kind: &Kind) -> Result<List<u8>, NoMemory>
    ensures { IfOk result (λ line. line ≡ line_text (Command.Report kind.now)) }
{
    match kind {
        Kind::Pins => first_word(alloc, b"report pins".as_slice()),
        Kind::Block => first_word(alloc, b"report block".as_slice()),
        Kind::Occurrences => first_word(alloc, b"report occurrences".as_slice()),
        Kind::Modules => first_word(alloc, b"report modules".as_slice()),
        Kind::Counts => first_word(alloc, b"report counts".as_slice()),
        Kind::Log => first_word(alloc, b"report log".as_slice()),
        Kind::Net { path, net, index } => report_net_text(alloc, path, net, *index),
        Kind::Where(name) => one_name(alloc, b"report where".as_slice(), name),
    }
}

fn report_net_text(
    alloc: Global,
    path: &List<Name>,
    net: &Name,
    index: Option<u32>,
) -> Result<List<u8>, NoMemory>
    ensures { IfOk result (λ line. line ≡ line_text (Command.Report (Kind.Net path.now net.now index))) }
{
    let mut line = List::from_slice(alloc, b"report net".as_slice())?;
    put_net_bit(&mut line, path.as_slice(), net, index)?;
    Ok(line)
}
