//! What a rule's refusal is about, in print.
ghost use Rattle.std.specs.Prelude.{◌≡◌, [], ◌++◌, None, option_and_then, unwrap_or, IfOk, OnOk, codes};
ghost use Rattle.std.specs.Option.{option_copied};
ghost use Rattle.emh_base.specs.Text.{spell, path_text};
ghost use Rattle.flatten_rules.specs.Lookup.{module_of, net_of, inst_of};
ghost use Rattle.flatten_rules.specs.Sound.{IsSound};
ghost use Rattle.emh_shell.specs.Objects.{name_or_number, module_word, net_word, inst_word, new_name, path_of, number_of, word_at, word_line, object_text, rule_line};

use crate::printing::{number_object, refused_line, word_object};
use emh_base::{
    InstId, List, ModId, Name, NetId, NoMemory, Object, Plain, Refusal, push_number, push_spelled,
};
use flatten_rules::{inst_in, module_of, net_in};
use script_read::{Command, Line, put_path};
use std::alloc::Global;

/// The word of a line at a place, counted from 0.
pub fn word_at(line: &Line, place: u32) -> &[u8]
    ensures { result.now ≡ word_at line.now place }
{
    match line.words.get(place as usize) {
        None => &[],
        Some(word) => word.as_slice(),
    }
}

/// The line that is printed where a cause of that code refuses it, because of its word at that place.
pub fn word_line(alloc: Global, line: &Line, code: u32, place: u32) -> Result<List<u8>, NoMemory>
    ensures { IfOk result (λ text. text ≡ word_line line.now code place) }
{
    let object = word_object(alloc, word_at(line, place))?;
    refused_line(alloc, line.number, code, object.as_slice())
}

/// The line that is printed where a rule refuses it, by the names that ids have in a table.
pub fn rule_line(
    alloc: Global,
    plain: &Plain,
    line: &Line,
    refusal: Refusal,
) -> Result<List<u8>, NoMemory>
    requires { IsSound plain.now }
    ensures { IfOk result (λ text. text ≡ rule_line plain.now line.now refusal) }
{
    let object = object_text(alloc, plain, line, refusal.object)?;
    refused_line(alloc, line.number, refusal.rule.code(), object.as_slice())
}

fn object_text(
    alloc: Global,
    plain: &Plain,
    line: &Line,
    object: Object,
) -> Result<List<u8>, NoMemory>
    requires { IsSound plain.now }
    ensures { IfOk result (λ text. text ≡ object_text plain.now line.now object) }
{
    match object {
        Object::Module(module) => module_text(alloc, plain, module),
        Object::Net(module, net) => net_text(alloc, b"net ", plain, module, net),
        Object::Inst(module, inst) => inst_text(alloc, plain, module, inst),
        Object::Port(module, port) => net_text(alloc, b"port ", plain, module, port),
        Object::NewName => name_text(alloc, &line.command),
        Object::Spot => spot_text(alloc, &line.command),
        Object::Number => number_object(alloc, number_of(&line.command)),
        Object::Word(place) => word_object(alloc, word_at(line, place)),
    }
}

/// A module.
fn module_text(alloc: Global, plain: &Plain, module: ModId) -> Result<List<u8>, NoMemory>
    requires { IsSound plain.now }
    ensures { IfOk result (λ text. text ≡ codes "module " ++ module_word plain.now «module») }
{
    let mut text = List::from_slice(alloc, b"module ")?;
    push_module(plain, module, &mut text)?;
    Ok(text)
}

/// A net or a port of a module, behind what it is.
fn net_text(
    alloc: Global,
    what: &[u8],
    plain: &Plain,
    module: ModId,
    net: NetId,
) -> Result<List<u8>, NoMemory>
    requires { IsSound plain.now }
    ensures { IfOk result (λ text. text ≡ what.now
        ++ (module_word plain.now «module» ++ (codes " " ++ net_word plain.now «module» net))) }
{
    let mut text = List::from_slice(alloc, what)?;
    push_module(plain, module, &mut text)?;
    text.push(b' ')?;
    match net_in(plain, module, net) {
        None => push_id(net.0, &mut text)?,
        Some(net) => push_spelled(&mut text, &net.name)?,
    }
    Ok(text)
}

/// An instance in a module.
fn inst_text(
    alloc: Global,
    plain: &Plain,
    module: ModId,
    inst: InstId,
) -> Result<List<u8>, NoMemory>
    requires { IsSound plain.now }
    ensures { IfOk result (λ text. text ≡ codes "inst "
        ++ (module_word plain.now «module» ++ (codes " " ++ inst_word plain.now «module» inst))) }
{
    let mut text = List::from_slice(alloc, b"inst ")?;
    push_module(plain, module, &mut text)?;
    text.push(b' ')?;
    match inst_in(plain, module, inst) {
        None => push_id(inst.0, &mut text)?,
        Some(inst) => push_spelled(&mut text, &inst.name)?,
    }
    Ok(text)
}

/// The name that a command gives.
fn name_text(alloc: Global, command: &Command) -> Result<List<u8>, NoMemory>
    ensures { IfOk result (λ text. text ≡ codes "name " ++ spell (new_name command.now)) }
{
    let mut text = List::from_slice(alloc, b"name ")?;
    if let Some(name) = new_name(command) {
        push_spelled(&mut text, name)?;
    }
    Ok(text)
}

fn new_name(command: &Command) -> Option<&Name>
    ensures { unwrap_or (option_copied result) [] ≡ new_name command.now }
{
    match command {
        Command::CreateModule { name }
        | Command::RenameModule { name, .. }
        | Command::CreateNet { name, .. }
        | Command::RenameNet { name, .. }
        | Command::CreatePort { name, .. }
        | Command::CreateInst { name, .. }
        | Command::RenameInst { name, .. }
        | Command::Uniquify { name, .. } => Some(name),
        _ => None,
    }
}

/// The path of a command, the top's where it has none.
fn spot_text(alloc: Global, command: &Command) -> Result<List<u8>, NoMemory>
    ensures { IfOk result (λ text. text ≡ codes "occ " ++ path_text (path_of command.now)) }
{
    let mut text = List::from_slice(alloc, b"occ")?;
    match command {
        Command::Place { path, .. } | Command::Unplace { path } => put_path(&mut text, path)?,
        _ => put_path(&mut text, &List::new(alloc))?,
    }
    Ok(text)
}

fn number_of(command: &Command) -> u32
    ensures { result ≡ number_of command.now }
{
    match command {
        Command::SetFanout { max, .. } => *max,
        Command::SetGrid { grid } => *grid,
        _ => 0,
    }
}

fn push_module(plain: &Plain, module: ModId, text: &mut List<u8>) -> Result<(), NoMemory>
    requires { IsSound plain.now }
    ensures { OnOk result (text.new ≡ text.old ++ module_word plain.now «module») }
{
    match module_of(plain, module) {
        None => push_id(module.0, text),
        Some(holder) => push_spelled(text, &holder.name),
    }
}

/// Puts an id that names nothing last.
fn push_id(id: u32, text: &mut List<u8>) -> Result<(), NoMemory>
    ensures { OnOk result (text.new ≡ text.old ++ name_or_number id None) }
{
    text.push(b'?')?;
    push_number(text, u64::from(id))
}
