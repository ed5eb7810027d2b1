//! Edits of a kept table, each by its method. What a method asks for is read first.
ghost use Rattle.std.specs.Prelude.{◌≡◌, ◌<◌, ◌≤◌, length, true, OnOk, IfOk};

use emh_base::{Dir, InstId, ModId, NetId, NoMemory};
use mod_core::Mods;
use samples::asks::Ask;
use samples::modules::{Ends, name_of, range_of};
use std::alloc::Global;
use std::process::Abort;

/// The number that a name has, or gets.
pub fn number_of(
    rt: &impl Abort,
    alloc: Global,
    mods: &mut Mods,
    text: &str,
) -> Result<usize, NoMemory>
    ensures number { IfOk result (λ number. number < length mods.new.names) }
    ensures table { mods.new.table ≡ mods.old.table }
{
    let number = mods.number(name_of(alloc, text)?)?;
    assert_eq!(rt; mods.find(text.as_bytes()), Some(number));
    Ok(number)
}

/// Makes edits in the open record.
pub fn make_all(
    rt: &impl Abort,
    alloc: Global,
    mods: &mut Mods,
    asks: &[Ask],
) -> Result<(), NoMemory>
    requires { mods.old.table.is_open ≡ true }
    ensures { OnOk result (mods.new.table.is_open ≡ true) }
{
    for ask in asks {
        make(rt, alloc, mods, *ask)?;
    }
    Ok(())
}

fn make(rt: &impl Abort, alloc: Global, mods: &mut Mods, ask: Ask) -> Result<(), NoMemory>
    requires { mods.old.table.is_open ≡ true }
    ensures { OnOk result (mods.new.table.is_open ≡ true) }
{
    match ask {
        Ask::CreateModule(text)
        | Ask::RenameModule(_, text)
        | Ask::CreateNet(_, text, _)
        | Ask::RenameNet(_, _, text)
        | Ask::CreatePort(_, text, _, _)
        | Ask::CreateInst(_, text, _)
        | Ask::RenameInst(_, _, text) => {
            let name = number_of(rt, alloc, mods, text)?;
            mods.reserve(1, 4)?;
            give_name(rt, mods, ask, name);
        }
        _ => {
            mods.reserve(0, 6)?;
            change(rt, mods, ask);
        }
    }
    Ok(())
}

/// An edit that gives a name.
fn give_name(rt: &impl Abort, mods: &mut Mods, ask: Ask, name: usize)
    requires open { mods.old.table.is_open ≡ true }
    requires room { 1 ≤ mods.old.table.spare_rows }
    requires spare { 4 ≤ mods.old.table.spare_writes }
    requires name { name < length mods.old.names }
    ensures { mods.new.table.is_open ≡ true }
{
    match ask {
        Ask::CreateModule(_) => {
            assert!(rt; mods.next_module() < u32::MAX);
            mods.create_module(name);
        }
        Ask::RenameModule(module, _) => {
            assert!(rt; mods.is_module(ModId(module)));
            mods.rename_module(ModId(module), name);
        }
        Ask::RenameNet(module, net, _) => {
            assert!(rt; mods.net_name(ModId(module), NetId(net)).is_some());
            mods.rename_net(ModId(module), NetId(net), name);
        }
        Ask::CreateNet(module, _, ends) => create_net(rt, mods, ModId(module), name, None, ends),
        Ask::CreatePort(module, _, dir, ends) => {
            create_net(rt, mods, ModId(module), name, Some(dir), ends);
        }
        Ask::RenameInst(module, inst, _) => {
            assert!(rt; mods.is_inst(ModId(module), InstId(inst)));
            mods.rename_inst(ModId(module), InstId(inst), name);
        }
        Ask::CreateInst(module, _, master) => {
            create_inst(rt, mods, ModId(module), name, ModId(master));
        }
        _ => panic!(rt; "no name is given"),
    }
}

/// A new net, with a port on it where there is a direction.
fn create_net(
    rt: &impl Abort,
    mods: &mut Mods,
    module: ModId,
    name: usize,
    dir: Option<Dir>,
    ends: Option<Ends>,
)
    requires open { mods.old.table.is_open ≡ true }
    requires room { 1 ≤ mods.old.table.spare_rows }
    requires spare { 4 ≤ mods.old.table.spare_writes }
    requires name { name < length mods.old.names }
    ensures { mods.new.table.is_open ≡ true }
{
    let next = mods.next_net(module);
    assert!(rt; next.is_some());
    assert!(rt; next != Some(u32::MAX));
    match dir {
        Some(dir) => mods.create_port(module, name, dir, range_of(ends)),
        None => mods.create_net(module, name, range_of(ends)),
    }
}

/// A new instance.
fn create_inst(rt: &impl Abort, mods: &mut Mods, module: ModId, name: usize, master: ModId)
    requires open { mods.old.table.is_open ≡ true }
    requires room { 1 ≤ mods.old.table.spare_rows }
    requires spare { 4 ≤ mods.old.table.spare_writes }
    requires name { name < length mods.old.names }
    ensures { mods.new.table.is_open ≡ true }
{
    let next = mods.next_inst(module);
    assert!(rt; next.is_some());
    assert!(rt; next != Some(u32::MAX));
    assert!(rt; mods.is_module(master));
    mods.create_inst(module, name, master);
}

/// An edit that gives no name.
fn change(rt: &impl Abort, mods: &mut Mods, ask: Ask)
    requires open { mods.old.table.is_open ≡ true }
    requires spare { 6 ≤ mods.old.table.spare_writes }
    ensures { mods.new.table.is_open ≡ true }
{
    match ask {
        Ask::DeleteModule(module) => {
            assert!(rt; mods.is_empty_module(ModId(module)));
            assert!(rt; !mods.is_used(ModId(module)));
            mods.delete_module(ModId(module));
        }
        Ask::Lock(module) => {
            assert!(rt; mods.is_module(ModId(module)));
            mods.with_lock(ModId(module), true);
        }
        Ask::Unlock(module) => {
            assert!(rt; mods.is_module(ModId(module)));
            mods.with_lock(ModId(module), false);
        }
        Ask::DeleteNet(module, net) => {
            assert!(rt; mods.net_name(ModId(module), NetId(net)).is_some());
            assert!(rt; mods.port_dir(ModId(module), NetId(net)).is_none());
            mods.delete_net(ModId(module), NetId(net));
        }
        Ask::DeletePort(module, net) => {
            assert!(rt; mods.port_dir(ModId(module), NetId(net)).is_some());
            mods.delete_port(ModId(module), NetId(net));
        }
        Ask::DeleteInst(module, inst) => {
            assert!(rt; mods.is_inst(ModId(module), InstId(inst)));
            mods.delete_inst(ModId(module), InstId(inst));
        }
        _ => panic!(rt; "no edit of a kept table"),
    }
}
