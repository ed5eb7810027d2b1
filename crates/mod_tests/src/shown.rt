//! What is read of a kept table, as a line of text.
use emh_base::{Dir, InstId, ModId, NetId, Range};
use mod_core::Mods;
use std::alloc::Global;
use std::fmt::Write;
use std::str::from_utf8;
use std::test::Fail;

/// The modules in order of id, and the id of the next one, as `0 top (0 a[3:0] input) (2 w) 3 [0 u of 2] 1; 2 z locked
/// used empty 0; 3`. Behind a module's nets stands the id of its next net, and behind its instances, where it has had any,
/// that of its next instance. `used` says that an instance of it stands somewhere.
pub fn shown(alloc: Global, mods: &Mods) -> Result<String, Fail> {
    let mut text = String::new(alloc);
    for id in 0..mods.next_module() {
        if mods.is_module(ModId(id)) {
            show_module(&mut text, mods, ModId(id))?;
        }
    }
    write!(text, "{}", mods.next_module())?;
    Ok(text)
}

fn show_module(text: &mut String, mods: &Mods, id: ModId) -> Result<(), Fail> {
    let name = mods.module_name(id).ok_or("no name")?;
    write!(text, "{} {}", id.0, from_utf8(name.as_bytes())?)?;
    if mods.is_leaf(id).ok_or("no leaf")? {
        write!(text, " leaf")?;
    }
    if mods.is_locked(id).ok_or("no lock")? {
        write!(text, " locked")?;
    }
    if mods.is_used(id) {
        write!(text, " used")?;
    }
    if mods.is_empty_module(id) {
        write!(text, " empty")?;
    }
    show_nets(text, mods, id)?;
    show_insts(text, mods, id)?;
    write!(text, "; ")?;
    Ok(())
}

fn show_nets(text: &mut String, mods: &Mods, id: ModId) -> Result<(), Fail> {
    let next = mods.next_net(id).ok_or("no counter")?;
    write!(text, " ")?;
    for net in 0..next {
        show_net(text, mods, id, NetId(net))?;
    }
    write!(text, "{next}")?;
    Ok(())
}

fn show_net(text: &mut String, mods: &Mods, id: ModId, net: NetId) -> Result<(), Fail> {
    let Some(name) = mods.net_name(id, net) else {
        return Ok(());
    };
    write!(text, "({} {}", net.0, from_utf8(name.as_bytes())?)?;
    if let Some(Range { left, right }) = mods.net_range(id, net).ok_or("no net")? {
        write!(text, "[{left}:{right}]")?;
    }
    match mods.port_dir(id, net) {
        Some(Dir::Input) => write!(text, " input) ")?,
        Some(Dir::Output) => write!(text, " output) ")?,
        Some(Dir::Inout) => write!(text, " inout) ")?,
        None => write!(text, ") ")?,
    }
    Ok(())
}

fn show_insts(text: &mut String, mods: &Mods, id: ModId) -> Result<(), Fail> {
    let next = mods.next_inst(id).ok_or("no counter")?;
    for inst in 0..next {
        show_inst(text, mods, id, InstId(inst))?;
    }
    if next > 0 {
        write!(text, " {next}")?;
    }
    Ok(())
}

fn show_inst(text: &mut String, mods: &Mods, id: ModId, inst: InstId) -> Result<(), Fail> {
    let Some(name) = mods.inst_name(id, inst) else {
        return Ok(());
    };
    let master = mods.inst_master(id, inst).ok_or("no master")?;
    let name = from_utf8(name.as_bytes())?;
    write!(text, " [{} {name} of {}]", inst.0, master.0)?;
    Ok(())
}
