ghost use Rattle.std.specs.Prelude.{IsTrue, IfOk};
ghost use Rattle.flatten_rules.specs.Lookup.{module_of};
ghost use Rattle.flatten_rules.specs.Design.{IsInner};
ghost use Rattle.flatten_rules.specs.Sound.{IsSound};

use crate::made::{MADE, MADE_WRITTEN};
use crate::sources::SOURCES;
use emh_base::{FILE_LIMIT, List, ModId, NoMemory, Plain};
use flatten_rules::{flat_lines, is_sound, is_within, module_of};
use samples::designs::state_of;
use std::alloc::Global;
use std::str::from_utf8;
use std::test::Fail;
use vlog_elab::read_netlist;
use vlog_write::{write_cells, write_modules};

/// The table of a netlist.
fn read(alloc: Global, text: &[u8]) -> Result<Plain, Fail>
    ensures { IfOk result IsSound }
{
    let none = Plain {
        modules: List::new(alloc),
        next_module: 0,
    };
    is_sound(alloc, &none)?
        .then_some(())
        .ok_or("no sound table")?;
    match read_netlist(alloc, &none, &text[..text.len().min(FILE_LIMIT)], false) {
        Ok(made) => Ok(made),
        Err(fault) => Err(fault.into()),
    }
}

/// What is written of a table.
fn written(plain: &Plain) -> Result<List<u8>, NoMemory>
    requires { IsSound plain.now }
{
    let mut text = write_cells(plain)?;
    text.extend(write_modules(plain)?.as_slice())?;
    Ok(text)
}

/// The flat netlist at the module of a name, with a newline after each line.
fn flattened(alloc: Global, plain: &Plain, top: &[u8]) -> Result<List<u8>, Fail>
    requires { IsSound plain.now }
{
    let Some(top) = id_of(plain, top) else {
        return Err("no top".into());
    };
    if !is_inner(plain, top) || !is_within(alloc, plain, top)? {
        return Err("no design".into());
    }
    let mut text = List::new(alloc);
    for line in flat_lines(alloc, plain, top)?.as_slice() {
        text.extend(line.as_slice())?;
        text.push(b'\n')?;
    }
    Ok(text)
}

fn id_of(plain: &Plain, name: &[u8]) -> Option<ModId> {
    for holder in plain.modules.as_slice() {
        if holder.name.as_bytes() == name {
            return Some(holder.id);
        }
    }
    None
}

fn is_inner(plain: &Plain, id: ModId) -> bool
    requires { IsSound plain.now }
    ensures { IsTrue result → IsInner (module_of plain.now id) }
{
    match module_of(plain, id) {
        Some(holder) => !holder.leaf,
        None => false,
    }
}

#[test]
fn netlists_are_written_and_read_again(rt: HostRuntime) -> Result<(), Fail> {
    for source in SOURCES {
        let netlist = source.netlist(rt.alloc())?;
        let table = read(rt.alloc(), netlist.as_slice())?;
        let text = written(&table)?;
        assert_eq!(rt; from_utf8(text.as_slice())?, source.written);
        let again = read(rt.alloc(), text.as_slice())?;
        let lines = flattened(rt.alloc(), &table, source.top)?;
        let lines_again = flattened(rt.alloc(), &again, source.top)?;
        assert_eq!(rt;
            from_utf8(lines_again.as_slice())?,
            from_utf8(lines.as_slice())?
        );
        let text_again = written(&again)?;
        assert_eq!(rt; from_utf8(text_again.as_slice())?, source.written);
    }
    Ok(())
}

/// Ids, counters and locks aren't written: a table with gaps in all of them reads back with none.
#[test]
fn ids_and_locks_are_not_written(rt: HostRuntime) -> Result<(), Fail> {
    let made = state_of(rt.alloc(), &MADE)?.plain;
    assert!(rt; is_sound(rt.alloc(), &made)?);
    let text = written(&made)?;
    assert_eq!(rt; from_utf8(text.as_slice())?, MADE_WRITTEN);
    let again = read(rt.alloc(), text.as_slice())?;
    let lines = flattened(rt.alloc(), &made, b"held")?;
    let lines_again = flattened(rt.alloc(), &again, b"held")?;
    assert_eq!(rt;
        from_utf8(lines_again.as_slice())?,
        from_utf8(lines.as_slice())?
    );
    for (at, holder) in again.modules.as_slice().iter().enumerate() {
        assert!(rt; holder.id.0 as usize == at && !holder.locked);
    }
    Ok(())
}
