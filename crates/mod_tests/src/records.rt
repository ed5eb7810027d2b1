//! Records of edits, each with what is read of the table after it.
ghost use Rattle.std.specs.Prelude.{◌≡◌, [], false, IfOk, OnOk};

use crate::making::make_all;
use crate::shown::shown;
use emh_base::NoMemory;
use mod_core::Mods;
use samples::asks::Ask;
use std::alloc::Global;
use std::process::Abort;
use std::test::Fail;

#[derive(Clone, Copy)]
pub enum Step {
    /// A record of these edits.
    Does(&'static [Ask]),
    /// The same, but abandoned. This is read of the table before that.
    Abandons(&'static [Ask], &'static str),
    Undo,
    Redo,
    Forget,
}

/// A step, what is read of the table after it, and how many tables are remembered and to redo.
pub type Taken = (Step, &'static str, usize, usize);

/// A record's edits, and what is read of the table after it.
pub type Record = (&'static [Ask], &'static str);

/// Takes steps from a table without modules.
pub fn plays(rt: &impl Abort, alloc: Global, steps: &[Taken]) -> Result<(), Fail> {
    let mut mods = Mods::new(alloc)?;
    for taken in steps {
        let (step, text, past, future) = *taken;
        take(rt, alloc, &mut mods, step)?;
        reads(rt, alloc, &mods, text, past, future)?;
    }
    Ok(())
}

fn take(rt: &impl Abort, alloc: Global, mods: &mut Mods, step: Step) -> Result<(), Fail>
    requires { mods.old.table.is_open ≡ false }
    ensures { OnOk result (mods.new.table.is_open ≡ false) }
{
    match step {
        Step::Does(asks) => record(rt, alloc, mods, asks)?,
        Step::Abandons(asks, text) => abandon(rt, alloc, mods, asks, text)?,
        Step::Undo => undo(rt, mods),
        Step::Redo => redo(rt, mods),
        Step::Forget => {
            assert!(rt; mods.past_len() > 0);
            mods.forget();
        }
    }
    Ok(())
}

fn record(rt: &impl Abort, alloc: Global, mods: &mut Mods, asks: &[Ask]) -> Result<(), NoMemory>
    requires { mods.old.table.is_open ≡ false }
    ensures { OnOk result (mods.new.table.is_open ≡ false) }
{
    mods.reserve(0, 1)?;
    mods.begin();
    make_all(rt, alloc, mods, asks)?;
    mods.commit();
    Ok(())
}

fn abandon(
    rt: &impl Abort,
    alloc: Global,
    mods: &mut Mods,
    asks: &[Ask],
    text: &str,
) -> Result<(), Fail>
    requires { mods.old.table.is_open ≡ false }
    ensures { OnOk result (mods.new.table.is_open ≡ false) }
{
    mods.reserve(0, 1)?;
    mods.begin();
    make_all(rt, alloc, mods, asks)?;
    assert_eq!(rt; shown(alloc, mods)?.as_str(), text);
    mods.abandon();
    Ok(())
}

fn undo(rt: &impl Abort, mods: &mut Mods)
    requires { mods.old.table.is_open ≡ false }
    ensures { mods.new.table.is_open ≡ false }
{
    assert!(rt; mods.past_len() > 0);
    mods.undo();
}

fn redo(rt: &impl Abort, mods: &mut Mods)
    requires { mods.old.table.is_open ≡ false }
    ensures { mods.new.table.is_open ≡ false }
{
    assert!(rt; mods.future_len() > 0);
    mods.redo();
}

fn reads(
    rt: &impl Abort,
    alloc: Global,
    mods: &Mods,
    text: &str,
    past: usize,
    future: usize,
) -> Result<(), Fail> {
    assert_eq!(rt; shown(alloc, mods)?.as_str(), text);
    assert_eq!(rt; (mods.past_len(), mods.future_len()), (past, future));
    Ok(())
}

/// Makes each record in a table without modules, and undoes and redoes all of them.
pub fn goes_back_and_forth(rt: &impl Abort, alloc: Global, records: &[Record]) -> Result<(), Fail> {
    let mut mods = Mods::new(alloc)?;
    makes(rt, alloc, &mut mods, records)?;
    undoes(rt, alloc, &mut mods, records)?;
    redoes(rt, alloc, &mut mods, records)
}

fn makes(rt: &impl Abort, alloc: Global, mods: &mut Mods, records: &[Record]) -> Result<(), Fail>
    requires { mods.old.table.is_open ≡ false }
    ensures { OnOk result (mods.new.table.is_open ≡ false) }
{
    for place in 0..records.len() {
        let (asks, text) = records[place];
        record(rt, alloc, mods, asks)?;
        reads(rt, alloc, mods, text, place + 1, 0)?;
    }
    Ok(())
}

fn undoes(rt: &impl Abort, alloc: Global, mods: &mut Mods, records: &[Record]) -> Result<(), Fail>
    requires { mods.old.table.is_open ≡ false }
    ensures { OnOk result (mods.new.table.is_open ≡ false) }
{
    for undone in 0..records.len() {
        let place = records.len() - 1 - undone;
        let (_, text) = records[place];
        reads(rt, alloc, mods, text, place + 1, undone)?;
        undo(rt, mods);
    }
    reads(rt, alloc, mods, "0", 0, records.len())
}

fn redoes(rt: &impl Abort, alloc: Global, mods: &mut Mods, records: &[Record]) -> Result<(), Fail>
    requires { mods.old.table.is_open ≡ false }
{
    for place in 0..records.len() {
        let (_, text) = records[place];
        redo(rt, mods);
        reads(rt, alloc, mods, text, place + 1, records.len() - 1 - place)?;
    }
    Ok(())
}
