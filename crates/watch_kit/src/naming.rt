ghost use Rattle.std.specs.Prelude.{◌≡◌, IfOk};
ghost use Rattle.flatten_rules.specs.Lookup.{module_of};
ghost use Rattle.flatten_rules.specs.Sound.{IsSound};
ghost use Rattle.watch_kit.specs.Split.{free_name, numbered};

use crate::reading::{is_name_in, name_count};
use emh_base::{List, ModId, Name, NoMemory, State, push_number};
use std::alloc::Global;

/// The stem with the first number from the counter up that makes a name that is free in a module.
pub fn free_name(
    alloc: Global,
    state: &State,
    id: ModId,
    stem: &[u8],
    counter: u32,
) -> Result<Name, NoMemory>
    requires { IsSound state.now.plain }
    ensures { IfOk result (λ name. name
        ≡ free_name (module_of state.now.plain id) stem.now counter) }
{
    let first = u64::from(counter);
    let end = first + name_count(&state.plain, id) + 1;
    for k in first..end {
        let name = numbered(alloc, stem, k)?;
        if !is_name_in(state, id, name.as_bytes()) {
            return Ok(name);
        }
    }
    named(alloc, stem)
}

/// A stem with a number behind it.
fn numbered(alloc: Global, stem: &[u8], k: u64) -> Result<Name, NoMemory>
    ensures { IfOk result (λ name. name ≡ numbered stem.now k) }
{
    let mut text = List::from_slice(alloc, stem)?;
    push_number(&mut text, k)?;
    named(alloc, text.as_slice())
}

/// The name of bytes that are fit for one.
fn named(alloc: Global, text: &[u8]) -> Result<Name, NoMemory>
    ensures { IfOk result (λ name. name ≡ text.now) }
{
    match Name::new(alloc, text) {
        Ok(name) => Ok(name),
        Err(_) => Err(NoMemory),
    }
}
