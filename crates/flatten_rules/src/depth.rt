//! How long walks of instances are, once a module, level by level.

ghost use Rattle.std.specs.Prelude.{◌≡◌, ◌+◌, ◌<◌, ◌≤◌, nat_lt, Some, AllPairs, IfOk};
ghost use Rattle.emh_base.specs.declared.plain.PInst.{PInst};
ghost use Rattle.emh_base.specs.declared.plain.PModule.{PModule};
ghost use Rattle.flatten_rules.specs.Bounds.{depth_limit};
ghost use Rattle.flatten_rules.specs.Lookup.{module_of};
ghost use Rattle.flatten_rules.specs.Counting.{height, greatest_by};
ghost use Rattle.flatten_rules.specs.Limits.{is_too_deep};
ghost use Rattle.flatten_rules.specs.inside.Levels.{heights};
ghost use Rattle.std.specs.List.{list_any};

use crate::count::{are_same, no_level};
use crate::limits::{DEPTH_LIMIT, LEVELS};
use crate::lookup::place_of_module;
use emh_base::{List, ModId, NoMemory, PInst, PModule, Plain};
use std::alloc::Global;

/// The height of a module, down to the levels of the list.
fn height_at(plain: &Plain, level: &[u64], levels: u64, id: ModId) -> u64
    requires rise { AllPairs (λ (a b : PModule). a.id.0 < b.id.0) plain.now.modules }
    requires known { level.now ≡ heights plain.now levels }
    ensures value { result ≡ height plain.now id levels }
    ensures low { result ≤ levels }
{
    match place_of_module(plain, id) {
        Some(place) => level[place],
        None => 0,
    }
}

/// The length of the longest walk that begins with one of the instances.
fn highest_below(plain: &Plain, level: &[u64], levels: u64, insts: &[PInst]) -> u64
    requires rise { AllPairs (λ (a b : PModule). a.id.0 < b.id.0) plain.now.modules }
    requires known { level.now ≡ heights plain.now levels }
    requires few { levels ≤ depth_limit }
    ensures { result ≡ greatest_by (λ (inst : PInst). height plain.now inst.master levels + 1) insts.now }
{
    let mut highest = 0;
    for inst in insts {
        highest = (height_at(plain, level, levels, inst.master) + 1).max(highest);
    }
    highest
}

/// The height of a module, down to one level more.
fn above(plain: &Plain, level: &[u64], levels: u64, holder: &PModule) -> u64
    requires rise { AllPairs (λ (a b : PModule). a.id.0 < b.id.0) plain.now.modules }
    requires known { level.now ≡ heights plain.now levels }
    requires few { levels ≤ depth_limit }
    requires there { module_of plain.now holder.now.id ≡ Some holder.now }
    ensures { result ≡ height plain.now holder.now.id (levels + 1) }
{
    highest_below(plain, level, levels, holder.insts.as_slice())
}

/// The heights of the modules, down to one level more.
fn next_level(
    alloc: Global,
    plain: &Plain,
    level: &[u64],
    levels: u64,
) -> Result<List<u64>, NoMemory>
    requires rise { AllPairs (λ (a b : PModule). a.id.0 < b.id.0) plain.now.modules }
    requires known { level.now ≡ heights plain.now levels }
    requires few { levels ≤ depth_limit }
    ensures { IfOk result (λ made. made ≡ heights plain.now (levels + 1)) }
{
    let mut made = List::new(alloc);
    for holder in plain.modules.as_slice() {
        made.push(above(plain, level, levels, holder))?;
    }
    Ok(made)
}

/// The heights of the modules, as far as they matter. Once a level more changes nothing, none does.
fn last_level(alloc: Global, plain: &Plain) -> Result<List<u64>, NoMemory>
    requires { AllPairs (λ (a b : PModule). a.id.0 < b.id.0) plain.now.modules }
    ensures { IfOk result (λ made. made ≡ heights plain.now (depth_limit + 1)) }
{
    let mut level = no_level(alloc, plain)?;
    for levels in 0..LEVELS {
        let more = next_level(alloc, plain, level.as_slice(), levels)?;
        if are_same(more.as_slice(), level.as_slice()) {
            return Ok(level);
        }
        level = more;
    }
    Ok(level)
}

/// Whether some walk of instances, from whichever module, has more than 256.
pub fn is_too_deep(alloc: Global, plain: &Plain) -> Result<bool, NoMemory>
    requires { AllPairs (λ (a b : PModule). a.id.0 < b.id.0) plain.now.modules }
    ensures { IfOk result (λ deep. deep ≡ is_too_deep plain.now) }
{
    let level = last_level(alloc, plain)?;
    Ok(is_any_high(level.as_slice()))
}

fn is_any_high(level: &[u64]) -> bool
    ensures { result ≡ list_any (λ high. nat_lt depth_limit high) level.now }
{
    level.iter().any(|high| DEPTH_LIMIT < *high)
}
