//! Occurrences are counted once a module, level by level: what a module counts down to one level more is told by what
//! the masters of its instances count.

ghost use Rattle.std.specs.Prelude.{◌≡◌, ℕ, ◌+◌, ◌<◌, ◌≤◌, None, Some, map, sum_by, AllPairs, IsTrue, IfOk};
ghost use Rattle.emh_base.specs.declared.plain.PInst.{PInst};
ghost use Rattle.emh_base.specs.declared.plain.PModule.{PModule};
ghost use Rattle.flatten_rules.specs.Bounds.{depth_limit};
ghost use Rattle.flatten_rules.specs.Lookup.{module_of};
ghost use Rattle.flatten_rules.specs.Counting.{total};
ghost use Rattle.flatten_rules.specs.inside.Levels.{weight_in, stopped, counted, level_of};

use crate::limits::{BIT_LIMIT, LEVELS};
use crate::lookup::{module_of, place_of_module};
use emh_base::{List, ModId, NoMemory, PInst, PModule, Plain};
use std::alloc::Global;

/// Numbers stop here: the greatest limit plus one.
pub const STOP: u64 = BIT_LIMIT + 1;

/// What each occurrence of a module counts.
pub trait Measure {
    ghost use Rattle.emh_base.specs.declared.ids.ModId.{ModId};
    ghost use Rattle.emh_base.specs.declared.plain.PModule.{PModule};
    ghost use Rattle.std.specs.Prelude.{Option};

    ghost weight: { Self → ModId → Option PModule → ℕ };

    /// What an occurrence of a module counts; it stops at the limit plus one.
    fn number(&self, holder: &PModule) -> u64
        ensures { result ≡ stopped (weight self.now holder.now.id (Some holder.now)) };

    /// What an occurrence of a module counts that isn't there.
    fn absent(&self, id: ModId) -> u64
        ensures { result ≡ stopped (weight self.now id None) };
}

/// What an occurrence of a module counts with all below it, down to the levels of the list.
fn value_at<X: Measure>(plain: &Plain, measure: &X, level: &[u64], levels: u64, id: ModId) -> u64
    requires rise { AllPairs (λ (a b : PModule). a.id.0 < b.id.0) plain.now.modules }
    requires known { level.now ≡ level_of (X.weight measure.now) plain.now levels }
    ensures { result ≡ counted (X.weight measure.now) plain.now levels id }
{
    match place_of_module(plain, id) {
        Some(place) => level[place],
        None => {
            if levels == 0 {
                return 0;
            }
            measure.absent(id)
        }
    }
}

/// What the masters of some instances count together.
fn sum_below<X: Measure>(
    plain: &Plain,
    measure: &X,
    level: &[u64],
    levels: u64,
    insts: &[PInst],
) -> u64
    requires rise { AllPairs (λ (a b : PModule). a.id.0 < b.id.0) plain.now.modules }
    requires known { level.now ≡ level_of (X.weight measure.now) plain.now levels }
    ensures { result ≡ stopped (sum_by (λ (inst : PInst).
        total (weight_in (X.weight measure.now) plain.now) plain.now inst.master levels) insts.now) }
{
    let mut sum = 0;
    for inst in insts {
        sum = (sum + value_at(plain, measure, level, levels, inst.master)).min(STOP);
    }
    sum
}

/// What an occurrence of a module counts down to one level more.
fn above<X: Measure>(
    plain: &Plain,
    measure: &X,
    level: &[u64],
    levels: u64,
    holder: &PModule,
) -> u64
    requires rise { AllPairs (λ (a b : PModule). a.id.0 < b.id.0) plain.now.modules }
    requires known { level.now ≡ level_of (X.weight measure.now) plain.now levels }
    requires there { module_of plain.now holder.now.id ≡ Some holder.now }
    ensures { result ≡ counted (X.weight measure.now) plain.now (levels + 1) holder.now.id }
{
    let below = sum_below(plain, measure, level, levels, holder.insts.as_slice());
    (measure.number(holder) + below).min(STOP)
}

/// The numbers of the modules down to one level more.
fn next_level<X: Measure>(
    alloc: Global,
    plain: &Plain,
    measure: &X,
    level: &[u64],
    levels: u64,
) -> Result<List<u64>, NoMemory>
    requires rise { AllPairs (λ (a b : PModule). a.id.0 < b.id.0) plain.now.modules }
    requires known { level.now ≡ level_of (X.weight measure.now) plain.now levels }
    ensures { IfOk result (λ made. made ≡ level_of (X.weight measure.now) plain.now (levels + 1)) }
{
    let mut made = List::new(alloc);
    for holder in plain.modules.as_slice() {
        made.push(above(plain, measure, level, levels, holder))?;
    }
    Ok(made)
}

/// What each module counts with all below it, down to the last level that matters. Once a level more changes nothing,
/// none does.
fn last_level<X: Measure>(alloc: Global, plain: &Plain, measure: &X) -> Result<List<u64>, NoMemory>
    requires rise { AllPairs (λ (a b : PModule). a.id.0 < b.id.0) plain.now.modules }
    ensures { IfOk result (λ made. made ≡ level_of (X.weight measure.now) plain.now (depth_limit + 1)) }
{
    let mut level = no_level(alloc, plain)?;
    for levels in 0..LEVELS {
        let more = next_level(alloc, plain, measure, level.as_slice(), levels)?;
        if 0 < levels && are_same(more.as_slice(), level.as_slice()) {
            return Ok(level);
        }
        level = more;
    }
    Ok(level)
}

/// Whether two levels have the same numbers.
pub fn are_same(more: &[u64], level: &[u64]) -> bool
    ensures { IsTrue result → more.now ≡ level.now }
{
    more == level
}

/// What each module counts down to no level.
pub fn no_level(alloc: Global, plain: &Plain) -> Result<List<u64>, NoMemory>
    ensures { IfOk result (λ made. made ≡ map (λ (m : PModule). 0) plain.now.modules) }
{
    let mut made = List::new(alloc);
    for holder in plain.modules.as_slice() {
        made.push(nothing(holder))?;
    }
    Ok(made)
}

/// What a module counts down to no level.
fn nothing(_: &PModule) -> u64
    ensures { result ≡ 0 }
{
    0
}

/// What an occurrence of a module counts with all below it.
pub fn count<X: Measure>(
    alloc: Global,
    plain: &Plain,
    measure: &X,
    top: ModId,
) -> Result<u64, NoMemory>
    requires rise { AllPairs (λ (a b : PModule). a.id.0 < b.id.0) plain.now.modules }
    ensures { IfOk result (λ number. number ≡ counted (X.weight measure.now) plain.now (depth_limit + 1) top) }
{
    let level = last_level(alloc, plain, measure)?;
    Ok(value_at(plain, measure, level.as_slice(), LEVELS, top))
}

/// What an occurrence of a module counts with all below it, down to so many levels, walked through. It takes no memory.
pub fn below<X: Measure>(plain: &Plain, measure: &X, id: ModId, levels: u64) -> u64
    requires { AllPairs (λ (a b : PModule). a.id.0 < b.id.0) plain.now.modules }
    ensures { result ≡ counted (X.weight measure.now) plain.now levels id }
{
    if levels == 0 {
        return 0;
    }
    match module_of(plain, id) {
        None => measure.absent(id),
        Some(holder) => {
            let mut sum = 0;
            for inst in holder.insts.as_slice() {
                sum = (sum + below(plain, measure, inst.master, levels - 1)).min(STOP);
            }
            (measure.number(holder) + sum).min(STOP)
        }
    }
}
