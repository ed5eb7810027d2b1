//! The limits of a table, and how far a top unfolds.

ghost use Rattle.std.specs.Prelude.{◌≡◌, ◌↔◌, ◌==◌, ◌<◌, Some, length, sum_by, AllPairs, IsTrue, IfOk, if◌then◌else◌};
ghost use Rattle.emh_base.specs.declared.plain.PNet.{PNet};
ghost use Rattle.emh_base.specs.declared.plain.PModule.{PModule};
ghost use Rattle.flatten_rules.specs.Lookup.{width};
ghost use Rattle.flatten_rules.specs.Unfolding.{occurrences};
ghost use Rattle.flatten_rules.specs.Sound.{IsSound};
ghost use Rattle.flatten_rules.specs.Limits.{IsWithin, bits_of, bits_below, times_below, has_too_many_occurrences, has_too_many_bits, leads_to};
ghost use Rattle.flatten_rules.specs.inside.Levels.{stopped};

use crate::count::{Measure, STOP, below, count};
use crate::depth::is_too_deep;
use emh_base::{ModId, NoMemory, PModule, Plain, Range};
use std::alloc::Global;

/// The most instances that a walk down from a module may have. This project's own limit, as the next two are. The
/// contracts don't cite these numbers, but those of the definitions.
pub const DEPTH_LIMIT: u64 = 256;

/// The most occurrences that a top may unfold to, itself among them.
pub const OCCURRENCE_LIMIT: u64 = 1_000_000;

/// The most net bits that these occurrences may have together. Those of leaves aren't counted.
pub const BIT_LIMIT: u64 = 4_000_000;

/// How many levels of modules a walk within the limit goes over.
pub(crate) const LEVELS: u64 = DEPTH_LIMIT + 1;

/// Whether a sound table is within the limits at a top: walks of at most 256 instances, from whichever module, and at
/// most 1,000,000 occurrences, the top among them, with 4,000,000 net bits. Modules are counted and not their
/// occurrences, so a table that would unfold to far more is refused as fast.
pub fn is_within(alloc: Global, plain: &Plain, top: ModId) -> Result<bool, NoMemory>
    requires { IsSound plain.now }
    ensures { IfOk result (λ within. IsTrue within ↔ IsWithin plain.now top) }
{
    if is_too_deep(alloc, plain)? {
        return Ok(false);
    }
    if has_too_many_occurrences(alloc, plain, top)? {
        return Ok(false);
    }
    Ok(!has_too_many_bits(alloc, plain, top)?)
}

/// Each occurrence counts as one.
#[derive(Clone, Copy)]
pub struct Occurrences {}

impl Measure for Occurrences {
    ghost weight = { λ _ _ _. 1 };

    fn number(&self, _: &PModule) -> u64 {
        1
    }

    fn absent(&self, _: ModId) -> u64 {
        1
    }
}

/// An occurrence counts its net bits, a leaf none.
#[derive(Clone, Copy)]
pub struct NetBits {}

impl Measure for NetBits {
    ghost use Rattle.flatten_rules.specs.Limits.{bits_of};

    ghost weight = { λ _ _ m. bits_of m };

    fn number(&self, holder: &PModule) -> u64 {
        net_bits(holder)
    }

    fn absent(&self, _: ModId) -> u64 {
        0
    }
}

/// An occurrence of the one module counts as one, of another as none.
#[derive(Clone, Copy)]
pub struct Of {
    pub id: ModId,
}

impl Measure for Of {
    ghost use Rattle.std.specs.Prelude.{◌==◌, if◌then◌else◌};

    ghost weight = { λ of m _. if m.0 == of.id.0 then 1 else 0 };

    fn number(&self, holder: &PModule) -> u64 {
        one_if(holder.id.0 == self.id.0)
    }

    fn absent(&self, id: ModId) -> u64 {
        one_if(id.0 == self.id.0)
    }
}

fn one_if(test: bool) -> u64
    ensures { result ≡ stopped (if test then 1 else 0) }
{
    if test { 1 } else { 0 }
}

/// The net bits of an occurrence of a module, none for a leaf. They stop at the limit plus one.
fn net_bits(holder: &PModule) -> u64
    ensures { result ≡ stopped (bits_of (Some holder.now)) }
{
    if holder.leaf {
        return 0;
    }
    bits_of_nets(holder)
}

fn bits_of_nets(holder: &PModule) -> u64
    ensures { result ≡ stopped (sum_by (λ (net : PNet). width net.range) holder.now.nets) }
{
    let mut bits = 0;
    for net in holder.nets.as_slice() {
        bits = (bits + width_of(net.range)).min(STOP);
    }
    bits
}

fn width_of(range: Option<Range>) -> u64
    ensures value { result ≡ width range }
    ensures small { result < 4294967297 }
{
    match range {
        None => 1,
        Some(range) => u64::from(range.left.abs_diff(range.right)) + 1,
    }
}

/// Whether a top unfolds to more than 1,000,000 occurrences.
pub fn has_too_many_occurrences(alloc: Global, plain: &Plain, top: ModId) -> Result<bool, NoMemory>
    requires { AllPairs (λ (a b : PModule). a.id.0 < b.id.0) plain.now.modules }
    ensures { IfOk result (λ many. many ≡ has_too_many_occurrences plain.now top) }
{
    let occurrences = count(alloc, plain, &Occurrences {}, top)?;
    Ok(OCCURRENCE_LIMIT < occurrences)
}

/// Whether the occurrences of a top have more than 4,000,000 net bits together.
pub fn has_too_many_bits(alloc: Global, plain: &Plain, top: ModId) -> Result<bool, NoMemory>
    requires { AllPairs (λ (a b : PModule). a.id.0 < b.id.0) plain.now.modules }
    ensures { IfOk result (λ many. many ≡ has_too_many_bits plain.now top) }
{
    let bits = count(alloc, plain, &NetBits {}, top)?;
    Ok(BIT_LIMIT < bits)
}

/// Whether a walk of instances down from the one module leads to the other, or they are the same.
pub fn leads_to(alloc: Global, plain: &Plain, from: ModId, to: ModId) -> Result<bool, NoMemory>
    requires { AllPairs (λ (a b : PModule). a.id.0 < b.id.0) plain.now.modules }
    ensures { IfOk result (λ leads. leads ≡ leads_to plain.now from to) }
{
    let times = count(alloc, plain, &Of { id: to }, from)?;
    Ok(0 < times)
}

/// How many occurrences a top within the limits unfolds to, itself among them. They are walked through, which takes no
/// memory.
pub fn occurrence_count(plain: &Plain, top: ModId) -> u64
    requires rise { AllPairs (λ (a b : PModule). a.id.0 < b.id.0) plain.now.modules }
    requires within { IsWithin plain.now top }
    ensures { result ≡ length (occurrences plain.now top) }
{
    below(plain, &Occurrences {}, top, LEVELS)
}

/// How many net bits these occurrences have together.
pub fn net_bit_count(plain: &Plain, top: ModId) -> u64
    requires rise { AllPairs (λ (a b : PModule). a.id.0 < b.id.0) plain.now.modules }
    requires within { IsWithin plain.now top }
    ensures { result ≡ bits_below plain.now top }
{
    below(plain, &NetBits {}, top, LEVELS)
}

/// How many of these occurrences are of one module.
pub fn times_below(plain: &Plain, top: ModId, id: ModId) -> u64
    requires rise { AllPairs (λ (a b : PModule). a.id.0 < b.id.0) plain.now.modules }
    requires within { IsWithin plain.now top }
    ensures { result ≡ times_below plain.now top id }
{
    below(plain, &Of { id }, top, LEVELS)
}
