//! Bits of nets that are selected by index, and how many bits an expression has.
ghost use Rattle.std.specs.Prelude.{◌≡◌, ◌==◌, ◌≤◌, ◌^◌, sum_by};
ghost use Rattle.flatten_rules.specs.Lookup.{width};
ghost use Rattle.vlog_elab.specs.Connections.{has_index, runs_against, has_indices, part_width};

use crate::names::Names;
use crate::scope::{Net, net_range};
use emh_base::Range;
use vlog_read::Part;

/// Whether an index is one of a range's.
pub fn has_index(range: Option<Range>, index: u32) -> bool
    ensures { result ≡ has_index range index }
{
    let Some(range) = range else {
        return false;
    };
    (range.left <= index && index <= range.right) || (range.right <= index && index <= range.left)
}

/// Whether one of two ranges falls, and the other rises.
fn runs_against(range: Range, select: Range) -> bool
    ensures { result ≡ runs_against range select }
{
    (range.right < range.left && select.left < select.right)
        || (range.left < range.right && select.right < select.left)
}

/// Whether the bits of a part select are a range's, and stand in its direction.
pub fn has_indices(range: Option<Range>, select: Range) -> bool
    ensures { result ≡ has_indices range select }
{
    let Some(bus) = range else {
        return false;
    };
    if !has_index(range, select.left) {
        return false;
    }
    if !has_index(range, select.right) {
        return false;
    }
    !runs_against(bus, select)
}

/// How many bits a net with a range has: at most 2^32.
pub fn width(range: Option<Range>) -> u64
    ensures value { result ≡ width range }
    ensures fits { result ≤ 2 ^ 32 }
{
    match range {
        None => 1,
        Some(range) => u64::from(range.left.abs_diff(range.right)) + 1,
    }
}

/// How many bits a part of an expression has.
fn part_width(nets: &Names<'_, Net>, part: &Part) -> u64
    ensures { result ≡ part_width nets.now part.now }
{
    match part {
        Part::Name(token) => width(net_range(nets, &token.name)),
        Part::Bit(_, _) => 1,
        Part::Bits(_, range) => width(Some(*range)),
        Part::Lit { size, .. } => u64::from(*size),
    }
}

/// Whether an expression has as many bits as a range.
pub fn fits(nets: &Names<'_, Net>, parts: &[Part], range: Option<Range>) -> bool
    ensures { result ≡ (sum_by (part_width nets.now) parts.now == width range) }
{
    let mut left = width(range);
    for part in parts {
        let bits = part_width(nets, part);
        if left < bits {
            return false;
        }
        left -= bits;
    }
    left == 0
}
