ghost use Rattle.std.specs.Prelude.{◌≡◌, ◌≤◌, vec_len, vec_capacity, OnOk};
ghost use Rattle.std.specs.VecDeque.{deque_len, deque_capacity};
ghost use Rattle.timeline.specs.History.{marks};

use crate::memory::NoMemory;
use crate::steps::{Step, Swap};
use std::collections::VecDeque;

/// Makes room for so many steps in each list.
pub(crate) fn make_room<K: Copy, V: Copy>(
    past: &mut VecDeque<Step<K, V>>,
    swaps: &mut Vec<Swap<K, V>>,
    future: &mut VecDeque<Step<K, V>>,
    steps: usize,
) -> Result<(), NoMemory>
    requires { (deque_len past.old ≤ steps) × (vec_len swaps.old ≤ steps)
        × (deque_len future.old ≤ steps) }
    ensures past { past.new.items ≡ past.old.items }
    ensures swaps { swaps.new.items ≡ swaps.old.items }
    ensures future { future.new.items ≡ future.old.items }
    ensures past_capacity { deque_capacity past.old ≤ deque_capacity past.new }
    ensures swaps_capacity { vec_capacity swaps.old ≤ vec_capacity swaps.new }
    ensures future_capacity { deque_capacity future.old ≤ deque_capacity future.new }
    ensures room { OnOk result ((steps ≤ deque_capacity past.new) × (steps ≤ vec_capacity swaps.new)
        × (steps ≤ deque_capacity future.new)) }
{
    past.reserve(steps - past.len())?;
    swaps.reserve(steps - swaps.len())?;
    future.reserve(steps - future.len())?;
    Ok(())
}

/// The steps that an open record takes beside its swaps.
pub(crate) fn count_marks(is_open: bool) -> usize
    ensures { result ≡ marks is_open }
{
    if is_open { 1 } else { 0 }
}
