ghost use Rattle.std.specs.Prelude.{◌≡◌, ◌≢◌, ℕ, ◌+◌, ◌-◌, ◌<◌, ◌≤◌, ◌^◌, [], ◌∷◌, ◌++◌, length, map as mapped, Some, None, Option, vec_len, vec_capacity, drop};
ghost use Rattle.std.specs.VecDeque.{deque_len, deque_capacity};
ghost use Rattle.std.specs.FinMap.{FinMap};
ghost use Rattle.std.specs.declared.cmp.Ordering.{Ordering};
ghost use Rattle.timeline.specs.Timeline.{Moves, IsLastCount};
ghost use Rattle.timeline.specs.Steps.{moments_of, undo_swaps, swaps_of, steps_of, BeginsWithMark, key_of_first, marks_in};

use crate::kept_rows::KeptRows;
use crate::steps::{Step, Swap};
use std::collections::VecDeque;

/// Puts the swaps of a record behind a mark at the end of the past.
pub(crate) fn seal<K: Copy, V: Copy>(past: &mut VecDeque<Step<K, V>>, swaps: &mut Vec<Swap<K, V>>)
    requires { deque_len past.old + vec_len swaps.old + 1 ≤ deque_capacity past.old }
    ensures past { past.new.items
        ≡ past.old.items ++ Step.Mark ∷ mapped Step.Write swaps.old.items }
    ensures swaps { swaps.new.items ≡ [] }
    ensures past_capacity { deque_capacity past.new ≡ deque_capacity past.old }
    ensures swaps_capacity { vec_capacity swaps.new ≡ vec_capacity swaps.old }
{
    past.push_back_reserved(Step::Mark);
    for swap in swaps.iter() {
        past.push_back_reserved(Step::Write(*swap));
    }
    swaps.clear();
}

/// Takes the swaps back, from the last.
pub(crate) fn rewind<K: Copy, V: Copy, R: KeptRows<K, V>>(rows: &mut R, swaps: &mut Vec<Swap<K, V>>)
    requires { (k : K) → swaps_of R.order k swaps.old.items ≤ R.mentions rows.old k }
    ensures live { R.live rows.new ≡ undo_swaps swaps.old.items (R.live rows.old) }
    ensures mentions { (k : K) → R.mentions rows.new k + swaps_of R.order k swaps.old.items
        ≡ R.mentions rows.old k }
    ensures swaps { swaps.new.items ≡ [] }
    ensures room { R.room rows.old ≤ R.room rows.new }
    ensures swaps_capacity { vec_capacity swaps.new ≡ vec_capacity swaps.old }
{
    while let Some(swap) = swaps.pop() {
        rows.exchange(swap.key, swap.value);
        rows.release(swap.key);
    }
}

/// Forgets all steps.
pub(crate) fn release_all<K: Copy, V: Copy, R: KeptRows<K, V>>(
    rows: &mut R,
    steps: &mut VecDeque<Step<K, V>>,
)
    requires { (k : K) → steps_of R.order k steps.old.items ≤ R.mentions rows.old k }
    ensures live { R.live rows.new ≡ R.live rows.old }
    ensures mentions { (k : K) → R.mentions rows.new k + steps_of R.order k steps.old.items
        ≡ R.mentions rows.old k }
    ensures steps { steps.new.items ≡ [] }
    ensures room { R.room rows.old ≤ R.room rows.new }
    ensures steps_capacity { deque_capacity steps.new ≡ deque_capacity steps.old }
{
    while let Some(step) = steps.pop_back() {
        if let Step::Write(swap) = step {
            rows.release(swap.key);
        }
    }
}

/// Takes the last record of the one list back, and puts what brings it again at the end of the other.
pub(crate) fn travel<K: Copy, V: Copy, R: KeptRows<K, V>>(
    rows: &mut R,
    from: &mut VecDeque<Step<K, V>>,
    to: &mut VecDeque<Step<K, V>>,
)
    requires some { 0 < length (moments_of from.old.items (R.live rows.old)) }
    requires counted { (k : K) → steps_of R.order k from.old.items ≤ R.mentions rows.old k }
    requires room { deque_len from.old + deque_len to.old ≤ deque_capacity to.old }
    requires from_begins { BeginsWithMark from.old.items }
    requires to_begins { BeginsWithMark to.old.items }
    ensures moves { Moves (moments_of from.old.items (R.live rows.old))
        (moments_of to.old.items (R.live rows.old)) (R.live rows.old)
        (moments_of from.new.items (R.live rows.new))
        (moments_of to.new.items (R.live rows.new)) (R.live rows.new) }
    ensures mentions { (k : K) → R.mentions rows.new k ≡ R.mentions rows.old k }
    ensures steps { (k : K) → steps_of R.order k from.new.items + steps_of R.order k to.new.items
        ≡ steps_of R.order k from.old.items + steps_of R.order k to.old.items }
    ensures count { deque_len from.new + deque_len to.new ≡ deque_len from.old + deque_len to.old }
    ensures from_begins { BeginsWithMark from.new.items }
    ensures to_begins { BeginsWithMark to.new.items }
    ensures room { R.room rows.new ≡ R.room rows.old }
    ensures from_capacity { deque_capacity from.new ≡ deque_capacity from.old }
    ensures to_capacity { deque_capacity to.new ≡ deque_capacity to.old }
{
    to.push_back_reserved(Step::Mark);
    while let Some(step) = from.pop_back() {
        match step {
            Step::Mark => return,
            Step::Write(swap) => {
                let value = rows.exchange(swap.key, swap.value);
                to.push_back_reserved(Step::Write(Swap {
                    key: swap.key,
                    value,
                }));
            }
        }
    }
}

/// Forgets the first record.
pub(crate) fn release_first<K: Copy, V: Copy, R: KeptRows<K, V>>(
    rows: &mut R,
    steps: &mut VecDeque<Step<K, V>>,
)
    requires counted { (k : K) → steps_of R.order k steps.old.items ≤ R.mentions rows.old k }
    requires begins { BeginsWithMark steps.old.items }
    ensures live { R.live rows.new ≡ R.live rows.old }
    ensures mentions { (k : K) → R.mentions rows.new k + steps_of R.order k steps.old.items
        ≡ R.mentions rows.old k + steps_of R.order k steps.new.items }
    ensures forgotten { (m : FinMap R.order V) → moments_of steps.new.items m
        ≡ drop 1 (moments_of steps.old.items m) }
    ensures begins { BeginsWithMark steps.new.items }
    ensures count { deque_len steps.new ≤ deque_len steps.old }
    ensures room { R.room rows.old ≤ R.room rows.new }
    ensures steps_capacity { deque_capacity steps.new ≡ deque_capacity steps.old }
{
    steps.pop_front();
    while let Some(key) = first_write(steps) {
        steps.pop_front();
        rows.release(key);
    }
}

/// The key of the first step, if it is a write.
pub(crate) fn first_write<K: Copy, V: Copy>(steps: &VecDeque<Step<K, V>>) -> Option<K>
    ensures { result ≡ key_of_first steps.now.items }
{
    match steps.front() {
        Some(Step::Write(swap)) => Some(swap.key),
        _ => None,
    }
}

/// The number of writes of the last record.
pub(crate) fn last_len<K: Copy, V: Copy>(steps: &VecDeque<Step<K, V>>) -> usize
    requires { 0 < marks_in steps.now.items }
    ensures { (R : K → K → Ordering) (m : FinMap R V)
        → IsLastCount (moments_of steps.now.items m) result }
{
    let mut at = steps.len();
    while at > 0 {
        at -= 1;
        if let Step::Mark = steps[at] {
            return steps.len() - 1 - at;
        }
    }
    unreachable!()
}
