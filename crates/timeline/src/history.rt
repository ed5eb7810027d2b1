ghost use Rattle.std.specs.Prelude.{◌≡◌, ℕ, ◌+◌, ◌-◌, ◌<◌, ◌≤◌, ◌^◌, [], ◌∷◌, ◌++◌, length, Option, Some, IsSome, OnOk, true, false, drop, vec_capacity};
ghost use Rattle.std.specs.FinMap.{FinMap, get};
ghost use Rattle.std.specs.declared.cmp.Ordering.{Ordering};
ghost use Rattle.timeline.specs.Maps.{IsKeyOrder, put, one_at};
ghost use Rattle.timeline.specs.Timeline.{Moves, IsLastCount, new_timeline};
ghost use Rattle.timeline.specs.Steps.{moments_of, marks_in};
ghost use Rattle.timeline.specs.History.{timeline_of, IsKept};

use crate::kept_rows::KeptRows;
use crate::memory::NoMemory;
use crate::room::{count_marks, make_room};
use crate::steps::{Step, Swap};
use crate::walk::{last_len, release_all, release_first, rewind, seal, travel};
use std::alloc::Global;
use std::collections::VecDeque;

/// The kept swaps of rows: of the remembered records, of the open one, and of those that were taken back.
#[derive(Drop)]
pub struct History<K: Copy, V: Copy> {
    past: VecDeque<Step<K, V>>,
    swaps: Vec<Swap<K, V>>,
    future: VecDeque<Step<K, V>>,
    past_len: usize,
    future_len: usize,
    is_open: bool,
    spare_writes: usize,
}

impl<K: Copy, V: Copy> History<K, V> {
    /// A history with no swaps.
    pub fn new(alloc: Global) -> History<K, V>
        ensures kept { (R : K → K → Ordering) (mentions : K → ℕ) → ((k : K) → mentions k ≡ 0)
            → IsKept R mentions result }
        ensures first { (R : K → K → Ordering) (live : FinMap R V) → timeline_of live 0 result
            ≡ new_timeline live }
    {
        History {
            past: VecDeque::new(alloc),
            swaps: Vec::new(alloc),
            future: VecDeque::new(alloc),
            past_len: 0,
            future_len: 0,
            is_open: false,
            spare_writes: 0,
        }
    }

    /// Makes room for so many new rows and so many writes, those of `begin` among them.
    pub fn reserve<R: KeptRows<K, V>>(
        &mut self,
        rows: &mut R,
        more_rows: usize,
        writes: usize,
    ) -> Result<(), NoMemory>
        requires kept { IsKept R.order (R.mentions rows.old) self.old }
        ensures kept { IsKept R.order (R.mentions rows.new) self.new }
        ensures ok { OnOk result ((more_rows ≤ R.room rows.new)
            × (writes ≤ self.new.spare_writes)) }
        ensures rest { timeline_of (R.live rows.new) (R.room rows.new) self.new
            ≡ record (timeline_of (R.live rows.old) (R.room rows.old) self.old)
            { spare_rows = R.room rows.new; spare_writes = self.new.spare_writes } }
        ensures room { R.room rows.old ≤ R.room rows.new }
        ensures spare { self.old.spare_writes ≤ self.new.spare_writes }
    {
        let used = self.past.len()
            + self.swaps.len()
            + self.future.len()
            + count_marks(self.is_open);
        let writes = writes.max(self.spare_writes);
        if writes > usize::MAX - used {
            return Err(NoMemory);
        }
        rows.make_room(more_rows)?;
        make_room(
            &mut self.past,
            &mut self.swaps,
            &mut self.future,
            used + writes,
        )?;
        self.spare_writes = writes;
        Ok(())
    }

    /// Opens a record.
    pub fn begin(&mut self)
        requires closed { self.old.is_open ≡ false }
        requires spare { 0 < self.old.spare_writes }
        ensures kept { (R : K → K → Ordering) (mentions : K → ℕ) → IsKept R mentions self.old
            → IsKept R mentions self.new }
        ensures begun { (R : K → K → Ordering) (mentions : K → ℕ) → IsKept R mentions self.old
            → (live : FinMap R V) (room : ℕ) → timeline_of live room self.new
            ≡ record (timeline_of live room self.old) {
              is_open = true;
              base = live;
              writes = 0;
              spare_writes = self.old.spare_writes - 1;
            } }
    {
        self.is_open = true;
        self.spare_writes -= 1;
    }

    /// Notes a write of the open record that has been made, by the swap that takes it back.
    pub fn note(&mut self, swap: Swap<K, V>)
        requires open { self.old.is_open ≡ true }
        requires spare { 0 < self.old.spare_writes }
        requires fits { length self.old.swaps.items + self.old.spare_writes
            ≤ vec_capacity self.old.swaps }
        ensures kept { (R : K → K → Ordering) (before after : K → ℕ) → IsKept R before self.old
            → ((k : K) → after k ≡ before k + one_at R swap.key k) → IsKept R after self.new }
        ensures written { (R : K → K → Ordering) → IsKeyOrder R
            → (live live' : FinMap R V) (room room' : ℕ) (value : Option V)
            → swap.value ≡ get live swap.key → live' ≡ put live swap.key value
            → timeline_of live' room' self.new ≡ record (timeline_of live room self.old) {
              now = live';
              writes = length self.old.swaps.items + 1;
              spare_rows = room';
              spare_writes = self.old.spare_writes - 1;
            } }
    {
        self.swaps.push_reserved(swap);
        self.spare_writes -= 1;
    }

    /// Gives a live key this value or none.
    pub fn write<R: KeptRows<K, V>>(&mut self, rows: &mut R, key: K, value: Option<V>)
        requires kept { IsKept R.order (R.mentions rows.old) self.old }
        requires open { self.old.is_open ≡ true }
        requires spare { 0 < self.old.spare_writes }
        requires live { IsSome (get (R.live rows.old) key) }
        ensures kept { IsKept R.order (R.mentions rows.new) self.new }
        ensures written { timeline_of (R.live rows.new) (R.room rows.new) self.new
            ≡ record (timeline_of (R.live rows.old) (R.room rows.old) self.old) {
              now = put (R.live rows.old) key value;
              writes = length self.old.swaps.items + 1;
              spare_writes = self.old.spare_writes - 1;
            } }
    {
        let swap = rows.swap(key, value);
        self.note(swap);
    }

    /// Closes the record and remembers where it began. What was taken back is forgotten.
    pub fn commit<R: KeptRows<K, V>>(&mut self, rows: &mut R)
        requires kept { IsKept R.order (R.mentions rows.old) self.old }
        requires open { self.old.is_open ≡ true }
        ensures kept { IsKept R.order (R.mentions rows.new) self.new }
        ensures committed { let s = timeline_of (R.live rows.old) (R.room rows.old) self.old in
            timeline_of (R.live rows.new) (R.room rows.new) self.new
            ≡ record s {
              past = s.past ++ record { value = s.base; writes = s.writes } ∷ [];
              future = [];
              is_open = false;
              base = s.now;
              writes = 0;
              spare_rows = R.room rows.new;
            } }
        ensures room { R.room rows.old ≤ R.room rows.new }
    {
        seal(&mut self.past, &mut self.swaps);
        release_all(rows, &mut self.future);
        self.past_len += 1;
        self.future_len = 0;
        self.is_open = false;
    }

    /// Takes the writes of the open record back and closes it.
    pub fn abandon<R: KeptRows<K, V>>(&mut self, rows: &mut R)
        requires kept { IsKept R.order (R.mentions rows.old) self.old }
        requires open { self.old.is_open ≡ true }
        ensures kept { IsKept R.order (R.mentions rows.new) self.new }
        ensures abandoned { let s = timeline_of (R.live rows.old) (R.room rows.old) self.old in
            timeline_of (R.live rows.new) (R.room rows.new) self.new
            ≡ record s { now = s.base; is_open = false; writes = 0; spare_rows = R.room rows.new } }
        ensures room { R.room rows.old ≤ R.room rows.new }
    {
        rewind(rows, &mut self.swaps);
        self.is_open = false;
    }

    /// Takes the last record back.
    pub fn undo<R: KeptRows<K, V>>(&mut self, rows: &mut R)
        requires kept { IsKept R.order (R.mentions rows.old) self.old }
        requires closed { self.old.is_open ≡ false }
        requires some { 0 < length (timeline_of (R.live rows.old) (R.room rows.old) self.old).past }
        ensures kept { IsKept R.order (R.mentions rows.new) self.new }
        ensures moves { let s = timeline_of (R.live rows.old) (R.room rows.old) self.old in
            let t = timeline_of (R.live rows.new) (R.room rows.new) self.new in
            Moves s.past s.future s.now t.past t.future t.now }
        ensures rest { let s = timeline_of (R.live rows.old) (R.room rows.old) self.old in
            let t = timeline_of (R.live rows.new) (R.room rows.new) self.new in t
            ≡ record s { now = t.now; past = t.past; future = t.future; base = t.now } }
    {
        travel(rows, &mut self.past, &mut self.future);
        self.past_len -= 1;
        self.future_len += 1;
    }

    /// Brings the record that was taken back last again.
    pub fn redo<R: KeptRows<K, V>>(&mut self, rows: &mut R)
        requires kept { IsKept R.order (R.mentions rows.old) self.old }
        requires closed { self.old.is_open ≡ false }
        requires some { 0
            < length (timeline_of (R.live rows.old) (R.room rows.old) self.old).future }
        ensures kept { IsKept R.order (R.mentions rows.new) self.new }
        ensures moves { let s = timeline_of (R.live rows.old) (R.room rows.old) self.old in
            let t = timeline_of (R.live rows.new) (R.room rows.new) self.new in
            Moves s.future s.past s.now t.future t.past t.now }
        ensures rest { let s = timeline_of (R.live rows.old) (R.room rows.old) self.old in
            let t = timeline_of (R.live rows.new) (R.room rows.new) self.new in t
            ≡ record s { now = t.now; past = t.past; future = t.future; base = t.now } }
    {
        travel(rows, &mut self.future, &mut self.past);
        self.future_len -= 1;
        self.past_len += 1;
    }

    /// Forgets the oldest remembered value.
    pub fn forget<R: KeptRows<K, V>>(&mut self, rows: &mut R)
        requires kept { IsKept R.order (R.mentions rows.old) self.old }
        requires closed { self.old.is_open ≡ false }
        requires some { 0 < length (timeline_of (R.live rows.old) (R.room rows.old) self.old).past }
        ensures kept { IsKept R.order (R.mentions rows.new) self.new }
        ensures forgotten { let s = timeline_of (R.live rows.old) (R.room rows.old) self.old in
            timeline_of (R.live rows.new) (R.room rows.new) self.new
            ≡ record s { past = drop 1 s.past; spare_rows = R.room rows.new } }
        ensures room { R.room rows.old ≤ R.room rows.new }
    {
        release_first(rows, &mut self.past);
        self.past_len -= 1;
    }

    /// The number of writes of the last record.
    pub fn record_len(&self) -> usize
        requires { 0 < marks_in self.now.past.items }
        ensures { (R : K → K → Ordering) (m : FinMap R V)
            → IsLastCount (moments_of self.now.past.items m) result }
    {
        last_len(&self.past)
    }

    /// The number of remembered values.
    pub fn past_len(&self) -> usize
        ensures { (R : K → K → Ordering) (mentions : K → ℕ) → IsKept R mentions self.now
            → (m : FinMap R V) → result ≡ length (moments_of self.now.past.items m) }
    {
        self.past_len
    }

    /// The number of values that were taken back.
    pub fn future_len(&self) -> usize
        ensures { (R : K → K → Ordering) (mentions : K → ℕ) → IsKept R mentions self.now
            → (m : FinMap R V) → result ≡ length (moments_of self.now.future.items m) }
    {
        self.future_len
    }
}
