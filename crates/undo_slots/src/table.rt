ghost use Rattle.std.specs.Prelude.{◌≡◌, ◌+◌, ◌-◌, ◌<◌, ◌≤◌, [], ◌∷◌, ◌++◌, length, IsSome, OnOk, true, false, drop};
ghost use Rattle.std.specs.FinMap as map;
ghost use Rattle.timeline.specs.Timeline.{Moves, IsLastCount, new_timeline};
ghost use Rattle.timeline.specs.History.{IsFresh};

use crate::slots::Slots;
use std::alloc::Global;
use std::marker::Model;
use timeline::{History, NoMemory, Swap};

/// A table of rows under keys that it picks, whose changes are recorded, so that whole records are undone and redone.
/// All calls but `reserve` take no memory.
#[derive(Drop)]
pub struct Table<T: Copy> {
    slots: Slots<T>,
    history: History<usize, T>,
}

impl<T: Copy> Model for Table<T> {
    ghost use Rattle.std.specs.Coded.{coded_ℕ};
    ghost use Rattle.std.specs.Ordering.{nat_cmp};
    ghost use Rattle.std.specs.FinMap as map;
    ghost use Rattle.timeline.specs.Timeline.{Timeline, timeline_code};
    ghost use Rattle.timeline.specs.History.{timeline_of, IsKept};
    ghost use Rattle.undo_slots.specs.Slots.{Rows, live_rows, mentions_at, room_in};

    ghost Value = { Timeline (Rows T) };

    ghost coded = { timeline_code (map.code coded_ℕ T.code) };

    ghost view = { λ t. timeline_of (live_rows t.slots) (room_in t.slots) t.history };

    ghost invariant = { λ t. IsKept nat_cmp (mentions_at t.slots) t.history };
}

impl<T: Copy> Table<T> {
    /// A table with no rows.
    pub fn new(alloc: Global) -> Table<T>
        ensures { result ≡ new_timeline map.empty }
    {
        Table {
            slots: Slots::new(alloc),
            history: History::new(alloc),
        }
    }

    /// Makes room for so many new rows and so many writes, counting `begin` as a write.
    pub fn reserve(&mut self, rows: usize, writes: usize) -> Result<(), NoMemory>
        ensures ok { OnOk result ((rows ≤ self.new.spare_rows) × (writes ≤ self.new.spare_writes)) }
        ensures rest { self.new ≡ record self.old {
          spare_rows = self.new.spare_rows;
          spare_writes = self.new.spare_writes;
        } }
        ensures spare { (self.old.spare_rows ≤ self.new.spare_rows)
            × (self.old.spare_writes ≤ self.new.spare_writes) }
    {
        self.history.reserve(&mut self.slots, rows, writes)
    }

    /// Opens a record. Condition: none is open, and there is a spare write.
    pub fn begin(&mut self)
        requires closed { self.old.is_open ≡ false }
        requires spare { 0 < self.old.spare_writes }
        ensures { self.new ≡ record self.old {
          is_open = true;
          base = self.old.now;
          writes = 0;
          spare_writes = self.old.spare_writes - 1;
        } }
    {
        self.history.begin();
    }

    /// Adds a row, at a key that no map of the table has. Condition: a record is open, and there are a spare row and a
    /// spare write.
    pub fn add(&mut self, value: T) -> usize
        requires open { self.old.is_open ≡ true }
        requires spare { 0 < self.old.spare_writes }
        requires room { 0 < self.old.spare_rows }
        ensures fresh { IsFresh self.old result }
        ensures added { self.new ≡ record self.old {
          now = map.insert self.old.now result value;
          writes = self.old.writes + 1;
          spare_rows = self.old.spare_rows - 1;
          spare_writes = self.old.spare_writes - 1;
        } }
    {
        let key = self.slots.insert(value);
        self.history.note(Swap { key, value: None });
        key
    }

    /// Changes a row. Condition: a record is open, the key is live, and there is a spare write.
    pub fn set(&mut self, key: usize, value: T)
        requires open { self.old.is_open ≡ true }
        requires spare { 0 < self.old.spare_writes }
        requires live { IsSome (map.get self.old.now key) }
        ensures { self.new ≡ record self.old {
          now = map.insert self.old.now key value;
          writes = self.old.writes + 1;
          spare_writes = self.old.spare_writes - 1;
        } }
    {
        self.history.write(&mut self.slots, key, Some(value));
    }

    /// Removes a row. Its key is not given again while a map of the table has it. Condition: as for `set`.
    pub fn remove(&mut self, key: usize)
        requires open { self.old.is_open ≡ true }
        requires spare { 0 < self.old.spare_writes }
        requires live { IsSome (map.get self.old.now key) }
        ensures { self.new ≡ record self.old {
          now = map.remove self.old.now key;
          writes = self.old.writes + 1;
          spare_writes = self.old.spare_writes - 1;
        } }
    {
        self.history.write(&mut self.slots, key, None);
    }

    /// Closes the record, and remembers the map where it began. What was taken back is forgotten. Condition: a record
    /// is open.
    pub fn commit(&mut self)
        requires { self.old.is_open ≡ true }
        ensures committed { self.new ≡ record self.old {
          past = self.old.past ++
              record { value = self.old.base; writes = self.old.writes } ∷ [];
          future = [];
          is_open = false;
          base = self.old.now;
          writes = 0;
          spare_rows = self.new.spare_rows;
        } }
        ensures spare { self.old.spare_rows ≤ self.new.spare_rows }
    {
        self.history.commit(&mut self.slots);
    }

    /// Goes back to where the record began, and closes it. Condition: a record is open.
    pub fn abandon(&mut self)
        requires { self.old.is_open ≡ true }
        ensures abandoned { self.new ≡ record self.old {
          now = self.old.base;
          is_open = false;
          writes = 0;
          spare_rows = self.new.spare_rows;
        } }
        ensures spare { self.old.spare_rows ≤ self.new.spare_rows }
    {
        self.history.abandon(&mut self.slots);
    }

    /// Goes back to the last remembered map. Condition: no record is open, and there is such a map.
    pub fn undo(&mut self)
        requires closed { self.old.is_open ≡ false }
        requires some { 0 < length self.old.past }
        ensures moves { Moves self.old.past self.old.future self.old.now
            self.new.past self.new.future self.new.now }
        ensures rest { self.new ≡ record self.old {
          now = self.new.now;
          past = self.new.past;
          future = self.new.future;
          base = self.new.now;
        } }
    {
        self.history.undo(&mut self.slots);
    }

    /// Goes on to the map that was left last by an undo. Condition: no record is open, and there is such a map.
    pub fn redo(&mut self)
        requires closed { self.old.is_open ≡ false }
        requires some { 0 < length self.old.future }
        ensures moves { Moves self.old.future self.old.past self.old.now
            self.new.future self.new.past self.new.now }
        ensures rest { self.new ≡ record self.old {
          now = self.new.now;
          past = self.new.past;
          future = self.new.future;
          base = self.new.now;
        } }
    {
        self.history.redo(&mut self.slots);
    }

    /// Forgets the oldest remembered map. Condition: no record is open, and there is such a map.
    pub fn forget(&mut self)
        requires closed { self.old.is_open ≡ false }
        requires some { 0 < length self.old.past }
        ensures forgotten { self.new ≡ record self.old {
          past = drop 1 self.old.past;
          spare_rows = self.new.spare_rows;
        } }
        ensures spare { self.old.spare_rows ≤ self.new.spare_rows }
    {
        self.history.forget(&mut self.slots);
    }

    /// The row at the key, if it is live.
    pub fn get(&self, key: usize) -> Option<T>
        ensures { result ≡ map.get self.now.now key }
    {
        self.slots.get(key)
    }

    /// The number of writes of the last remembered record. Condition: there is one.
    pub fn record_len(&self) -> usize
        requires { 0 < length self.now.past }
        ensures { IsLastCount self.now.past result }
    {
        self.history.record_len()
    }

    /// The number of remembered maps.
    pub fn past_len(&self) -> usize
        ensures { result ≡ length self.now.past }
    {
        self.history.past_len()
    }

    /// The number of maps to redo.
    pub fn future_len(&self) -> usize
        ensures { result ≡ length self.now.future }
    {
        self.history.future_len()
    }
}
