ghost use Rattle.std.specs.Prelude.{◌≡◌, ◌+◌, ◌-◌, ◌<◌, ◌≤◌, [], ◌∷◌, ◌++◌, length, None, IsSome, OnOk, true, false, drop};
ghost use Rattle.std.specs.FinMap as map;
ghost use Rattle.timeline.specs.Timeline.{Moves, IsLastCount, new_timeline};

use crate::names::Names;
use std::alloc::Global;
use std::marker::Model;
use timeline::{History, NoMemory, Swap};

/// An index from pairs of a module's and a name's number to keys, whose changes are recorded, so that whole records are
/// undone and redone. All calls but `reserve` take no memory.
#[derive(Drop)]
pub struct Index {
    names: Names,
    history: History<(u32, usize), u32>,
}

impl Model for Index {
    ghost use Rattle.std.specs.Coded.{coded×, coded_ℕ};
    ghost use Rattle.std.specs.FinMap as map;
    ghost use Rattle.timeline.specs.Timeline.{Timeline, timeline_code};
    ghost use Rattle.timeline.specs.History.{timeline_of, IsKept};
    ghost use Rattle.name_index.specs.Names.{NameMap, key_cmp, live_names, mentions_at, room_in};

    ghost Value = { Timeline NameMap };

    ghost coded = { timeline_code (map.code (coded× coded_ℕ coded_ℕ) coded_ℕ) };

    ghost view = { λ t. timeline_of (live_names t.names) (room_in t.names) t.history };

    ghost invariant = { λ t. IsKept key_cmp (mentions_at t.names) t.history };
}

impl Index {
    /// An index with no names.
    pub fn new(alloc: Global) -> Index
        ensures { result ≡ record (new_timeline map.empty) { spare_rows = result.spare_rows } }
    {
        Index {
            names: Names::new(alloc),
            history: History::new(alloc),
        }
    }

    /// Makes room for so many new names and so many writes, counting `begin` as a write.
    pub fn reserve(&mut self, rows: usize, writes: usize) -> Result<(), NoMemory>
        ensures ok { OnOk result ((rows ≤ self.new.spare_rows) × (writes ≤ self.new.spare_writes)) }
        ensures rest { self.new ≡ record self.old {
          spare_rows = self.new.spare_rows;
          spare_writes = self.new.spare_writes;
        } }
        ensures spare { (self.old.spare_rows ≤ self.new.spare_rows)
            × (self.old.spare_writes ≤ self.new.spare_writes) }
    {
        self.history.reserve(&mut self.names, rows, writes)
    }

    /// Opens a record. Condition: none is open, and there is a spare write.
    pub fn begin(&mut self)
        requires closed { self.old.is_open ≡ false }
        requires spare { 0 < self.old.spare_writes }
        ensures { self.new ≡ record self.old {
          is_open = true;
          base = self.old.now;
          writes = 0;
          spare_writes = self.old.spare_writes - 1;
        } }
    {
        self.history.begin();
    }

    /// Puts a pair into the index. Condition: a record is open, the pair is absent, and there are a spare row and a
    /// spare write.
    pub fn put(&mut self, module: u32, name: usize, key: u32)
        requires open { self.old.is_open ≡ true }
        requires spare { 0 < self.old.spare_writes }
        requires room { 0 < self.old.spare_rows }
        requires absent { map.get self.old.now («module», name) ≡ None }
        ensures added { self.new ≡
            record self.old {
              now = map.insert self.old.now («module», name) key;
              writes = self.old.writes + 1;
              spare_rows = self.new.spare_rows;
              spare_writes = self.old.spare_writes - 1;
            } }
        ensures room { self.old.spare_rows ≤ self.new.spare_rows + 1 }
    {
        self.names.put((module, name), key);
        self.history.note(Swap {
            key: (module, name),
            value: None,
        });
    }

    /// Takes a pair out of the index. Condition: a record is open, the pair is there, and there is a spare write.
    pub fn take(&mut self, module: u32, name: usize)
        requires open { self.old.is_open ≡ true }
        requires spare { 0 < self.old.spare_writes }
        requires live { IsSome (map.get self.old.now («module», name)) }
        ensures { self.new ≡ record self.old {
          now = map.remove self.old.now («module», name);
          writes = self.old.writes + 1;
          spare_writes = self.old.spare_writes - 1;
        } }
    {
        self.history.write(&mut self.names, (module, name), None);
    }

    /// The key of a pair, if it is there.
    pub fn find(&self, module: u32, name: usize) -> Option<u32>
        ensures { result ≡ map.get self.now.now («module», name) }
    {
        self.names.get((module, name))
    }

    /// Closes the record, and remembers the map where it began. What was taken back is forgotten. Condition: a record
    /// is open.
    pub fn commit(&mut self)
        requires { self.old.is_open ≡ true }
        ensures committed { self.new ≡ record self.old {
          past = self.old.past ++
              record { value = self.old.base; writes = self.old.writes } ∷ [];
          future = [];
          is_open = false;
          base = self.old.now;
          writes = 0;
          spare_rows = self.new.spare_rows;
        } }
        ensures spare { self.old.spare_rows ≤ self.new.spare_rows }
    {
        self.history.commit(&mut self.names);
    }

    /// Goes back to where the record began, and closes it. Condition: a record is open.
    pub fn abandon(&mut self)
        requires { self.old.is_open ≡ true }
        ensures abandoned { self.new ≡ record self.old {
          now = self.old.base;
          is_open = false;
          writes = 0;
          spare_rows = self.new.spare_rows;
        } }
        ensures spare { self.old.spare_rows ≤ self.new.spare_rows }
    {
        self.history.abandon(&mut self.names);
    }

    /// Goes back to the last remembered map. Condition: no record is open, and there is such a map.
    pub fn undo(&mut self)
        requires closed { self.old.is_open ≡ false }
        requires some { 0 < length self.old.past }
        ensures moves { Moves self.old.past self.old.future self.old.now
            self.new.past self.new.future self.new.now }
        ensures rest { self.new ≡ record self.old {
          now = self.new.now;
          past = self.new.past;
          future = self.new.future;
          base = self.new.now;
        } }
    {
        self.history.undo(&mut self.names);
    }

    /// Goes on to the map that was left last by an undo. Condition: no record is open, and there is such a map.
    pub fn redo(&mut self)
        requires closed { self.old.is_open ≡ false }
        requires some { 0 < length self.old.future }
        ensures moves { Moves self.old.future self.old.past self.old.now
            self.new.future self.new.past self.new.now }
        ensures rest { self.new ≡ record self.old {
          now = self.new.now;
          past = self.new.past;
          future = self.new.future;
          base = self.new.now;
        } }
    {
        self.history.redo(&mut self.names);
    }

    /// Forgets the oldest remembered map. Condition: no record is open, and there is such a map.
    pub fn forget(&mut self)
        requires closed { self.old.is_open ≡ false }
        requires some { 0 < length self.old.past }
        ensures forgotten { self.new ≡ record self.old {
          past = drop 1 self.old.past;
          spare_rows = self.new.spare_rows;
        } }
        ensures spare { self.old.spare_rows ≤ self.new.spare_rows }
    {
        self.history.forget(&mut self.names);
    }

    /// The number of writes of the last remembered record. Condition: there is one.
    pub fn record_len(&self) -> usize
        requires { 0 < length self.now.past }
        ensures { IsLastCount self.now.past result }
    {
        self.history.record_len()
    }

    /// The number of remembered maps.
    pub fn past_len(&self) -> usize
        ensures { result ≡ length self.now.past }
    {
        self.history.past_len()
    }

    /// The number of maps to redo.
    pub fn future_len(&self) -> usize
        ensures { result ≡ length self.now.future }
    {
        self.history.future_len()
    }
}
