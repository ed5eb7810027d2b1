ghost use Rattle.std.specs.Prelude.{◌≡◌, ℕ, ◌+◌, ◌-◌, ◌<◌, ◌≤◌, ◌^◌, Some, None, IsSome};
ghost use Rattle.std.specs.FinMap as map;
ghost use Rattle.std.specs.Ordering.{nat_cmp};
ghost use Rattle.slab.specs.Slab.{slab_len, HasRoomFor};
ghost use Rattle.timeline.specs.Maps.{put, one_at};
ghost use Rattle.undo_slots.specs.Slots.{nat_order, live_rows, mentions_at, room_in};

use slab::Slab;
use std::alloc::Global;
use std::mem;
use timeline::{KeptRows, NoMemory, Swap};

/// A row: its value while it is live, and how many kept swaps name it.
#[derive(Clone, Copy)]
pub struct Row<T> {
    pub value: Option<T>,
    pub mentions: usize,
}

/// Rows in a slab. A row that is not live keeps its slot, and so its key, while an swap names it.
#[derive(Drop)]
pub struct Slots<T: Copy> {
    rows: Slab<Row<T>>,
}

impl<T: Copy> Slots<T> {
    /// No rows.
    pub fn new(alloc: Global) -> Slots<T>
        ensures live { live_rows result ≡ map.empty }
        ensures mentions { (k : ℕ) → mentions_at result k ≡ 0 }
        ensures room { room_in result ≡ 0 }
    {
        Slots {
            rows: Slab::new(alloc),
        }
    }

    /// Adds a live row, which the swap that takes it back mentions.
    pub fn insert(&mut self, value: T) -> usize
        requires { 0 < room_in self.old }
        ensures unnamed { mentions_at self.old result ≡ 0 }
        ensures absent { map.get (live_rows self.old) result ≡ None }
        ensures live { live_rows self.new ≡ put (live_rows self.old) result (Some value) }
        ensures mentions { (k : ℕ) → mentions_at self.new k
            ≡ mentions_at self.old k + one_at nat_cmp result k }
        ensures room { room_in self.new ≡ room_in self.old - 1 }
    {
        self.rows.insert_reserved(Row {
            value: Some(value),
            mentions: 1,
        })
    }

    /// The value of a live row.
    pub fn get(&self, key: usize) -> Option<T>
        ensures { result ≡ map.get (live_rows self.now) key }
    {
        match self.rows.get(key) {
            Some(row) => row.value,
            None => None,
        }
    }
}

impl<T: Copy> KeptRows<usize, T> for Slots<T> {
    ghost order = { nat_cmp };

    ghost live = { live_rows };

    ghost mentions = { mentions_at };

    ghost room = { room_in };

    fn make_room(&mut self, rows: usize) -> Result<(), NoMemory> {
        self.rows.reserve(rows)?;
        Ok(())
    }

    fn exchange(&mut self, key: usize, value: Option<T>) -> Option<T>
        requires { 0 < mentions_at self.old key }
        ensures before { result ≡ map.get (live_rows self.old) key }
        ensures live { live_rows self.new ≡ put (live_rows self.old) key value }
        ensures mentions { (k : ℕ) → mentions_at self.new k ≡ mentions_at self.old k }
        ensures room { room_in self.new ≡ room_in self.old }
    {
        let row = &mut self.rows[key];
        mem::replace(&mut row.value, value)
    }

    fn swap(&mut self, key: usize, value: Option<T>) -> Swap<usize, T>
        requires live { IsSome (map.get (live_rows self.old) key) }
        requires few { mentions_at self.old key + 1 < 2 ^ 64 }
        ensures swap { result ≡ record { key = key; value = map.get (live_rows self.old) key } }
        ensures live { live_rows self.new ≡ put (live_rows self.old) key value }
        ensures mentions { (k : ℕ) → mentions_at self.new k
            ≡ mentions_at self.old k + one_at nat_cmp key k }
        ensures room { room_in self.new ≡ room_in self.old }
    {
        let row = &mut self.rows[key];
        row.mentions += 1;
        Swap {
            key,
            value: mem::replace(&mut row.value, value),
        }
    }

    fn release(&mut self, key: usize) {
        let row = &mut self.rows[key];
        row.mentions -= 1;
        if row.mentions == 0 && row.value.is_none() {
            self.rows.remove(key);
        }
    }

    ghost ordered = { nat_order };
}
