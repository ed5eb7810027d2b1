ghost use Rattle.std.specs.Prelude.{◌≡◌, ℕ, ◌+◌, ◌-◌, ◌<◌, ◌≤◌, ◌^◌, Some, None, IsSome};
ghost use Rattle.std.specs.FinMap as map;
ghost use Rattle.indexmap.specs.IndexMap.{get};
ghost use Rattle.timeline.specs.Maps.{put, one_at};
ghost use Rattle.name_index.specs.Names.{Key, key_cmp, key_eq, key_order, live_names, mentions_at, room_in};

use indexmap::IndexMap;
use std::alloc::Global;
use std::mem;
use timeline::{KeptRows, NoMemory, Swap};

/// A name's row: what it stands for while it is live, and how many kept swaps name it.
#[derive(Clone, Copy)]
pub struct Row {
    pub value: Option<u32>,
    pub mentions: usize,
}

/// Names in an index map. A name that is not live keeps its entry while a swap names it, so that it comes back without
/// memory.
#[derive(Drop)]
pub struct Names {
    rows: IndexMap<(u32, usize), Row>,
}

impl Names {
    /// No names.
    pub fn new(alloc: Global) -> Names
        ensures live { live_names result ≡ map.empty }
        ensures mentions { (k : Key) → mentions_at result k ≡ 0 }
    {
        Names {
            rows: IndexMap::new(alloc),
        }
    }

    /// Adds a live name that has no row.
    fn insert(&mut self, key: (u32, usize), value: u32)
        requires room { 0 < room_in self.old }
        requires absent { get key_eq self.old.rows key ≡ None }
        ensures live { live_names self.new ≡ put (live_names self.old) key (Some value) }
        ensures mentions { (k : Key) → mentions_at self.new k
            ≡ mentions_at self.old k + one_at key_cmp key k }
        ensures room { room_in self.old ≤ room_in self.new + 1 }
    {
        let row = Row {
            value: Some(value),
            mentions: 1,
        };
        match self.rows.insert(key, row) {
            Ok(_) => {}
            Err(_) => unreachable!(),
        }
    }

    /// Gives a name that has a row this value or none, with one mention more, and answers what it had.
    fn write(&mut self, key: (u32, usize), value: Option<u32>) -> Option<u32>
        requires named { IsSome (get key_eq self.old.rows key) }
        requires few { mentions_at self.old key + 1 < 2 ^ 64 }
        ensures before { result ≡ map.get (live_names self.old) key }
        ensures live { live_names self.new ≡ put (live_names self.old) key value }
        ensures mentions { (k : Key) → mentions_at self.new k
            ≡ mentions_at self.old k + one_at key_cmp key k }
        ensures room { room_in self.new ≡ room_in self.old }
    {
        let row = self.rows.get_mut(&key).unwrap();
        row.mentions += 1;
        mem::replace(&mut row.value, value)
    }

    /// Makes a name live, which the swap that takes it back mentions.
    pub fn put(&mut self, key: (u32, usize), value: u32)
        requires room { 0 < room_in self.old }
        requires few { mentions_at self.old key + 1 < 2 ^ 64 }
        ensures live { live_names self.new ≡ put (live_names self.old) key (Some value) }
        ensures mentions { (k : Key) → mentions_at self.new k
            ≡ mentions_at self.old k + one_at key_cmp key k }
        ensures room { room_in self.old ≤ room_in self.new + 1 }
    {
        if self.rows.contains_key(&key) {
            self.write(key, Some(value));
        } else {
            self.insert(key, value);
        }
    }

    /// What a live name stands for.
    pub fn get(&self, key: (u32, usize)) -> Option<u32>
        ensures { result ≡ map.get (live_names self.now) key }
    {
        match self.rows.get(&key) {
            Some(row) => row.value,
            None => None,
        }
    }
}

impl KeptRows<(u32, usize), u32> for Names {
    ghost order = { key_cmp };

    ghost live = { live_names };

    ghost mentions = { mentions_at };

    ghost room = { room_in };

    fn make_room(&mut self, rows: usize) -> Result<(), NoMemory> {
        self.rows.reserve(rows)?;
        Ok(())
    }

    fn exchange(&mut self, key: (u32, usize), value: Option<u32>) -> Option<u32>
        requires { 0 < mentions_at self.old key }
        ensures before { result ≡ map.get (live_names self.old) key }
        ensures live { live_names self.new ≡ put (live_names self.old) key value }
        ensures mentions { (k : Key) → mentions_at self.new k ≡ mentions_at self.old k }
        ensures room { room_in self.new ≡ room_in self.old }
    {
        let row = self.rows.get_mut(&key).unwrap();
        mem::replace(&mut row.value, value)
    }

    fn swap(&mut self, key: (u32, usize), value: Option<u32>) -> Swap<(u32, usize), u32>
        requires live { IsSome (map.get (live_names self.old) key) }
        requires few { mentions_at self.old key + 1 < 2 ^ 64 }
        ensures swap { result ≡ record { key = key; value = map.get (live_names self.old) key } }
        ensures live { live_names self.new ≡ put (live_names self.old) key value }
        ensures mentions { (k : Key) → mentions_at self.new k
            ≡ mentions_at self.old k + one_at key_cmp key k }
        ensures room { room_in self.new ≡ room_in self.old }
    {
        let before = self.write(key, value);
        Swap { key, value: before }
    }

    fn release(&mut self, key: (u32, usize)) {
        let row = self.rows.get_mut(&key).unwrap();
        row.mentions -= 1;
        if row.mentions == 0 && row.value.is_none() {
            self.rows.swap_remove(&key);
        }
    }

    ghost ordered = { key_order };
}
