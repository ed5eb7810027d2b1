ghost use Rattle.std.specs.Prelude.{◌≡◌, ◌↔◌, List, [], ◌∷◌, ◌++◌, ◌<◌, length, take, slice_get, slice_set, IsTrue, IfOk, OnOk, OnErr};
ghost use Rattle.std.specs.Option.{option_copied};

use crate::memory::NoMemory;
use std::alloc::Global;
use std::marker::Model;

/// A vector that contracts see as the list of its items. It keeps the allocator that it was made with.
#[derive(Debug, Drop)]
pub struct List<T> {
    items: Vec<T>,
}

impl<T> Model for List<T> {
    ghost use Rattle.std.specs.Prelude.{List};
    ghost use Rattle.std.specs.Coded.{coded_list};

    ghost Value = { List T };

    ghost coded = { coded_list T.code };

    ghost view = { λ list. list.items.items };
}

impl<T> List<T> {
    /// An empty list. It takes no memory yet.
    pub fn new(alloc: Global) -> List<T>
        ensures { result ≡ [] }
    {
        List {
            items: Vec::new(alloc),
        }
    }

    /// The items in order.
    pub fn as_slice(&self) -> &[T]
        ensures { result.now ≡ self.now }
    {
        self.items.as_slice()
    }

    /// The allocator that the list was made with.
    pub fn alloc(&self) -> Global {
        *self.items.allocator()
    }

    pub fn len(&self) -> usize
        ensures { result ≡ length self.now }
    {
        self.items.len()
    }

    pub fn is_empty(&self) -> bool
        ensures { IsTrue result ↔ (self.now ≡ []) }
    {
        self.items.is_empty()
    }

    /// The item at a place, counted from 0, or none past the end.
    pub fn get(&self, at: usize) -> Option<&T>
        ensures { option_copied result ≡ slice_get self.now at }
    {
        self.items.get(at)
    }

    /// Puts an item last. After want of memory the list is as before. The first item gets room for one, as many lists
    /// stay that short; from then on the room doubles.
    pub fn push(&mut self, item: T) -> Result<(), NoMemory>
    where
        T: Drop,
        ensures ok { OnOk result (self.new ≡ self.old ++ item ∷ []) }
        ensures err { OnErr result (self.new ≡ self.old) }
    {
        if self.items.capacity() == 0 {
            self.items.reserve_exact(1)?;
        }
        self.items.push(item)?;
        Ok(())
    }

    /// Puts an item in the place of the one that stands there.
    pub fn set(&mut self, at: usize, item: T)
    where
        T: Drop,
        requires { at < length self.old }
        ensures { self.new ≡ slice_set self.old at item }
    {
        self.items[at] = item;
    }

    /// Keeps the first `len` items, or all where there are fewer.
    pub fn truncate(&mut self, len: usize)
    where
        T: Drop,
        ensures { self.new ≡ take len self.old }
    {
        self.items.truncate(len);
    }
}

impl List<u8> {
    /// A list of these bytes.
    pub fn from_slice(alloc: Global, bytes: &[u8]) -> Result<List<u8>, NoMemory>
        ensures { IfOk result (λ list. list ≡ bytes.now) }
    {
        Ok(List {
            items: Vec::from_slice(alloc, bytes)?,
        })
    }

    /// Puts bytes last. After want of memory the list is as before.
    pub fn extend(&mut self, bytes: &[u8]) -> Result<(), NoMemory>
        ensures ok { OnOk result (self.new ≡ self.old ++ bytes.now) }
        ensures err { OnErr result (self.new ≡ self.old) }
    {
        self.items.extend_from_slice(bytes)?;
        Ok(())
    }
}
