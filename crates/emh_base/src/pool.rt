ghost use Rattle.std.specs.Prelude.{◌≡◌, ℕ, ◌<◌, ◌↔◌, [], ◌∷◌, ◌++◌, length, position, slice_get, bytes_eq, Some, IsTrue, IsNone, OnOk, IfOk, OnErr};
ghost use Rattle.std.specs.List.{IsDistinct};
ghost use Rattle.emh_base.specs.Pool.{with_name, number_in};

use crate::memory::NoMemory;
use crate::name::Name;
use indexmap::IndexMap;
use std::alloc::Global;
use std::marker::Model;

/// Distinct names, numbered from 0 in the order in which they came. A contract sees the list of the names.
/// A look-up hashes the name; it searches no list.
#[derive(Drop)]
pub struct Pool {
    names: IndexMap<Vec<u8>, Name>,
}

impl Model for Pool {
    ghost use Rattle.std.specs.Prelude.{◌≡◌, List, ℕ, map};

    ghost Value = { List (List ℕ) };

    ghost view = { λ pool. map (λ entry. entry.0.items) pool.names.entries };

    ghost invariant = { λ pool. map (λ entry. entry.0.items) pool.names.entries
        ≡ map (λ entry. entry.1) pool.names.entries };
}

impl Pool {
    /// A pool of no names. It takes no memory yet.
    pub fn new(alloc: Global) -> Pool
        ensures { result ≡ [] }
    {
        Pool {
            names: IndexMap::new(alloc),
        }
    }

    /// How many names there are: the number that the next new one gets.
    pub fn len(&self) -> usize
        ensures len { result ≡ length self.now }
        ensures distinct { IsDistinct bytes_eq self.now }
    {
        self.names.len()
    }

    pub fn is_empty(&self) -> bool
        ensures { IsTrue result ↔ (self.now ≡ []) }
    {
        self.names.is_empty()
    }

    /// The number of a name. A name that is there keeps its number, a new one gets the pool's length.
    /// After want of memory the pool is as before.
    pub fn number(&mut self, name: Name) -> Result<usize, NoMemory>
        ensures number { IfOk result (λ number. number ≡ number_in self.old name) }
        ensures names { OnOk result (self.new ≡ with_name self.old name) }
        ensures err { OnErr result (self.new ≡ self.old) }
    {
        match self.find(name.as_bytes()) {
            Some(number) => Ok(number),
            None => self.add(name),
        }
    }

    /// The number of a name, or none where it isn't there. It takes no memory.
    pub fn find(&self, name: &[u8]) -> Option<usize>
        ensures { result ≡ position (bytes_eq name.now) self.now }
    {
        self.names.get_index_of(name)
    }

    /// The name of a number. It takes no memory.
    pub fn at(&self, number: usize) -> &Name
        requires { number < length self.now }
        ensures { slice_get self.now number ≡ Some result.now }
    {
        self.names.get_index(number).unwrap().1
    }

    /// Puts a new name last.
    fn add(&mut self, name: Name) -> Result<usize, NoMemory>
        requires { position (bytes_eq name) self.old ≡ None }
        ensures number { IfOk result (λ number. number ≡ length self.old) }
        ensures names { OnOk result (self.new ≡ self.old ++ name ∷ []) }
        ensures err { OnErr result (self.new ≡ self.old) }
    {
        let number = self.len();
        let key = Vec::from_slice(*self.names.allocator(), name.as_bytes())?;
        self.names.insert(key, name)?;
        Ok(number)
    }
}
