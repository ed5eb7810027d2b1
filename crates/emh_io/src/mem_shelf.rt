ghost use Rattle.std.specs.Prelude.{◌≡◌, IsTrue, drop, Some};
ghost use Rattle.std.specs.Option.{option_map};
ghost use Rattle.emh_io.specs.Files.{held};
ghost use Rattle.emh_io.specs.Fetch.{IsAnswer, fetched, HasCause};
ghost use Rattle.emh_io.specs.Plan.{next_fails, IsPlanned, IsPlannedStore};
ghost use Rattle.emh_io.specs.Store.{Stores, StoreHasCause};

use crate::held::Held;
use crate::plan::Plan;
use crate::shelf::{FetchFault, Shelf, StoreFault};
use crate::sure_shelf::SureShelf;
use emh_base::List;
use std::alloc::Global;
use std::marker::Model;

/// A shelf in memory whose fetches and stores fail where a plan says so.
/// A clause sees its files, the plans of the coming fetches and stores, how many of each failed, and the name of the
/// last call that did.
#[derive(Debug, Drop)]
pub struct MemShelf {
    alloc: Global,
    shelf: SureShelf,
    plan: Plan,
    store_plan: Plan,
    faults: u64,
    store_faults: u64,
    failed: Option<List<u8>>,
}

impl Model for MemShelf {
    ghost use Rattle.emh_io.specs.States.{ShelfState};

    ghost Value = { ShelfState };

    ghost view = { λ shelf. record {
      files = shelf.shelf;
      coming = shelf.plan;
      coming_stores = shelf.store_plan;
      faults = shelf.faults;
      store_faults = shelf.store_faults;
      failed = shelf.failed;
    } };
}

impl MemShelf {
    ghost use Rattle.std.specs.Prelude.{None};
    ghost use Rattle.emh_io.specs.Held.{files_of, are_distinct};

    /// A shelf of these files. Their names must differ: `are_distinct` tells.
    /// The first fetch is to fail where the first item of `fetch_fails` is true, and so on, and stores by
    /// `store_fails`. Past the end of a plan none is.
    pub fn new(
        alloc: Global,
        files: List<Held>,
        fetch_fails: List<bool>,
        store_fails: List<bool>,
    ) -> MemShelf
        requires { IsTrue (are_distinct (files_of files)) }
        ensures files { result.files ≡ files_of files }
        ensures coming { result.coming ≡ fetch_fails }
        ensures coming_stores { result.coming_stores ≡ store_fails }
        ensures faults { result.faults ≡ 0 }
        ensures store_faults { result.store_faults ≡ 0 }
        ensures failed { result.failed ≡ None }
    {
        MemShelf {
            alloc,
            shelf: SureShelf::new(alloc, files),
            plan: Plan::new(fetch_fails),
            store_plan: Plan::new(store_fails),
            faults: 0,
            store_faults: 0,
            failed: None,
        }
    }

    /// The bytes of the file of that name, if there is one. The names differ.
    pub fn held(&self, name: &[u8]) -> Option<&[u8]>
        ensures bytes { option_map (λ bytes. bytes.now) result ≡ held self.now.files name.now }
        ensures distinct { IsTrue (are_distinct self.now.files) }
    {
        self.shelf.held(name)
    }
}

impl Shelf for MemShelf {
    ghost use Rattle.std.specs.Prelude.{Some};

    ghost told = { λ shelf. record {
      holds = Some shelf.files;
      fetch_faults = shelf.faults;
      store_faults = shelf.store_faults;
      taken = 0;
      failed = shelf.failed;
    } };

    /// The bytes of a file. A fetch that is to fail copies the name first, and so may answer want of memory instead.
    fn fetch(&mut self, name: &[u8]) -> Result<List<u8>, FetchFault>
        ensures told { IsAnswer (fetched self.old.files name.now) result }
        ensures cause { HasCause self.old.faults self.new.faults
            self.old.failed self.new.failed name.now result }
        ensures kept { self.new.files ≡ self.old.files }
        ensures stores { self.new.store_faults ≡ self.old.store_faults }

        ensures planned { IsPlanned (next_fails self.old.coming) result }
        ensures kept_stores { self.new.coming_stores ≡ self.old.coming_stores }
        ensures later { self.new.coming ≡ drop 1 self.old.coming }
    {
        if self.plan.next() {
            let name = List::from_slice(self.alloc, name)?;
            self.failed = Some(name);
            self.faults = self.faults.saturating_add(1);
            return Err(FetchFault::Failed);
        }
        self.shelf.fetch(name)
    }

    /// Stores the file. A store that is to fail copies the name first, and so may answer want of memory instead.
    fn store(&mut self, name: &[u8], bytes: &[u8]) -> Result<(), StoreFault>
        ensures stores { Stores (Some self.old.files) (Some self.new.files) name.now bytes.now result }
        ensures cause { StoreHasCause self.old.store_faults self.new.store_faults
            self.old.failed self.new.failed name.now result }
        ensures fetches { self.new.faults ≡ self.old.faults }

        ensures planned { IsPlannedStore (next_fails self.old.coming_stores) result }
        ensures later { self.new.coming_stores ≡ drop 1 self.old.coming_stores }
        ensures kept { self.new.coming ≡ self.old.coming }
    {
        if self.store_plan.next() {
            let name = List::from_slice(self.alloc, name)?;
            self.failed = Some(name);
            self.store_faults = self.store_faults.saturating_add(1);
            return Err(StoreFault::Failed);
        }
        self.shelf.store(name, bytes)
    }
}
