ghost use Rattle.std.specs.Prelude.{◌≡◌, ℕ, ◌≤◌, List, Option, IfSome, IfNone};
ghost use Rattle.emh_io.specs.Files.{Files};

use emh_base::{List, NoMemory};

/// Why a file can't be had.
#[derive(Clone, Copy, Debug, PartialEq, Eq)]
pub enum FetchFault {
    /// The shelf couldn't read it. Its count of faults rose in this call.
    Failed,
    /// The shelf hasn't it.
    Missing,
    /// It has more than 67,108,864 bytes.
    TooLong,
    NoMemory,
}

impl From<NoMemory> for FetchFault {
    ghost use Rattle.emh_io.specs.declared.shelf.FetchFault.TheVariants.{NoMemory as no_memory};

    ghost from_gives = { λ _ fault. fault ≡ no_memory };

    fn from(_: NoMemory) -> FetchFault {
        FetchFault::NoMemory
    }
}

/// Why a file can't be stored.
#[derive(Clone, Copy, Debug, PartialEq, Eq)]
pub enum StoreFault {
    /// The shelf couldn't write it. Its count of faults of stores rose in this call.
    Failed,
    NoMemory,
}

impl From<NoMemory> for StoreFault {
    ghost use Rattle.emh_io.specs.declared.shelf.StoreFault.TheVariants.{NoMemory as no_memory};

    ghost from_gives = { λ _ fault. fault ≡ no_memory };

    fn from(_: NoMemory) -> StoreFault {
        StoreFault::NoMemory
    }
}

/// Where files are fetched from, and stored.
pub trait Shelf {
    ghost use Rattle.emh_io.specs.Fetch.{IsAnswer, fetched, IsUntoldAnswer, HasCause};
    ghost use Rattle.emh_io.specs.Store.{Stores, StoreHasCause};
    ghost use Rattle.emh_io.specs.Told.{Shelved};

    /// What it tells: its files by name, or nothing of them; three counts, which stand still at their type's end; and
    /// the name of the last call that failed.
    ghost told: { Self → Shelved };

    /// The bytes of a file.
    fn fetch(&mut self, name: &[u8]) -> Result<List<u8>, FetchFault>
        ensures told { IfSome (told self.old).holds (λ files. IsAnswer (fetched files name.now) result) }
        ensures untold { IfNone (told self.old).holds
            (IsUntoldAnswer (told self.old).taken (told self.new).taken result) }
        ensures cause { HasCause (told self.old).fetch_faults (told self.new).fetch_faults
            (told self.old).failed (told self.new).failed name.now result }
        ensures kept { (told self.new).holds ≡ (told self.old).holds }
        ensures stores { (told self.new).store_faults ≡ (told self.old).store_faults }
        ensures grows { (told self.old).taken ≤ (told self.new).taken };

    /// Puts a file in the place of the one of that name, or last.
    fn store(&mut self, name: &[u8], bytes: &[u8]) -> Result<(), StoreFault>
        ensures stores { Stores (told self.old).holds (told self.new).holds name.now bytes.now result }
        ensures cause { StoreHasCause (told self.old).store_faults (told self.new).store_faults
            (told self.old).failed (told self.new).failed name.now result }
        ensures fetches { (told self.new).fetch_faults ≡ (told self.old).fetch_faults }
        ensures taken { (told self.new).taken ≡ (told self.old).taken };
}
