ghost use Rattle.std.specs.Prelude.{◌≡◌, IsTrue};
ghost use Rattle.std.specs.Option.{option_map};
ghost use Rattle.emh_io.specs.Files.{held};

use crate::held::{Held, bytes_of, place_of};
use crate::shelf::{FetchFault, Shelf, StoreFault};
use emh_base::{FILE_LIMIT, List};
use std::alloc::Global;
use std::marker::Model;

/// A shelf in memory that never fails. A clause sees its files, each as its name and its bytes.
#[derive(Debug, Drop)]
pub struct SureShelf {
    alloc: Global,
    files: List<Held>,
}

impl Model for SureShelf {
    ghost use Rattle.std.specs.Prelude.{IsTrue};
    ghost use Rattle.emh_io.specs.Files.{Files};
    ghost use Rattle.emh_io.specs.Held.{files_of, are_distinct};

    ghost Value = { Files };

    ghost view = { λ shelf. files_of shelf.files };

    ghost invariant = { λ shelf. IsTrue (are_distinct (files_of shelf.files)) };
}

impl SureShelf {
    ghost use Rattle.emh_io.specs.Held.{files_of, are_distinct};

    /// A shelf of these files. Their names must differ: `are_distinct` tells.
    pub fn new(alloc: Global, files: List<Held>) -> SureShelf
        requires { IsTrue (are_distinct (files_of files)) }
        ensures { result ≡ files_of files }
    {
        SureShelf { alloc, files }
    }

    /// The bytes of the file of that name, if there is one. The names differ.
    pub fn held(&self, name: &[u8]) -> Option<&[u8]>
        ensures bytes { option_map (λ bytes. bytes.now) result ≡ held self.now name.now }
        ensures distinct { IsTrue (are_distinct self.now) }
    {
        bytes_of(self.files.as_slice(), name)
    }
}

impl Shelf for SureShelf {
    ghost use Rattle.std.specs.Prelude.{Some, None};

    ghost told = { λ files. record {
      holds = Some files;
      fetch_faults = 0;
      store_faults = 0;
      taken = 0;
      failed = None;
    } };

    fn fetch(&mut self, name: &[u8]) -> Result<List<u8>, FetchFault> {
        match bytes_of(self.files.as_slice(), name) {
            None => Err(FetchFault::Missing),
            Some(bytes) if bytes.len() > FILE_LIMIT => Err(FetchFault::TooLong),
            Some(bytes) => Ok(List::from_slice(self.alloc, bytes)?),
        }
    }

    /// Both the name and the bytes are copied first, so that want of memory changes nothing.
    fn store(&mut self, name: &[u8], bytes: &[u8]) -> Result<(), StoreFault> {
        let file = Held {
            name: List::from_slice(self.alloc, name)?,
            bytes: List::from_slice(self.alloc, bytes)?,
        };
        match place_of(self.files.as_slice(), name) {
            Some(at) => self.files.set(at, file),
            None => self.files.push(file)?,
        }
        Ok(())
    }
}
