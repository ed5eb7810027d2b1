ghost use Rattle.std.specs.Prelude.{◌≡◌, ℕ, ◌+◌, ◌-◌, ◌^◌, ◌≤◌, length, min, IfOk, IfSome, IsTrue};
ghost use Rattle.emh_io.specs.Fetch.{IsAnswer, within_limit, IsUntoldAnswer, HasCause};
ghost use Rattle.emh_io.specs.Count.{RoseBy};
ghost use Rattle.emh_io.specs.Store.{StoreHasCause};
ghost use Rattle.std.specs.Io.KnownBytes.{Appends};

use crate::shelf::{FetchFault, Shelf, StoreFault};
use emh_base::{FILE_LIMIT, List};
use std::alloc::Global;
use std::fs;
use std::io::{Read, Write};
use std::marker::Model;
use std::rt::Files;

/// How many bytes are asked for in one read.
const PIECE: usize = 65_536;

/// The real files as a shelf, which tells nothing of what it holds. A name is a path as it stands, from the current
/// folder. A file that is missing, is a folder or may not be read has failed, and so has a name that isn't UTF-8.
/// A clause sees how many fetches and how many stores failed, how many bytes were read, and the name of the last call
/// that failed.
#[derive(Drop)]
pub struct FileShelf<R: Files + Drop> {
    alloc: Global,
    files: R,
    faults: u64,
    store_faults: u64,
    taken: u64,
    failed: Option<List<u8>>,
}

impl<R: Files + Drop> Model for FileShelf<R> {
    ghost use Rattle.emh_io.specs.States.{FileShelfState};

    ghost Value = { FileShelfState };

    ghost view = { λ shelf. record {
      faults = shelf.faults;
      store_faults = shelf.store_faults;
      taken = shelf.taken;
      failed = shelf.failed;
    } };
}

impl<R: Files + Drop> FileShelf<R> {
    /// The files that the runtime reaches.
    pub fn new(alloc: Global, files: R) -> FileShelf<R>
        ensures faults { result.faults ≡ 0 }
        ensures store_faults { result.store_faults ≡ 0 }
        ensures taken { result.taken ≡ 0 }
        ensures failed { result.failed ≡ None }
    {
        FileShelf {
            alloc,
            files,
            faults: 0,
            store_faults: 0,
            taken: 0,
            failed: None,
        }
    }

    /// The bytes of the file at that path. It neither counts nor names a failure.
    fn read(&mut self, name: &[u8]) -> Result<List<u8>, FetchFault>
        ensures untold { IsUntoldAnswer self.old.taken self.new.taken result }
        ensures within { IfOk result (λ bytes. length bytes ≤ FILE_LIMIT) }
        ensures counted { IfOk result (λ bytes. self.new.taken
            ≡ min (self.old.taken + length bytes) (2 ^ 64 - 1)) }
        ensures grows { self.old.taken ≤ self.new.taken }
        ensures faults { self.new.faults ≡ self.old.faults }
        ensures store_faults { self.new.store_faults ≡ self.old.store_faults }
        ensures failed { self.new.failed ≡ self.old.failed }
    {
        let Ok(path) = str::from_utf8(name) else {
            return Err(FetchFault::Failed);
        };
        let Ok(mut file) = fs::open(&self.files, path) else {
            return Err(FetchFault::Failed);
        };
        read_whole(self.alloc, &mut file, &mut self.taken)
    }

    /// Whether the file at that path was made of these bytes.
    fn write(&self, name: &[u8], bytes: &[u8]) -> bool {
        let Ok(path) = str::from_utf8(name) else {
            return false;
        };
        let Ok(mut file) = fs::create(&self.files, path) else {
            return false;
        };
        write_whole(&mut file, bytes)
    }
}

impl<R: Files + Drop> Shelf for FileShelf<R> {
    ghost use Rattle.std.specs.Prelude.{None};

    ghost told = { λ shelf. record {
      holds = None;
      fetch_faults = shelf.faults;
      store_faults = shelf.store_faults;
      taken = shelf.taken;
      failed = shelf.failed;
    } };

    /// The bytes of the file at that path.
    fn fetch(&mut self, name: &[u8]) -> Result<List<u8>, FetchFault>
        ensures untold { IsUntoldAnswer self.old.taken self.new.taken result }
        ensures cause { HasCause self.old.faults self.new.faults
            self.old.failed self.new.failed name.now result }
        ensures stores { self.new.store_faults ≡ self.old.store_faults }
        ensures grows { self.old.taken ≤ self.new.taken }

        ensures within { IfOk result (λ bytes. length bytes ≤ FILE_LIMIT) }
        ensures counted { IfOk result (λ bytes. self.new.taken
            ≡ min (self.old.taken + length bytes) (2 ^ 64 - 1)) }
    {
        let asked = List::from_slice(self.alloc, name)?;
        match self.read(name) {
            Err(FetchFault::Failed) => {
                self.faults = self.faults.saturating_add(1);
                self.failed = Some(asked);
                Err(FetchFault::Failed)
            }
            answer => answer,
        }
    }

    /// Makes the file at that path anew, of these bytes. After a failure what stands there is not told.
    fn store(&mut self, name: &[u8], bytes: &[u8]) -> Result<(), StoreFault> {
        let lost = List::from_slice(self.alloc, name)?;
        if self.write(name, bytes) {
            return Ok(());
        }
        self.store_faults = self.store_faults.saturating_add(1);
        self.failed = Some(lost);
        Err(StoreFault::Failed)
    }
}

/// Reads to the end, and adds the number of bytes that come to `taken`.
fn read_whole<R: Read>(
    alloc: Global,
    reader: &mut R,
    taken: &mut u64,
) -> Result<List<u8>, FetchFault>
    ensures told { IfSome (R.remaining reader.old)
        (λ content. IsAnswer (within_limit (Some content)) result) }
    ensures untold { IsUntoldAnswer taken.old taken.new result }
    ensures within { IfOk result (λ bytes. length bytes ≤ FILE_LIMIT) }
    ensures counted { IfOk result (λ bytes. taken.new
        ≡ min (taken.old + length bytes) (2 ^ 64 - 1)) }
    ensures grows { taken.old ≤ taken.new }
{
    let mut bytes = List::new(alloc);
    let mut piece = [0; PIECE];
    loop {
        let Ok(count) = reader.read(&mut piece) else {
            return Err(FetchFault::Failed);
        };
        *taken = taken.saturating_add(count as u64);
        if count == 0 {
            return Ok(bytes);
        }
        if count > FILE_LIMIT - bytes.len() {
            return Err(FetchFault::TooLong);
        }
        bytes.extend(&piece[..count])?;
    }
}

/// Writes all the bytes and flushes, and answers whether that was done.
fn write_whole<W: Write>(out: &mut W, bytes: &[u8]) -> bool
    ensures { IsTrue result → Appends (W.contents out.old) (W.contents out.new) bytes.now }
{
    let mut at = 0;
    while at < bytes.len() {
        let Ok(count) = out.write(&bytes[at..]) else {
            return false;
        };
        if count == 0 {
            return false;
        }
        at += count;
    }
    out.flush().is_ok()
}
