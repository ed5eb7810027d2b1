ghost use Rattle.std.specs.Prelude.{◌≡◌, ◌+◌, ◌-◌, ◌^◌, ◌≤◌, ◌↔◌, min};

use crate::verdict::Verdict;

/// How many cases passed, and how many didn't. Each count stands still at its type's end.
#[derive(Clone, Copy, Debug, PartialEq, Eq)]
pub struct Tally {
    pub passed: u64,
    pub differ: u64,
}

impl Tally {
    pub fn new() -> Tally
        ensures passed { result.passed ≡ 0 }
        ensures differ { result.differ ≡ 0 }
    {
        Tally {
            passed: 0,
            differ: 0,
        }
    }

    /// Counts a case that passed.
    pub fn add_passed(&mut self)
        ensures passed { self.new.passed ≡ min (self.old.passed + 1) (2 ^ 64 - 1) }
        ensures differ { self.new.differ ≡ self.old.differ }
    {
        self.passed = self.passed.saturating_add(1);
    }

    /// Counts a case that differs.
    pub fn add_differing(&mut self)
        ensures passed { self.new.passed ≡ self.old.passed }
        ensures differ { self.new.differ ≡ min (self.old.differ + 1) (2 ^ 64 - 1) }
    {
        self.differ = self.differ.saturating_add(1);
    }

    /// The status of the program: 0 where no case differs, else 1.
    pub fn status(&self) -> u8
        ensures well { (result ≡ 0) ↔ (self.now.differ ≡ 0) }
        ensures few { result ≤ 1 }
    {
        if self.differ == 0 { 0 } else { 1 }
    }
}
