ghost use Rattle.std.specs.Prelude.{◌≡◌, ◌↔◌, ℕ, ◌<◌, ◌^◌, IsTrue, IsNone, IfSome, Contains, length, slice_get};
ghost use Rattle.word_table.specs.Texts.{texts, rising};

use std::marker::Model;

/// A table of `N` distinct byte words in the order of bytes, `N` at most 65,535.
///
/// A contract sees it as the list of its words. The macro [`words!`](crate::words) writes the constant that
/// [`Words::new`] takes:
///
/// ```
/// const TABLE: &[&[u8]] = words![b"load" b"report" b"write"];
/// let commands: Words<3> = Words::new(TABLE);
/// ```
#[derive(Drop)]
pub struct Words<const N: usize> {
    words: &'static [&'static [u8]],
}

impl<const N: usize> Model for Words<N> {
    ghost use Rattle.std.specs.Prelude.{ℕ, List};
    ghost use Rattle.word_table.specs.Texts.{texts, IsTable};

    ghost Value = { List (List ℕ) };

    ghost view = { λ table. texts table.words.now };

    ghost invariant = { λ table. IsTable N table.words.now };
}

impl<const N: usize> Words<N> {
    /// The table of these words. The check computes that a written-out list of them rises.
    pub fn new(words: &'static [&'static [u8]]) -> Words<N>
        requires rising { IsTrue (rising (texts words.now)) }
        requires rows { length words.now ≡ N }
        requires numbered { N < 2 ^ 16 }
        ensures { result ≡ texts words.entry.now }
    {
        Words { words }
    }

    /// The row of a word, by binary search.
    pub fn find(&self, word: &[u8]) -> Option<u16>
        ensures row { (row : ℕ) → (result ≡ Some row) ↔ (slice_get self.now row ≡ Some word.now) }
        ensures none { IsNone result ↔ ¬ Contains self.now word.now }
        ensures within { IfSome result (λ row. row < N) }
    {
        match self.words.binary_search(&word) {
            Ok(row) => Some(row as u16),
            Err(_) => None,
        }
    }

    /// The word of a row.
    pub fn at(&self, row: u16) -> &[u8]
        requires { row < N }
        ensures { slice_get self.now row ≡ Some result.now }
    {
        self.words[row as usize]
    }
}

/// The words of a table, lowest first: the value of a constant in a function's body, which [`Words::new`] takes.
#[macro_export]
macro_rules! words {
    ($($word:literal)*) => {
        &[$($word),*]
    };
}
