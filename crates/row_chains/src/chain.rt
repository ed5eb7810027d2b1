ghost use Rattle.std.specs.Prelude.{◌≡◌, ℕ, ◌≤◌, List, Some, IsSome, true, option_map, find};
ghost use Rattle.std.specs.FinMap as map;
ghost use Rattle.timeline.specs.Maps.{put};
ghost use Rattle.row_chains.specs.Chains.{AreChains, next_of, ends_with, ends_without};
ghost use Rattle.row_chains.specs.Rows.{ChainRows, ChainHolders, IsWay, is_numbered, key_in, keys, links, ends_in, lead_at, follow_at};
ghost use Rattle.row_chains.specs.Pays.{Pays};

use crate::link::{Ends, Link};
use undo_slots::Table;

/// A kind of chain: how its rows are linked, and where the rows that own one hold its ends.
pub trait Chain<R: Copy, O: Copy> {
    ghost rows: { ChainRows R };

    ghost holders: { ChainHolders O };

    /// The row, with another one behind it.
    fn lead(&self, row: R, to: Option<usize>) -> R
        ensures { result ≡ rows.lead row to };

    /// The row, with another one before it.
    fn follow(&self, row: R, from: Option<usize>) -> R
        ensures { result ≡ rows.follow row from };

    /// The key of the row behind.
    fn next(&self, row: R) -> Option<usize>
        ensures { result ≡ next_of (rows.link_of row) };

    /// The ends of the chain that a row owns.
    fn ends(&self, holder: O) -> Ends
        ensures { result ≡ holders.ends_of holder };

    /// The row, with other ends of its chain.
    fn with_ends(&self, holder: O, ends: Ends) -> O
        ensures { result ≡ holders.with_ends holder ends };
}

/// Rows with numbers, by which a row of a chain is found.
pub trait Numbered<R: Copy> {
    ghost number_of: { R → ℕ };

    fn number(&self, row: R) -> u32
        ensures { result ≡ number_of row };
}

/// The first row with a number, from a row of a chain on. It goes from row to row.
pub fn find<R: Copy, O: Copy, C: Chain<R, O> + Numbered<R>>(
    chain: &C,
    rows: &Table<R>,
    start: Option<usize>,
    number: u32,
) -> Option<usize>
    requires { (ks : List ℕ) × IsWay C.rows rows.now.now start ks }
    ensures { result ≡ find (is_numbered C.number_of rows.now.now number)
        (keys C.rows rows.now.now start) }
{
    let mut at = start;
    while let Some(key) = at {
        let row = rows.get(key).unwrap();
        if chain.number(row) == number {
            return Some(key);
        }
        at = chain.next(row);
    }
    None
}

/// The key of the first row with a number in the chain that a row owns.
pub fn find_under<R: Copy, O: Copy, C: Chain<R, O> + Numbered<R>>(
    chain: &C,
    rows: &Table<R>,
    holders: &Table<O>,
    owner: usize,
    number: u32,
) -> Option<usize>
    requires chains { AreChains (links C.rows rows.now.now) (ends_in C.holders holders.now.now) }
    ensures { result ≡ key_in C.rows C.holders C.number_of rows.now.now holders.now.now owner
        number }
{
    match holders.get(owner) {
        Some(holder) => find(chain, rows, chain.ends(holder).first, number),
        None => None,
    }
}

/// The row at the key, where there is one, has another one behind it.
fn lead_at<R: Copy, O: Copy, C: Chain<R, O>>(
    chain: &C,
    rows: &mut Table<R>,
    at: Option<usize>,
    to: Option<usize>,
)
    requires open { rows.old.is_open ≡ true }
    requires spare { 1 ≤ rows.old.spare_writes }
    requires live { (k : ℕ) → at ≡ Some k → IsSome (map.get rows.old.now k) }
    ensures rows { rows.new.now ≡ lead_at C.rows rows.old.now at to }
    ensures pays { Pays 1 rows.old rows.new }
{
    if let Some(key) = at {
        let row = rows.get(key).unwrap();
        rows.set(key, chain.lead(row, to));
    }
}

/// The row at the key, where there is one, has another one before it.
fn follow_at<R: Copy, O: Copy, C: Chain<R, O>>(
    chain: &C,
    rows: &mut Table<R>,
    at: Option<usize>,
    from: Option<usize>,
)
    requires open { rows.old.is_open ≡ true }
    requires spare { 1 ≤ rows.old.spare_writes }
    requires live { (k : ℕ) → at ≡ Some k → IsSome (map.get rows.old.now k) }
    ensures rows { rows.new.now ≡ follow_at C.rows rows.old.now at from }
    ensures pays { Pays 1 rows.old rows.new }
{
    if let Some(key) = at {
        let row = rows.get(key).unwrap();
        rows.set(key, chain.follow(row, from));
    }
}

/// Puts a row that links to the last one of its owner's chain last there. The owner's row is written as it is given,
/// with the new ends.
pub fn append<R: Copy, O: Copy, C: Chain<R, O>>(
    chain: &C,
    rows: &mut Table<R>,
    holders: &mut Table<O>,
    owner: usize,
    holder: O,
    key: usize,
)
    requires rows_open { rows.old.is_open ≡ true }
    requires holders_open { holders.old.is_open ≡ true }
    requires rows_spare { 1 ≤ rows.old.spare_writes }
    requires holders_spare { 1 ≤ holders.old.spare_writes }
    requires owner { IsSome (map.get holders.old.now owner) }
    requires last { (k : ℕ) → (C.holders.ends_of holder).last ≡ Some k
        → IsSome (map.get rows.old.now k) }
    ensures rows { rows.new.now
        ≡ lead_at C.rows rows.old.now (C.holders.ends_of holder).last (Some key) }
    ensures holders { holders.new.now ≡ map.insert holders.old.now owner
        (C.holders.with_ends holder (ends_with (C.holders.ends_of holder) key)) }
    ensures rows_pay { Pays 1 rows.old rows.new }
    ensures holders_pay { Pays 1 holders.old holders.new }
{
    let ends = chain.ends(holder);
    lead_at(chain, rows, ends.last, Some(key));
    let grown = Ends {
        first: ends.first.or(Some(key)),
        last: Some(key),
    };
    holders.set(owner, chain.with_ends(holder, grown));
}

/// Joins the neighbours of a row that is so linked, which leaves its chain. The row itself is not written.
pub fn detach<R: Copy, O: Copy, C: Chain<R, O>>(
    chain: &C,
    rows: &mut Table<R>,
    holders: &mut Table<O>,
    link: Link,
)
    requires rows_open { rows.old.is_open ≡ true }
    requires holders_open { holders.old.is_open ≡ true }
    requires rows_spare { 2 ≤ rows.old.spare_writes }
    requires holders_spare { 1 ≤ holders.old.spare_writes }
    requires owner { IsSome (map.get holders.old.now link.owner) }
    requires prev { (k : ℕ) → link.prev ≡ Some k → IsSome (map.get rows.old.now k) }
    requires next { (k : ℕ) → link.next ≡ Some k → IsSome (map.get rows.old.now k) }
    ensures rows { rows.new.now ≡ follow_at C.rows
        (lead_at C.rows rows.old.now link.prev link.next) link.next link.prev }
    ensures holders { holders.new.now ≡ put holders.old.now link.owner
        (option_map (λ holder. C.holders.with_ends holder
        (ends_without (C.holders.ends_of holder) link)) (map.get holders.old.now link.owner)) }
    ensures rows_pay { Pays 2 rows.old rows.new }
    ensures holders_pay { Pays 1 holders.old holders.new }
{
    lead_at(chain, rows, link.prev, link.next);
    follow_at(chain, rows, link.next, link.prev);
    let holder = holders.get(link.owner).unwrap();
    let ends = chain.ends(holder);
    let shrunk = Ends {
        first: if link.prev.is_none() {
            link.next
        } else {
            ends.first
        },
        last: if link.next.is_none() {
            link.prev
        } else {
            ends.last
        },
    };
    if link.prev.is_none() || link.next.is_none() {
        holders.set(link.owner, chain.with_ends(holder, shrunk));
    }
}
