ghost use Rattle.std.specs.Prelude.{◌≡◌, ℕ, ◌==◌, ◌<◌, ◌≤◌, ◌↔◌, true, false, nat_lt, length, All, AllPairs, position, IsTrue};
ghost use Rattle.std.specs.List.Sorted.{IsPartitionPoint};
ghost use Rattle.flatten_rules.specs.Sound.{IsCounter};

use emh_base::{PInst, PModule, PNet};

/// An item of a table that keeps its items in rising order of their numbers.
pub trait Numbered {
    ghost number_of: { Self → ℕ };

    fn number(&self) -> u32
        ensures { result ≡ number_of self.now };
}

impl Numbered for PModule {
    ghost number_of = { λ m. m.id.0 };

    fn number(&self) -> u32 {
        self.id.0
    }
}

impl Numbered for PNet {
    ghost number_of = { λ net. net.id.0 };

    fn number(&self) -> u32 {
        self.id.0
    }
}

impl Numbered for PInst {
    ghost number_of = { λ inst. inst.id.0 };

    fn number(&self) -> u32 {
        self.id.0
    }
}

/// The place of the item with a number. Where numbers have no gaps it is the number; else it is found by binary search.
pub fn place_of<T: Numbered>(items: &[T], number: u32) -> Option<usize>
    requires { AllPairs (λ a b. T.number_of a < T.number_of b) items.now }
    ensures { result ≡ position (λ item. T.number_of item == number) items.now }
{
    let place = number as usize;
    if place < items.len() && items[place].number() == number {
        Some(place)
    } else {
        searched(items, number)
    }
}

/// The place of the item with a number, by binary search.
fn searched<T: Numbered>(items: &[T], number: u32) -> Option<usize>
    requires { AllPairs (λ a b. T.number_of a < T.number_of b) items.now }
    ensures { result ≡ position (λ item. T.number_of item == number) items.now }
{
    let place = first_from(items, number);
    if place < items.len() && items[place].number() == number {
        Some(place)
    } else {
        None
    }
}

/// The place of the first item that has no lower number.
fn first_from<T: Numbered>(items: &[T], number: u32) -> usize
    requires { AllPairs (λ a b. T.number_of a < T.number_of b) items.now }
    ensures within { result ≤ length items.now }
    ensures parts { IsPartitionPoint (λ item. nat_lt (T.number_of item) number ≡ true)
        (λ item. nat_lt (T.number_of item) number ≡ false) items.now result }
{
    items.partition_point(|item| item.number() < number)
}

/// Whether the numbers of the items rise, and end below a counter, which is at most 4,294,967,295.
pub fn rises<T: Numbered>(items: &[T], counter: u32) -> bool
    ensures rises { IsTrue result ↔ (AllPairs (λ a b. T.number_of a < T.number_of b) items.now
        × All (λ item. T.number_of item < counter) items.now) }
    ensures counter { IsCounter counter }
{
    let mut next: u64 = 0;
    for item in items {
        if u64::from(item.number()) < next {
            return false;
        }
        next = u64::from(item.number()) + 1;
    }
    next <= u64::from(counter)
}
