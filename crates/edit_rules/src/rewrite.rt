ghost use Rattle.std.specs.Prelude.{◌≡◌, [], ◌∷◌, ◌++◌, ◌==◌, not, map, filter, remove, slice_set, IfOk, OnOk, if◌then◌else◌};

use emh_base::{List, NoMemory, TryCopy};
use flatten_rules::Numbered;
use std::alloc::Global;

/// A change of an item, told by the item as it becomes.
pub trait Rewrite<T> {
    ghost becomes: { Self → T → T };

    fn rewrite(&self, item: &T) -> Result<T, NoMemory>
        ensures { IfOk result (λ made. made ≡ becomes self.now item.now) };
}

/// A list in which each item is changed.
pub fn each<T: Drop, R: Rewrite<T>>(
    alloc: Global,
    items: &[T],
    change: &R,
) -> Result<List<T>, NoMemory>
    ensures { IfOk result (λ made. made ≡ map (R.becomes change.now) items.now) }
{
    let mut made = List::new(alloc);
    for item in items {
        made.push(change.rewrite(item)?)?;
    }
    Ok(made)
}

/// The change of the items that have a number. The others stay.
#[derive(Drop)]
pub struct At<R> {
    pub number: u32,
    pub change: R,
}

impl<T: Numbered + TryCopy, R: Rewrite<T>> Rewrite<T> for At<R> {
    ghost becomes = { λ at item. if T.number_of item == at.number then R.becomes at.change item else item };

    fn rewrite(&self, item: &T) -> Result<T, NoMemory> {
        if item.number() == self.number {
            self.change.rewrite(item)
        } else {
            item.copy()
        }
    }
}

/// A list without the items that have a number.
pub fn without<T: Numbered + TryCopy + Drop>(
    alloc: Global,
    items: &[T],
    number: u32,
) -> Result<List<T>, NoMemory>
    ensures { IfOk result (λ made. made ≡ filter (λ item. not (T.number_of item == number)) items.now) }
{
    let mut made = List::new(alloc);
    for item in items {
        if item.number() != number {
            made.push(item.copy()?)?;
        }
    }
    Ok(made)
}

/// Puts copies of items last.
pub fn push_all<T: TryCopy + Drop>(made: &mut List<T>, items: &[T]) -> Result<(), NoMemory>
    ensures { OnOk result (made.new ≡ made.old ++ items.now) }
{
    for item in items {
        made.push(item.copy()?)?;
    }
    Ok(())
}

/// A list with one item more, which stands last.
pub fn with_last<T: TryCopy + Drop>(
    alloc: Global,
    items: &[T],
    last: T,
) -> Result<List<T>, NoMemory>
    ensures { IfOk result (λ made. made ≡ items.now ++ last ∷ []) }
{
    let mut made = List::new(alloc);
    push_all(&mut made, items)?;
    made.push(last)?;
    Ok(made)
}

/// A list without the item at a place, or all of it where there is no such place.
pub fn without_place<T: TryCopy + Drop>(items: &List<T>, place: usize) -> Result<List<T>, NoMemory>
    ensures { IfOk result (λ made. made ≡ remove items.now place) }
{
    if items.len() <= place {
        return items.copy();
    }
    let mut made = List::new(items.alloc());
    push_all(&mut made, &items.as_slice()[..place])?;
    push_all(&mut made, &items.as_slice()[place + 1..])?;
    Ok(made)
}

/// A list with another item at a place, or as it is where there is no such place.
#[tactic(auto, using(std::proofs::lemmas::List::set_past, std::proofs::lemmas::List::set_split))]
pub fn with_item<T: TryCopy + Drop>(
    items: &List<T>,
    place: usize,
    item: T,
) -> Result<List<T>, NoMemory>
    ensures { IfOk result (λ made. made ≡ slice_set items.now place item) }
{
    if items.len() <= place {
        return items.copy();
    }
    let mut made = List::new(items.alloc());
    push_all(&mut made, &items.as_slice()[..place])?;
    made.push(item)?;
    push_all(&mut made, &items.as_slice()[place + 1..])?;
    Ok(made)
}
