ghost use Rattle.std.specs.Prelude.{◌≡◌, ◌+◌, [], ◌∷◌, ◌++◌, not, length, take, slice_get, bytes_eq, IfOk, OnOk, OnErr};
ghost use Rattle.std.specs.List.{position};
ghost use Rattle.std.specs.Option.{option_copied, option_map};
ghost use Rattle.vlog_elab.specs.inside.Agree.{FindsPastFew};
ghost use Rattle.vlog_elab.specs.Named.{named, place_of, is_there};
ghost use Rattle.vlog_elab.specs.inside.Walks.{with_new};

use crate::name_positions::NamePositions;
use emh_base::{Name, NoMemory};
use std::alloc::Global;
use std::marker::Model;

/// Up to so many entries are found by looking through them, without a map, which would take memory for each instance.
const FEW: usize = 8;

/// Names, each with a value, in the order in which they were added. The first of a name is found, in logarithmic time.
/// The map of places is kept where there are more than `FEW` entries.
#[derive(Drop)]
pub struct Names<'a, V> {
    places: NamePositions<'a>,
    entries: Vec<(&'a Name, V)>,
}

impl<'a, V> Model for Names<'a, V> {
    ghost use Rattle.std.specs.Prelude.{List, ℕ};
    ghost use Rattle.std.specs.Coded.{coded_list, coded_ℕ, coded×};
    ghost use Rattle.vlog_elab.specs.inside.Agree.{texts, FindsPastFew};

    ghost Value = { List (List ℕ × V) };

    ghost coded = { coded_list (coded× (coded_list coded_ℕ) V.code) };

    ghost view = { λ names. texts names.entries.items };

    ghost invariant = { λ names. FindsPastFew names.places names.entries.items };
}

impl<'a, V: Drop> Names<'a, V> {
    /// No names. It takes no memory yet.
    pub fn new(alloc: Global) -> Names<'a, V>
        ensures { result ≡ [] }
    {
        Names {
            places: NamePositions::new(alloc),
            entries: Vec::new(alloc),
        }
    }

    /// How many were added.
    pub fn len(&self) -> usize
        ensures { result ≡ length self.now }
    {
        self.entries.len()
    }

    /// The place of the first of that name, counted from 0.
    pub fn find(&self, name: &Name) -> Option<usize>
        ensures { result ≡ place_of self.now name.now }
    {
        if self.entries.len() <= FEW {
            return first_of(self.entries.as_slice(), name.as_bytes());
        }
        self.places.get(self.entries.as_slice(), name.as_bytes())
    }

    pub fn contains(&self, name: &Name) -> bool
        ensures { result ≡ is_there self.now name.now }
    {
        self.find(name).is_some()
    }

    /// The value of that name.
    pub fn get(&self, name: &Name) -> Option<&V>
        ensures { option_copied result ≡ named self.now name.now }
    {
        match self.find(name) {
            Some(place) => self.at(place),
            None => None,
        }
    }

    /// The value at a place, counted from 0, or none past the end.
    pub fn at(&self, place: usize) -> Option<&V>
        ensures { option_copied result ≡ option_map (λ e. e.1) (slice_get self.now place) }
    {
        match self.entries.get(place) {
            Some((_, value)) => Some(value),
            None => None,
        }
    }

    /// The name at a place, counted from 0, or none past the end.
    pub fn name(&self, place: usize) -> Option<&'a Name>
        ensures { option_copied result ≡ option_map (λ e. e.0) (slice_get self.now place) }
    {
        match self.entries.get(place) {
            Some((name, _)) => Some(*name),
            None => None,
        }
    }

    /// Puts a name last. After want of memory all is as before.
    pub fn push(&mut self, name: &'a Name, value: V) -> Result<(), NoMemory>
        ensures ok { OnOk result (self.new ≡ self.old ++ (name.now, value) ∷ []) }
        ensures err { OnErr result (self.new ≡ self.old) }
    {
        let place = self.entries.len();
        self.entries.push((name, value))?;
        match take_up(&mut self.places, &self.entries, place) {
            Ok(()) => Ok(()),
            Err(_) => {
                self.entries.pop();
                Err(NoMemory)
            }
        }
    }

    /// Puts a name last where it isn't there, and answers whether it does. After want of memory all is as before.
    pub fn push_new(&mut self, name: &'a Name, value: V) -> Result<bool, NoMemory>
        ensures new { IfOk result (λ new. new ≡ not (is_there self.old name.now)) }
        ensures ok { OnOk result (self.new ≡ with_new self.old ((name.now, value) ∷ [])) }
        ensures err { OnErr result (self.new ≡ self.old) }
    {
        if self.contains(name) {
            return Ok(false);
        }
        self.push(name, value)?;
        Ok(true)
    }
}

/// The place of the first entry of that name, found by looking through them.
fn first_of<V>(entries: &[(&Name, V)], name: &[u8]) -> Option<usize>
    ensures { result ≡ position (λ entry. bytes_eq name.now entry.0.now) entries.now }
{
    entries.iter().position(|entry| name == entry.0.as_bytes())
}

/// Takes up the last of these entries, at this place. Up to a few entries have no places.
fn take_up<'a, V>(
    places: &mut NamePositions<'a>,
    entries: &Vec<(&'a Name, V)>,
    place: usize,
) -> Result<(), NoMemory>
    requires last { length entries.now.items ≡ place + 1 }
    requires before { FindsPastFew places.old (take place entries.now.items) }
    ensures ok { OnOk result (FindsPastFew places.new entries.now.items) }
    ensures err { OnErr result (FindsPastFew places.new (take place entries.now.items)) }
{
    if place < FEW {
        return Ok(());
    }
    if place > FEW && places.has_room(place) {
        return places.add(entries.as_slice(), place);
    }
    *places = NamePositions::of(*entries.allocator(), entries.as_slice())?;
    Ok(())
}
