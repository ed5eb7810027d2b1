//! Positions of names.
ghost use Rattle.std.specs.Prelude.{◌≡◌, ℕ, List, ◌+◌, ◌/◌, ◌<◌, nat_lt, if◌then◌else◌, length, take, slice_get, bytes_eq, nat_eq, Some, unwrap_or, IfOk, OnOk, OnErr};
ghost use Rattle.std.specs.Ordering.{nat_cmp};
ghost use Rattle.std.specs.Cmp.Lexicographic.{slice_cmp};
ghost use Rattle.std.specs.BTreeMap.{get_by, IsUnchanged};
ghost use Rattle.vlog_elab.specs.Named.{place_of};
ghost use Rattle.vlog_elab.specs.declared.name_positions.Look.TheVariants.{Free};
ghost use Rattle.vlog_elab.specs.inside.Agree.{texts, is_named, look_at, look_up, FindsEach};
ghost use Rattle.vlog_elab.specs.inside.Placed.{number_of, slot_of, place_at};

use emh_base::{Name, NoMemory};
use std::alloc::Global;
use std::collections::BTreeMap;

/// The factor of the numbers of names: it is odd and has no pattern, so names that are nearly alike, as `n1` and `n2`,
/// have numbers that stand far apart.
const FACTOR: u64 = 2_862_933_555_777_941_757;

/// What an empty slot holds.
const EMPTY: u32 = u32::MAX;

/// Where each of some entries stands, by its name. The entries themselves are kept by the caller.
///
/// A name has two slots that stand side by side, by a number that is made of its bytes, and its place stands in the first
/// of them that was free. A name that found neither free is in an ordered map of names. Of names that aren't chosen for
/// it few come to that, so most are found by one or two looks; names that all share their slots cost what the map costs.
#[derive(Drop)]
pub struct NamePositions<'a> {
    /// The places of names, each in a slot of its name.
    slots: Vec<u32>,
    /// The places of the other names.
    by_name: BTreeMap<&'a [u8], usize>,
}

/// Where a look for a name in its slots ends.
#[derive(Clone, Copy)]
enum Look {
    /// At a slot that is free, so that the name isn't there.
    Free(usize),
    /// At the place of the name.
    At(usize),
    /// Past slots that other names have.
    Past,
}

impl<'a> NamePositions<'a> {
    /// No places, and no slot. It takes no memory yet.
    pub fn new(alloc: Global) -> NamePositions<'a>
        ensures { length result.slots.items ≡ 0 }
    {
        NamePositions {
            slots: Vec::new(alloc),
            by_name: BTreeMap::new(alloc),
        }
    }

    /// The places of these entries, with six slots for each.
    pub fn of<V>(alloc: Global, entries: &[(&'a Name, V)]) -> Result<NamePositions<'a>, NoMemory>
        ensures { IfOk result (λ places. FindsEach places.slots.items places.by_name entries.now) }
    {
        let mut places = NamePositions {
            slots: Vec::from_elem(alloc, EMPTY, slots_for(entries.len()))?,
            by_name: BTreeMap::new(alloc),
        };
        for place in 0..entries.len() {
            places.add(entries, place)?;
        }
        Ok(places)
    }

    /// Whether there are three slots for each of so many entries and for one more.
    pub fn has_room(&self, entries: usize) -> bool
        ensures { result ≡ nat_lt entries (length self.now.slots.items / 3) }
    {
        entries < self.slots.len() / 3
    }

    /// The place of a name among the entries.
    pub fn get<V>(&self, entries: &[(&Name, V)], name: &[u8]) -> Option<usize>
        requires { FindsEach self.now.slots.items self.now.by_name entries.now }
        ensures { result ≡ place_of (texts entries.now) name.now }
    {
        match look_up(self.slots.as_slice(), entries, name) {
            Look::Free(_) => None,
            Look::At(place) => Some(place),
            Look::Past => self.by_name.get(name).copied(),
        }
    }

    /// Takes up the entry at this place, after those before it. After want of memory all is found as before. More
    /// places than a slot can hold are want of memory too.
    pub fn add<V>(&mut self, entries: &[(&'a Name, V)], place: usize) -> Result<(), NoMemory>
        requires within { place < length entries.now }
        requires before { FindsEach self.old.slots.items self.old.by_name (take place entries.now) }
        ensures ok { OnOk result (FindsEach self.new.slots.items self.new.by_name
            (take (place + 1) entries.now)) }
        ensures err { OnErr result (FindsEach self.new.slots.items self.new.by_name
            (take place entries.now)) }
    {
        let name = entries[place].0.as_bytes();
        match look_up(self.slots.as_slice(), entries, name) {
            Look::Free(slot) => put(&mut self.slots, slot, place),
            Look::At(_) => Ok(()),
            Look::Past => {
                place_in(&mut self.by_name, name, place)?;
                Ok(())
            }
        }
    }
}

/// Looks for a name in its two slots.
fn look_up<V>(slots: &[u32], entries: &[(&Name, V)], name: &[u8]) -> Look
    requires { 1 < length slots.now }
    ensures value { result ≡ look_up slots.now entries.now name.now }
    ensures within { (slot : ℕ) → result ≡ Free slot → slot < length slots.now }
{
    let slot = slot_of(slots.len() - 1, name);
    match look_at(slots, slot, entries, name) {
        Look::Past => look_at(slots, slot + 1, entries, name),
        ended => ended,
    }
}

/// Looks for a name in one slot.
fn look_at<V>(slots: &[u32], slot: usize, entries: &[(&Name, V)], name: &[u8]) -> Look
    requires { slot < length slots.now }
    ensures { result ≡ look_at slots.now slot entries.now name.now }
{
    match place_at(slots, slot) {
        None => Look::Free(slot),
        Some(first) => {
            if is_named(entries, first, name) {
                return Look::At(first);
            }
            Look::Past
        }
    }
}

/// Puts a place into a slot.
fn put(slots: &mut Vec<u32>, slot: usize, place: usize) -> Result<(), NoMemory>
    requires { slot < length slots.old.items }
    ensures ok { OnOk result ((n : ℕ) → place_at slots.new.items n
        ≡ (if nat_eq slot n then Some place else place_at slots.old.items n)) }
    ensures err { OnErr result (slots.new ≡ slots.old) }
    ensures len { length slots.new.items ≡ length slots.old.items }
{
    if place >= EMPTY as usize {
        return Err(NoMemory);
    }
    slots[slot] = place as u32;
    Ok(())
}

/// The place that a name has in a map, or else this one, which it gets.
fn place_in<'a>(
    places: &mut BTreeMap<&'a [u8], usize>,
    name: &'a [u8],
    place: usize,
) -> Result<usize, NoMemory>
    ensures first { IfOk result (λ first. first
        ≡ unwrap_or (get_by (λ k. slice_cmp nat_cmp name.now k.now) places.old) place) }
    ensures ok { IfOk result (λ first. (q : List ℕ) → get_by
        (λ k. slice_cmp nat_cmp q k.now) places.new
        ≡ (if bytes_eq name.now q then Some first else get_by
        (λ k. slice_cmp nat_cmp q k.now) places.old)) }
    ensures err { OnErr result (IsUnchanged places.old places.new) }
{
    match places.entry(name) {
        Ok(entry) => Ok(*entry.or_insert(place)),
        Err(_) => Err(NoMemory),
    }
}

/// The place in a slot, or none where the slot is empty.
fn place_at(slots: &[u32], slot: usize) -> Option<usize>
    requires { slot < length slots.now }
    ensures { result ≡ place_at slots.now slot }
{
    let first = slots[slot];
    if first == EMPTY {
        return None;
    }
    Some(first as usize)
}

/// Whether the entry at a place has this name.
fn is_named<V>(entries: &[(&Name, V)], place: usize, name: &[u8]) -> bool
    ensures { result ≡ is_named (slice_get entries.now place) name.now }
{
    match entries.get(place) {
        Some(entry) => entry.0.as_bytes() == name,
        None => false,
    }
}

/// How many slots so many entries get.
fn slots_for(entries: usize) -> usize
    ensures { 1 < result }
{
    entries.saturating_mul(6).saturating_add(6)
}

/// The first slot of a name, where there are so many and one more: it stands among them where the name's number stands
/// among all numbers.
fn slot_of(count: usize, name: &[u8]) -> usize
    requires { 0 < count }
    ensures value { result ≡ slot_of count name.now }
    ensures within { result < count }
{
    (u128::from(number_of(name)) * count as u128 / (1 << 64)) as usize
}

/// The number of a name: each byte is added, and the sum is multiplied, of which the lowest 64 bits are kept.
fn number_of(name: &[u8]) -> u64
    ensures { result ≡ number_of name.now }
{
    let mut number: u64 = 0;
    for byte in name {
        number = number.wrapping_add(u64::from(*byte)).wrapping_mul(FACTOR);
    }
    number
}
