//! A state read as the rules of edits look at it. Ids are found by binary search.

ghost use Rattle.std.specs.Prelude.{◌≡◌, ◌==◌, ◌<◌, ◌≤◌, true, false, Some, nat_le, length, All, AllPairs, IsTrue, find, count_by, bytes_eq};
ghost use Rattle.std.specs.Option.{option_copied};
ghost use Rattle.std.specs.List.Sorted.{IsPartitionPoint};
ghost use Rattle.emh_base.specs.declared.plain.PInst.{PInst};
ghost use Rattle.flatten_rules.specs.Lookup.{module_of};
ghost use Rattle.flatten_rules.specs.Design.{module_named};
ghost use Rattle.flatten_rules.specs.Root.{bit_of};
ghost use Rattle.flatten_rules.specs.Sound.{IsSound, IsSoundModule};
ghost use Rattle.edit_rules.specs.Readers.{is_module, net_in, port_in, inst_in, users, conn_at, conn_of, master_of, port_place, is_port_used};
ghost use Rattle.edit_rules.specs.Facts.{is_past, is_open_conn};

use crate::facts::{Facts, Spot, Totals};
use crate::readers::{is_name_in, is_net_used, is_place_used, place_of_port};
use crate::spots::module_at;
use emh_base::{
    Conn, Counters, Dir, InstId, List, ModId, Name, NetId, PInst, PModule, PNet, PPort, Path,
    Plain, Range, Src, State,
};
use flatten_rules::{
    Numbered, inst_in, module_of, net_bit_count, net_in, occurrence_count, port_of, times_below,
};

/// A module that is there.
fn holder_of(plain: &Plain, id: ModId) -> &PModule
    requires sound { IsSound plain.now }
    requires live { IsTrue (is_module plain.now id) }
    ensures found { module_of plain.now id ≡ Some result.now }
    ensures sound { IsSoundModule plain.now result.now }
{
    module_of(plain, id).unwrap()
}

/// A port of a module.
fn port_in(plain: &Plain, id: ModId, port: NetId) -> Option<&PPort>
    requires { IsSound plain.now }
    ensures { option_copied result ≡ port_in plain.now id port }
{
    match module_of(plain, id) {
        None => None,
        Some(holder) => port_of(holder, port),
    }
}

/// The first item in rising order whose number is above another, or the first of all.
fn first_past<T: Numbered>(items: &[T], last: Option<u32>) -> Option<&T>
    requires { AllPairs (λ a b. T.number_of a < T.number_of b) items.now }
    ensures { option_copied result ≡ find (λ item. is_past last (T.number_of item)) items.now }
{
    match last {
        None => items.get(0),
        Some(last) => items.get(place_past(items, last)),
    }
}

/// The place behind the items whose numbers are at most another. Where numbers have no gaps, that number is the place
/// of its item.
fn place_past<T: Numbered>(items: &[T], last: u32) -> usize
    requires { AllPairs (λ a b. T.number_of a < T.number_of b) items.now }
    ensures within { result ≤ length items.now }
    ensures parts { IsPartitionPoint (λ item. nat_le (T.number_of item) last ≡ true)
        (λ item. nat_le (T.number_of item) last ≡ false) items.now result }
{
    let guess = last as usize;
    if let Some(item) = items.get(guess) {
        if item.number() == last {
            return guess + 1;
        }
    }
    items.partition_point(|item| item.number() <= last)
}

/// The master of an instance.
pub fn master_of(plain: &Plain, id: ModId, inst: InstId) -> Option<&PModule>
    requires { IsSound plain.now }
    ensures { option_copied result ≡ master_of plain.now (inst_in plain.now id inst) }
{
    match inst_in(plain, id, inst) {
        None => None,
        Some(there) => module_of(plain, there.master),
    }
}

/// The place of a port among those of an instance's master.
pub fn place_at_inst(plain: &Plain, id: ModId, inst: InstId, port: NetId) -> Option<usize>
    requires { IsSound plain.now }
    ensures { result ≡ port_place (master_of plain.now (inst_in plain.now id inst)) port }
{
    place_of_port(master_of(plain, id, inst), port)
}

/// The connection of an instance at a port of its master.
pub fn conn_of(plain: &Plain, id: ModId, inst: InstId, port: NetId) -> Option<&Conn>
    requires { IsSound plain.now }
    ensures { option_copied result ≡ conn_of plain.now (inst_in plain.now id inst) port }
{
    let place = place_at_inst(plain, id, inst, port);
    match inst_in(plain, id, inst) {
        None => None,
        Some(there) => conn_at(&there.conns, place),
    }
}

/// Whether an instance of a module, in whichever module, is connected at a port.
fn is_port_used(plain: &Plain, id: ModId, port: NetId) -> bool
    requires { IsSound plain.now }
    ensures { result ≡ is_port_used plain.now id port }
{
    let place = place_of_port(module_of(plain, id), port);
    let mut modules = plain.modules.as_slice().iter();
    modules.any(|holder| is_place_used(holder, id, place))
}

fn conn_at(conns: &List<Conn>, place: Option<usize>) -> Option<&Conn>
    ensures { option_copied result ≡ conn_at place conns.now }
{
    match place {
        None => None,
        Some(place) => conns.get(place),
    }
}

/// The source of one bit of a connection.
fn bit_of(conn: &Conn, offset: u16) -> Option<Src>
    ensures { result ≡ bit_of conn.now offset }
{
    match conn {
        Conn::Open => None,
        Conn::Bits(bits) => bits.get(usize::from(offset)).copied(),
    }
}

fn is_open_conn(conn: &Conn) -> bool
    ensures { result ≡ is_open_conn (Some conn.now) }
{
    match conn {
        Conn::Open => true,
        Conn::Bits(_) => false,
    }
}

/// The net of a name in a module.
fn net_named<'a>(holder: &'a PModule, name: &[u8]) -> Option<&'a PNet>
    ensures { option_copied result ≡ find (λ net. bytes_eq net.name name.now) holder.now.nets }
{
    let mut nets = holder.nets.as_slice().iter();
    nets.find(|net| net.name.as_bytes() == name)
}

/// The instance of a name in a module.
fn inst_named<'a>(holder: &'a PModule, name: &[u8]) -> Option<&'a PInst>
    ensures { option_copied result ≡ find (λ inst. bytes_eq inst.name name.now) holder.now.insts }
{
    let mut insts = holder.insts.as_slice().iter();
    insts.find(|inst| inst.name.as_bytes() == name)
}

/// The module of a name.
pub fn module_named<'a>(plain: &'a Plain, name: &[u8]) -> Option<&'a PModule>
    ensures { option_copied result ≡ module_named plain.now name.now }
{
    let mut modules = plain.modules.as_slice().iter();
    modules.find(|holder| holder.name.as_bytes() == name)
}

/// How many instances have a module as their master, in a table with that counter.
#[tactic(auto, unfolding(crate::specs::Readers::users))]
fn users(plain: &Plain, id: ModId, counter: u32) -> u64
    requires sound { IsSound plain.now }
    requires counter { counter ≡ plain.now.next_module }
    ensures { result ≡ users plain.now id }
{
    let mut found = 0;
    for holder in plain.modules.as_slice() {
        found += users_in(holder.insts.as_slice(), id, holder.next_inst);
    }
    found
}

/// How many of some instances, whose ids are below a counter, have a module as their master.
fn users_in(insts: &[PInst], id: ModId, counter: u32) -> u64
    requires rise { AllPairs (λ (a b : PInst). a.id.0 < b.id.0) insts.now }
    requires below { All (λ (inst : PInst). inst.id.0 < counter) insts.now }
    ensures value { result ≡ count_by (λ inst. inst.master.0 == id.0) insts.now }
    ensures few { result ≤ 4294967295 }
{
    count_users(insts, id) as u64
}

fn count_users(insts: &[PInst], id: ModId) -> usize
    ensures { result ≡ count_by (λ inst. inst.master.0 == id.0) insts.now }
{
    insts.iter().filter(|inst| inst.master.0 == id.0).count()
}

impl Facts for State {
    ghost state = { λ state. state };

    fn is_module(&self, id: ModId) -> bool {
        module_of(&self.plain, id).is_some()
    }

    fn is_leaf(&self, id: ModId) -> bool {
        holder_of(&self.plain, id).leaf
    }

    fn is_locked(&self, id: ModId) -> bool {
        holder_of(&self.plain, id).locked
    }

    fn top(&self) -> ModId {
        self.top
    }

    fn is_top(&self, id: ModId) -> bool {
        self.top.0 == id.0
    }

    fn module_named(&self, name: &[u8]) -> Option<ModId> {
        match module_named(&self.plain, name) {
            None => None,
            Some(holder) => Some(holder.id),
        }
    }

    fn is_named_in(&self, id: ModId, name: &[u8]) -> bool {
        is_name_in(holder_of(&self.plain, id), name)
    }

    fn net_named(&self, id: ModId, name: &[u8]) -> Option<NetId> {
        match net_named(holder_of(&self.plain, id), name) {
            None => None,
            Some(net) => Some(net.id),
        }
    }

    fn inst_named(&self, id: ModId, name: &[u8]) -> Option<InstId> {
        match inst_named(holder_of(&self.plain, id), name) {
            None => None,
            Some(inst) => Some(inst.id),
        }
    }

    fn module_name(&self, id: ModId) -> &Name {
        &holder_of(&self.plain, id).name
    }

    fn net_range(&self, id: ModId, net: NetId) -> Option<Option<Range>> {
        match net_in(&self.plain, id, net) {
            None => None,
            Some(there) => Some(there.range),
        }
    }

    fn port_dir(&self, id: ModId, port: NetId) -> Option<Dir> {
        match port_in(&self.plain, id, port) {
            None => None,
            Some(there) => Some(there.dir),
        }
    }

    fn port_at(&self, id: ModId, place: u32) -> Option<NetId> {
        match holder_of(&self.plain, id).ports.get(place as usize) {
            None => None,
            Some(port) => Some(port.net),
        }
    }

    fn net_after(&self, id: ModId, last: Option<NetId>) -> Option<NetId> {
        let last = match last {
            None => None,
            Some(last) => Some(last.0),
        };
        match first_past(holder_of(&self.plain, id).nets.as_slice(), last) {
            None => None,
            Some(net) => Some(net.id),
        }
    }

    fn net_name(&self, id: ModId, net: NetId) -> &Name {
        &net_in(&self.plain, id, net).unwrap().name
    }

    fn inst_name(&self, id: ModId, inst: InstId) -> &Name {
        &inst_in(&self.plain, id, inst).unwrap().name
    }

    fn src_at(&self, id: ModId, inst: InstId, port: NetId, offset: u16) -> Option<Src> {
        match conn_of(&self.plain, id, inst, port) {
            None => None,
            Some(conn) => bit_of(conn, offset),
        }
    }

    fn net_used(&self, id: ModId, net: NetId) -> bool {
        is_net_used(holder_of(&self.plain, id), net)
    }

    fn port_used(&self, id: ModId, port: NetId) -> bool {
        is_port_used(&self.plain, id, port)
    }

    fn master(&self, id: ModId, inst: InstId) -> Option<ModId> {
        match inst_in(&self.plain, id, inst) {
            None => None,
            Some(there) => Some(there.master),
        }
    }

    fn is_open(&self, id: ModId, inst: InstId, port: NetId) -> bool {
        match conn_of(&self.plain, id, inst, port) {
            None => false,
            Some(conn) => is_open_conn(conn),
        }
    }

    fn inst_after(&self, id: ModId, last: Option<InstId>) -> Option<InstId> {
        let last = match last {
            None => None,
            Some(last) => Some(last.0),
        };
        match first_past(holder_of(&self.plain, id).insts.as_slice(), last) {
            None => None,
            Some(inst) => Some(inst.id),
        }
    }

    fn module_after(&self, last: Option<ModId>) -> Option<ModId> {
        let last = match last {
            None => None,
            Some(last) => Some(last.0),
        };
        match first_past(self.plain.modules.as_slice(), last) {
            None => None,
            Some(holder) => Some(holder.id),
        }
    }

    fn users(&self, id: ModId) -> u64 {
        users(&self.plain, id, self.plain.next_module)
    }

    fn counters(&self, id: ModId) -> Counters {
        let holder = holder_of(&self.plain, id);
        Counters {
            next_net: holder.next_net,
            next_inst: holder.next_inst,
        }
    }

    fn next_module(&self) -> u32 {
        self.plain.next_module
    }

    fn totals(&self) -> Totals {
        Totals {
            occurrences: occurrence_count(&self.plain, self.top),
            bits: net_bit_count(&self.plain, self.top),
        }
    }

    fn times(&self, id: ModId) -> u64 {
        times_below(&self.plain, self.top, id)
    }

    fn leaf_at(&self, path: &Path) -> Spot {
        match module_at(&self.plain, self.top, path) {
            None => Spot::Absent,
            Some(holder) => {
                if holder.leaf {
                    Spot::Leaf(self.places.get(path))
                } else {
                    Spot::Inner
                }
            }
        }
    }
}
