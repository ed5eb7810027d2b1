ghost use Rattle.std.specs.Prelude.{◌≡◌, ◌<◌, IsTrue};
ghost use Rattle.flatten_rules.specs.Lookup.{module_of, width_of};
ghost use Rattle.flatten_rules.specs.Domains.{is_leaf};
ghost use Rattle.flatten_rules.specs.Sound.{IsSound};
ghost use Rattle.edit_rules.specs.Readers.{is_module, is_locked, is_name_in, is_net, is_inst, is_port, net_in, inst_in, master_id, is_net_used, is_port_used, users};
ghost use Rattle.edit_rules.specs.Good.{IsGoodState};
ghost use Rattle.edit_rules.specs.Facts.{is_top, module_named, net_named, inst_named, name_of_module, name_of_net, name_of_inst, net_range, port_dir, port_at, net_after, inst_after, module_after, master, is_open, src_at, counters, totals, times, leaf_at};

use emh_base::{Counters, Dir, InstId, ModId, Name, NetId, Path, Placement, Range, Src};

/// How far a design unfolds: its occurrences, the top among them, and their net bits.
#[derive(Clone, Copy, Debug, PartialEq, Eq)]
pub struct Totals {
    pub occurrences: u64,
    pub bits: u64,
}

/// What is at a path.
#[derive(Clone, Copy, Debug, PartialEq, Eq)]
pub enum Spot {
    Absent,
    /// An occurrence of a module that is no leaf.
    Inner,
    /// A block instance, with its placement where it is placed.
    Leaf(Option<Placement>),
}

/// A design as the rules of edits look at it. Each reader is a plain reading of one state, and takes no memory. Of a
/// net, a port or an instance that isn't there the answer is `None`, or `false`. A port is named by its inner net.
pub trait Facts {
    ghost use Rattle.emh_base.specs.declared.state.State.{State};

    ghost state: { Self → State };

    fn is_module(&self, id: ModId) -> bool
        requires { IsSound (state self.now).plain }
        ensures { result ≡ is_module (state self.now).plain id };

    fn is_leaf(&self, id: ModId) -> bool
        requires sound { IsSound (state self.now).plain }
        requires live { IsTrue (is_module (state self.now).plain id) }
        ensures { result ≡ is_leaf (module_of (state self.now).plain id) };

    fn is_locked(&self, id: ModId) -> bool
        requires sound { IsSound (state self.now).plain }
        requires live { IsTrue (is_module (state self.now).plain id) }
        ensures { result ≡ is_locked (module_of (state self.now).plain id) };

    /// The module at the top.
    fn top(&self) -> ModId
        requires { IsSound (state self.now).plain }
        ensures { result ≡ (state self.now).top };

    fn is_top(&self, id: ModId) -> bool
        requires sound { IsSound (state self.now).plain }
        requires live { IsTrue (is_module (state self.now).plain id) }
        ensures { result ≡ is_top (state self.now) id };

    fn module_named(&self, name: &[u8]) -> Option<ModId>
        requires { IsSound (state self.now).plain }
        ensures { result ≡ module_named (state self.now) name.now };

    /// Whether a net or an instance of a module has the name.
    fn is_named_in(&self, id: ModId, name: &[u8]) -> bool
        requires sound { IsSound (state self.now).plain }
        requires live { IsTrue (is_module (state self.now).plain id) }
        ensures { result ≡ is_name_in (module_of (state self.now).plain id) name.now };

    fn net_named(&self, id: ModId, name: &[u8]) -> Option<NetId>
        requires sound { IsSound (state self.now).plain }
        requires live { IsTrue (is_module (state self.now).plain id) }
        ensures { result ≡ net_named (state self.now) id name.now };

    fn inst_named(&self, id: ModId, name: &[u8]) -> Option<InstId>
        requires sound { IsSound (state self.now).plain }
        requires live { IsTrue (is_module (state self.now).plain id) }
        ensures { result ≡ inst_named (state self.now) id name.now };

    fn module_name(&self, id: ModId) -> &Name
        requires sound { IsSound (state self.now).plain }
        requires live { IsTrue (is_module (state self.now).plain id) }
        ensures { result.now ≡ name_of_module (module_of (state self.now).plain id) };

    /// The range of a net; `Some(None)` where it has one bit and no range.
    fn net_range(&self, id: ModId, net: NetId) -> Option<Option<Range>>
        requires sound { IsSound (state self.now).plain }
        requires live { IsTrue (is_module (state self.now).plain id) }
        ensures { result ≡ net_range (state self.now) id net };

    fn port_dir(&self, id: ModId, port: NetId) -> Option<Dir>
        requires sound { IsSound (state self.now).plain }
        requires live { IsTrue (is_module (state self.now).plain id) }
        ensures { result ≡ port_dir (state self.now) id port };

    /// The port at a place, counted from 0.
    fn port_at(&self, id: ModId, place: u32) -> Option<NetId>
        requires sound { IsSound (state self.now).plain }
        requires live { IsTrue (is_module (state self.now).plain id) }
        ensures { result ≡ port_at (state self.now) id place };

    /// The next net in rising order of ids, the first one for `None`.
    fn net_after(&self, id: ModId, last: Option<NetId>) -> Option<NetId>
        requires sound { IsSound (state self.now).plain }
        requires live { IsTrue (is_module (state self.now).plain id) }
        ensures { result ≡ net_after (state self.now) id last };

    fn net_name(&self, id: ModId, net: NetId) -> &Name
        requires sound { IsSound (state self.now).plain }
        requires live { IsTrue (is_module (state self.now).plain id) }
        requires there { IsTrue (is_net (state self.now).plain id net) }
        ensures { result.now ≡ name_of_net (net_in (state self.now).plain id net) };

    fn inst_name(&self, id: ModId, inst: InstId) -> &Name
        requires sound { IsSound (state self.now).plain }
        requires live { IsTrue (is_module (state self.now).plain id) }
        requires there { IsTrue (is_inst (state self.now).plain id inst) }
        ensures { result.now ≡ name_of_inst (inst_in (state self.now).plain id inst) };

    /// The source of a bit of an instance's connection, by the port of its master and the offset from the left; `None`
    /// exactly where the connection is open.
    fn src_at(&self, id: ModId, inst: InstId, port: NetId, offset: u16) -> Option<Src>
        requires sound { IsSound (state self.now).plain }
        requires live { IsTrue (is_module (state self.now).plain id) }
        requires there { IsTrue (is_inst (state self.now).plain id inst) }
        requires port { IsTrue (is_port (state self.now).plain
            (master_id (inst_in (state self.now).plain id inst)) port) }
        requires within { offset < width_of (net_in (state self.now).plain
            (master_id (inst_in (state self.now).plain id inst)) port) }
        ensures { result ≡ src_at (state self.now) id inst port offset };

    /// Whether a source in a module names the net.
    fn net_used(&self, id: ModId, net: NetId) -> bool
        requires sound { IsSound (state self.now).plain }
        requires live { IsTrue (is_module (state self.now).plain id) }
        ensures { result ≡ is_net_used (module_of (state self.now).plain id) net };

    /// Whether an instance of a module has a connection at the port that isn't open.
    fn port_used(&self, id: ModId, port: NetId) -> bool
        requires sound { IsSound (state self.now).plain }
        requires live { IsTrue (is_module (state self.now).plain id) }
        ensures { result ≡ is_port_used (state self.now).plain id port };

    fn master(&self, id: ModId, inst: InstId) -> Option<ModId>
        requires sound { IsSound (state self.now).plain }
        requires live { IsTrue (is_module (state self.now).plain id) }
        ensures { result ≡ master (state self.now) id inst };

    fn is_open(&self, id: ModId, inst: InstId, port: NetId) -> bool
        requires sound { IsSound (state self.now).plain }
        requires live { IsTrue (is_module (state self.now).plain id) }
        ensures { result ≡ is_open (state self.now) id inst port };

    /// The next instance in rising order of ids, the first one for `None`.
    fn inst_after(&self, id: ModId, last: Option<InstId>) -> Option<InstId>
        requires sound { IsSound (state self.now).plain }
        requires live { IsTrue (is_module (state self.now).plain id) }
        ensures { result ≡ inst_after (state self.now) id last };

    /// The next module in rising order of ids, the first one for `None`.
    fn module_after(&self, last: Option<ModId>) -> Option<ModId>
        requires { IsSound (state self.now).plain }
        ensures { result ≡ module_after (state self.now) last };

    /// How many instances have a module as their master, in the whole table.
    fn users(&self, id: ModId) -> u64
        requires sound { IsSound (state self.now).plain }
        requires live { IsTrue (is_module (state self.now).plain id) }
        ensures { result ≡ users (state self.now).plain id };

    fn counters(&self, id: ModId) -> Counters
        requires sound { IsSound (state self.now).plain }
        requires live { IsTrue (is_module (state self.now).plain id) }
        ensures { result ≡ counters (state self.now) id };

    /// The id that the next module gets.
    fn next_module(&self) -> u32
        requires { IsSound (state self.now).plain }
        ensures { result ≡ (state self.now).plain.next_module };

    fn totals(&self) -> Totals
        requires { IsGoodState (state self.now) }
        ensures { result ≡ totals (state self.now) };

    /// How many occurrences are of a module.
    fn times(&self, id: ModId) -> u64
        requires good { IsGoodState (state self.now) }
        requires live { IsTrue (is_module (state self.now).plain id) }
        ensures { result ≡ times (state self.now) id };

    fn leaf_at(&self, path: &Path) -> Spot
        requires { IsGoodState (state self.now) }
        ensures { result ≡ leaf_at (state self.now) path.now };
}
