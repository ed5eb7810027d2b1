use crate::desk::Desk;
use edit_rules::{Facts, Spot, Totals};
use emh_base::{Counters, Dir, InstId, ModId, Name, NetId, Path, Range, Src};

/// A desk is read as its state is.
impl Facts for Desk {
    ghost state = { λ desk. desk.state };

    fn is_module(&self, id: ModId) -> bool {
        self.state.is_module(id)
    }

    fn is_leaf(&self, id: ModId) -> bool {
        self.state.is_leaf(id)
    }

    fn is_locked(&self, id: ModId) -> bool {
        self.state.is_locked(id)
    }

    fn top(&self) -> ModId {
        self.state.top
    }

    fn is_top(&self, id: ModId) -> bool {
        self.state.is_top(id)
    }

    fn module_named(&self, name: &[u8]) -> Option<ModId> {
        self.state.module_named(name)
    }

    fn is_named_in(&self, id: ModId, name: &[u8]) -> bool {
        self.state.is_named_in(id, name)
    }

    fn net_named(&self, id: ModId, name: &[u8]) -> Option<NetId> {
        self.state.net_named(id, name)
    }

    fn inst_named(&self, id: ModId, name: &[u8]) -> Option<InstId> {
        self.state.inst_named(id, name)
    }

    fn module_name(&self, id: ModId) -> &Name {
        self.state.module_name(id)
    }

    fn net_range(&self, id: ModId, net: NetId) -> Option<Option<Range>> {
        self.state.net_range(id, net)
    }

    fn port_dir(&self, id: ModId, port: NetId) -> Option<Dir> {
        self.state.port_dir(id, port)
    }

    fn port_at(&self, id: ModId, place: u32) -> Option<NetId> {
        self.state.port_at(id, place)
    }

    fn net_after(&self, id: ModId, last: Option<NetId>) -> Option<NetId> {
        self.state.net_after(id, last)
    }

    fn net_name(&self, id: ModId, net: NetId) -> &Name {
        self.state.net_name(id, net)
    }

    fn inst_name(&self, id: ModId, inst: InstId) -> &Name {
        self.state.inst_name(id, inst)
    }

    fn src_at(&self, id: ModId, inst: InstId, port: NetId, offset: u16) -> Option<Src> {
        self.state.src_at(id, inst, port, offset)
    }

    fn net_used(&self, id: ModId, net: NetId) -> bool {
        self.state.net_used(id, net)
    }

    fn port_used(&self, id: ModId, port: NetId) -> bool {
        self.state.port_used(id, port)
    }

    fn master(&self, id: ModId, inst: InstId) -> Option<ModId> {
        self.state.master(id, inst)
    }

    fn is_open(&self, id: ModId, inst: InstId, port: NetId) -> bool {
        self.state.is_open(id, inst, port)
    }

    fn inst_after(&self, id: ModId, last: Option<InstId>) -> Option<InstId> {
        self.state.inst_after(id, last)
    }

    fn module_after(&self, last: Option<ModId>) -> Option<ModId> {
        self.state.module_after(last)
    }

    fn users(&self, id: ModId) -> u64 {
        self.state.users(id)
    }

    fn counters(&self, id: ModId) -> Counters {
        self.state.counters(id)
    }

    fn next_module(&self) -> u32 {
        self.state.next_module()
    }

    fn totals(&self) -> Totals {
        self.state.totals()
    }

    fn times(&self, id: ModId) -> u64 {
        self.state.times(id)
    }

    fn leaf_at(&self, path: &Path) -> Spot {
        self.state.leaf_at(path)
    }
}
