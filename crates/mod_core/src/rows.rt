ghost use Rattle.std.specs.Prelude.{◌≡◌, ◌↔◌, None, IsTrue};

use emh_base::{Dir, InstId, ModId, NetId, Range};
use row_chains::{Ends, Link};

/// What the whole table has: its modules and the id that the next one gets. There is one such row.
#[derive(Clone, Copy)]
pub struct TopRow {
    pub modules: Ends,
    pub next_module: u32,
}

/// A module. Its name is a number of the pool. Its users are the instances of it, wherever they stand.
#[derive(Clone, Copy)]
pub struct ModRow {
    pub link: Link,
    pub id: ModId,
    pub name: usize,
    pub leaf: bool,
    pub locked: bool,
    pub next_net: u32,
    pub next_inst: u32,
    pub nets: Ends,
    pub ports: Ends,
    pub insts: Ends,
    pub users: Ends,
}

/// A net of a module, and the port on it where there is one.
#[derive(Clone, Copy)]
pub struct NetRow {
    pub link: Link,
    pub id: NetId,
    pub name: usize,
    pub range: Option<Range>,
    pub port: Option<PortRow>,
}

/// A port, in the chain of its module's ports. The keys there are those of their nets' rows.
#[derive(Clone, Copy)]
pub struct PortRow {
    pub link: Link,
    pub dir: Dir,
}

/// An instance in a module. It stands in two chains: of its module's instances, and of its master's users, whose owner
/// is the master's row.
#[derive(Clone, Copy)]
pub struct InstRow {
    pub link: Link,
    pub id: InstId,
    pub name: usize,
    pub user: Link,
}

/// What is read of an instance: the number of its name, and its master.
#[derive(Clone, Copy)]
pub struct InstFacts {
    pub name: usize,
    pub master: ModId,
}

impl ModRow {
    /// Whether the module has no nets, no ports and no instances.
    pub(crate) fn is_bare(&self) -> bool
        ensures { IsTrue result ↔ ((self.now.nets.first ≡ None)
            × ((self.now.ports.first ≡ None) × (self.now.insts.first ≡ None))) }
    {
        self.nets.first.is_none() && self.ports.first.is_none() && self.insts.first.is_none()
    }
}
