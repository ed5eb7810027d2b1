ghost use Rattle.std.specs.Prelude.{◌≡◌, IfOk};

use crate::ids::{InstId, ModId, NetId};
use crate::list::List;
use crate::memory::NoMemory;
use crate::name::Name;
use crate::try_copy::TryCopy;

/// The direction of a port, seen from inside its module.
#[derive(Clone, Copy, Debug, PartialEq, Eq)]
pub enum Dir {
    Input,
    Output,
    Inout,
}

/// The index range of a bus, `[left:right]`. It may rise or fall.
#[derive(Clone, Copy, Debug, PartialEq, Eq)]
pub struct Range {
    pub left: u32,
    pub right: u32,
}

/// What one bit of a connection is tied to: a constant, or a bit of a net of the module.
/// Offset 0 is the net's leftmost bit.
#[derive(Clone, Copy, Debug, PartialEq, Eq)]
pub enum Src {
    Tie0,
    Tie1,
    Bit(NetId, u16),
}

/// The connection of an instance's port: open, or one source for each bit of the port, leftmost first.
#[derive(Debug, Drop)]
pub enum Conn {
    Open,
    Bits(List<Src>),
}

/// A net of a module. Without a range it has one bit.
#[derive(Debug, Drop)]
pub struct PNet {
    pub id: NetId,
    pub name: Name,
    pub range: Option<Range>,
}

/// A port of a module: its inner net, whose name and range it has, and its direction.
#[derive(Clone, Copy, Debug, PartialEq, Eq)]
pub struct PPort {
    pub net: NetId,
    pub dir: Dir,
}

/// An instance of another module, with a connection for each port of that module, in port order.
#[derive(Debug, Drop)]
pub struct PInst {
    pub id: InstId,
    pub name: Name,
    pub master: ModId,
    pub conns: List<Conn>,
}

/// A module: nets and instances in rising order of id, ports in port order.
/// The counters are the ids that the next net and the next instance get.
#[derive(Debug, Drop)]
pub struct PModule {
    pub id: ModId,
    pub name: Name,
    pub leaf: bool,
    pub locked: bool,
    pub nets: List<PNet>,
    pub ports: List<PPort>,
    pub insts: List<PInst>,
    pub next_net: u32,
    pub next_inst: u32,
}

/// The ids that a module's next net and instance get.
#[derive(Clone, Copy, Debug, PartialEq, Eq)]
pub struct Counters {
    pub next_net: u32,
    pub next_inst: u32,
}

/// The module table, in rising order of id. The counter is the id that the next module gets.
#[derive(Debug, Drop)]
pub struct Plain {
    pub modules: List<PModule>,
    pub next_module: u32,
}

impl TryCopy for Src {
    fn copy(&self) -> Result<Src, NoMemory> {
        Ok(*self)
    }
}

impl TryCopy for PPort {
    fn copy(&self) -> Result<PPort, NoMemory> {
        Ok(*self)
    }
}

impl TryCopy for Conn {
    fn copy(&self) -> Result<Conn, NoMemory> {
        match self {
            Conn::Open => Ok(Conn::Open),
            Conn::Bits(bits) => Ok(Conn::Bits(bits.copy()?)),
        }
    }
}

impl TryCopy for PNet {
    fn copy(&self) -> Result<PNet, NoMemory> {
        Ok(PNet {
            id: self.id,
            name: self.name.copy()?,
            range: self.range,
        })
    }
}

impl TryCopy for PInst {
    fn copy(&self) -> Result<PInst, NoMemory> {
        Ok(PInst {
            id: self.id,
            name: self.name.copy()?,
            master: self.master,
            conns: self.conns.copy()?,
        })
    }
}

impl TryCopy for PModule {
    fn copy(&self) -> Result<PModule, NoMemory> {
        Ok(PModule {
            id: self.id,
            name: self.name.copy()?,
            leaf: self.leaf,
            locked: self.locked,
            nets: self.nets.copy()?,
            ports: self.ports.copy()?,
            insts: self.insts.copy()?,
            next_net: self.next_net,
            next_inst: self.next_inst,
        })
    }
}

impl TryCopy for Plain {
    fn copy(&self) -> Result<Plain, NoMemory> {
        Ok(Plain {
            modules: self.modules.copy()?,
            next_module: self.next_module,
        })
    }
}
