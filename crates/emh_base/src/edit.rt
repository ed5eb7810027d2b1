use crate::ids::{InstId, ModId, NetId};
use crate::list::List;
use crate::memory::NoMemory;
use crate::name::Name;
use crate::path::Path;
use crate::placement::Placement;
use crate::plain::{Conn, Dir, Range, Src};
use crate::try_copy::TryCopy;

/// A change of the design that a user or an observer asks for. Ids name objects of the design as it is then; a port is
/// named by the id of its inner net.
#[derive(Debug, Drop)]
pub enum Edit {
    /// A new module without content.
    CreateModule {
        name: Name,
    },
    /// A module goes with its content.
    DeleteModule {
        module: ModId,
    },
    /// A new net.
    CreateNet {
        module: ModId,
        name: Name,
        range: Option<Range>,
    },
    /// A net goes.
    DeleteNet {
        module: ModId,
        net: NetId,
    },
    /// A new net and a new last port. Each instance of the module gets an open connection there.
    CreatePort {
        module: ModId,
        name: Name,
        dir: Dir,
        range: Option<Range>,
    },
    /// A port goes with its net, and its connection at each instance of the module.
    DeletePort {
        module: ModId,
        port: NetId,
    },
    /// A new instance whose connections are all open.
    CreateInst {
        module: ModId,
        name: Name,
        master: ModId,
    },
    /// An instance goes with its connections.
    DeleteInst {
        module: ModId,
        inst: InstId,
    },
    /// The port's connection becomes these sources, leftmost first, whatever it was.
    Connect {
        module: ModId,
        inst: InstId,
        port: NetId,
        bits: List<Src>,
    },
    /// The port's connection becomes open.
    Disconnect {
        module: ModId,
        inst: InstId,
        port: NetId,
    },
    RenameModule {
        module: ModId,
        name: Name,
    },
    /// A net gets a new name, and with it the port that it is the inner net of.
    RenameNet {
        module: ModId,
        net: NetId,
        name: Name,
    },
    RenameInst {
        module: ModId,
        inst: InstId,
        name: Name,
    },
    /// An instance of a leaf becomes one of another leaf, with the same connections by position.
    Resize {
        module: ModId,
        inst: InstId,
        master: ModId,
    },
    /// An instance gets a module of its own: an unlocked copy of its master under a new name.
    Uniquify {
        module: ModId,
        inst: InstId,
        name: Name,
    },
    /// The block instance at a path is placed.
    Place {
        path: Path,
        placement: Placement,
    },
    /// The block instance at a path loses its placement, a fixed one too.
    Unplace {
        path: Path,
    },
    /// A module refuses edits from now on.
    Lock {
        module: ModId,
    },
    /// A module takes edits again.
    Unlock {
        module: ModId,
    },
    /// The setting of the observer that limits fan-out: at most `max` sinks, and the cell that it puts in as a buffer.
    SetFanout {
        max: u32,
        cell: ModId,
    },
    /// The setting of the observer that snaps placements to a grid.
    SetGrid {
        grid: u32,
    },
}

/// Who asked for a change: the user, or the observer at this place of those that were handed in, counted from 0.
#[derive(Clone, Copy, Debug, PartialEq, Eq)]
pub enum By {
    User,
    Watch(u32),
}

/// An edit that was done.
#[derive(Debug, Drop)]
pub struct Change {
    pub edit: Edit,
    pub by: By,
    /// For a Connect or a Disconnect the one connection that stood before, for a DeleteInst the instance's connections
    /// in port order, else none.
    pub was: List<Conn>,
    /// The id that a CreateModule, CreateNet, CreatePort, CreateInst or Uniquify gave.
    pub made: Option<u32>,
}

/// What an edit needs in the tables of a design that is kept linked: new rows, and writes to rows.
#[derive(Clone, Copy, Debug, PartialEq, Eq)]
pub struct Need {
    pub rows: u64,
    pub writes: u64,
}

impl TryCopy for Edit {
    fn copy(&self) -> Result<Edit, NoMemory> {
        Ok(match self {
            Edit::CreateModule { name } => Edit::CreateModule { name: name.copy()? },
            Edit::DeleteModule { module } => Edit::DeleteModule { module: *module },
            Edit::CreateNet {
                module,
                name,
                range,
            } => Edit::CreateNet {
                module: *module,
                name: name.copy()?,
                range: *range,
            },
            Edit::DeleteNet { module, net } => Edit::DeleteNet {
                module: *module,
                net: *net,
            },
            Edit::CreatePort {
                module,
                name,
                dir,
                range,
            } => Edit::CreatePort {
                module: *module,
                name: name.copy()?,
                dir: *dir,
                range: *range,
            },
            Edit::DeletePort { module, port } => Edit::DeletePort {
                module: *module,
                port: *port,
            },
            Edit::CreateInst {
                module,
                name,
                master,
            } => Edit::CreateInst {
                module: *module,
                name: name.copy()?,
                master: *master,
            },
            Edit::DeleteInst { module, inst } => Edit::DeleteInst {
                module: *module,
                inst: *inst,
            },
            Edit::Connect {
                module,
                inst,
                port,
                bits,
            } => Edit::Connect {
                module: *module,
                inst: *inst,
                port: *port,
                bits: bits.copy()?,
            },
            Edit::Disconnect { module, inst, port } => Edit::Disconnect {
                module: *module,
                inst: *inst,
                port: *port,
            },
            Edit::RenameModule { module, name } => Edit::RenameModule {
                module: *module,
                name: name.copy()?,
            },
            Edit::RenameNet { module, net, name } => Edit::RenameNet {
                module: *module,
                net: *net,
                name: name.copy()?,
            },
            Edit::RenameInst { module, inst, name } => Edit::RenameInst {
                module: *module,
                inst: *inst,
                name: name.copy()?,
            },
            Edit::Resize {
                module,
                inst,
                master,
            } => Edit::Resize {
                module: *module,
                inst: *inst,
                master: *master,
            },
            Edit::Uniquify { module, inst, name } => Edit::Uniquify {
                module: *module,
                inst: *inst,
                name: name.copy()?,
            },
            Edit::Place { path, placement } => Edit::Place {
                path: path.copy()?,
                placement: *placement,
            },
            Edit::Unplace { path } => Edit::Unplace { path: path.copy()? },
            Edit::Lock { module } => Edit::Lock { module: *module },
            Edit::Unlock { module } => Edit::Unlock { module: *module },
            Edit::SetFanout { max, cell } => Edit::SetFanout {
                max: *max,
                cell: *cell,
            },
            Edit::SetGrid { grid } => Edit::SetGrid { grid: *grid },
        })
    }
}

impl TryCopy for Change {
    fn copy(&self) -> Result<Change, NoMemory> {
        Ok(Change {
            edit: self.edit.copy()?,
            by: self.by,
            was: self.was.copy()?,
            made: self.made,
        })
    }
}
