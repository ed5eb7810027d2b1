//! Edits as constants.
use crate::designs::path_of;
use crate::modules::{Ends, name_of, range_of, sources_of};
use emh_base::{Dir, Edit, InstId, ModId, Name, NetId, NoMemory, Placement, Src};
use std::alloc::Global;

/// An edit, its ids as numbers.
#[derive(Clone, Copy)]
pub enum Ask {
    CreateModule(&'static str),
    DeleteModule(u32),
    CreateNet(u32, &'static str, Option<Ends>),
    DeleteNet(u32, u32),
    CreatePort(u32, &'static str, Dir, Option<Ends>),
    DeletePort(u32, u32),
    CreateInst(u32, &'static str, u32),
    DeleteInst(u32, u32),
    Connect(u32, u32, u32, &'static [Src]),
    Disconnect(u32, u32, u32),
    RenameModule(u32, &'static str),
    RenameNet(u32, u32, &'static str),
    RenameInst(u32, u32, &'static str),
    Resize(u32, u32, u32),
    Uniquify(u32, u32, &'static str),
    Place(&'static [u32], Placement),
    Unplace(&'static [u32]),
    Lock(u32),
    Unlock(u32),
    SetFanout(u32, u32),
    SetGrid(u32),
}

pub fn edit_of(alloc: Global, ask: Ask) -> Result<Edit, NoMemory> {
    match ask {
        Ask::CreateModule(name)
        | Ask::CreateNet(_, name, _)
        | Ask::CreatePort(_, name, _, _)
        | Ask::CreateInst(_, name, _)
        | Ask::RenameModule(_, name)
        | Ask::RenameNet(_, _, name)
        | Ask::RenameInst(_, _, name)
        | Ask::Uniquify(_, _, name) => Ok(naming(ask, name_of(alloc, name)?)),
        Ask::Connect(module, inst, port, bits) => Ok(Edit::Connect {
            module: ModId(module),
            inst: InstId(inst),
            port: NetId(port),
            bits: sources_of(alloc, bits)?,
        }),
        Ask::Place(path, placement) => Ok(Edit::Place {
            path: path_of(alloc, path)?,
            placement,
        }),
        Ask::Unplace(path) => Ok(Edit::Unplace {
            path: path_of(alloc, path)?,
        }),
        _ => Ok(numbered(ask)),
    }
}

/// The edits that give a name.
fn naming(ask: Ask, name: Name) -> Edit {
    match ask {
        Ask::CreateNet(module, _, ends) => Edit::CreateNet {
            module: ModId(module),
            name,
            range: range_of(ends),
        },
        Ask::CreatePort(module, _, dir, ends) => Edit::CreatePort {
            module: ModId(module),
            name,
            dir,
            range: range_of(ends),
        },
        Ask::CreateInst(module, _, master) => Edit::CreateInst {
            module: ModId(module),
            name,
            master: ModId(master),
        },
        Ask::RenameModule(module, _) => Edit::RenameModule {
            module: ModId(module),
            name,
        },
        Ask::RenameNet(module, net, _) => Edit::RenameNet {
            module: ModId(module),
            net: NetId(net),
            name,
        },
        Ask::RenameInst(module, inst, _) => Edit::RenameInst {
            module: ModId(module),
            inst: InstId(inst),
            name,
        },
        Ask::Uniquify(module, inst, _) => Edit::Uniquify {
            module: ModId(module),
            inst: InstId(inst),
            name,
        },
        _ => Edit::CreateModule { name },
    }
}

/// The edits that numbers tell.
fn numbered(ask: Ask) -> Edit {
    match ask {
        Ask::DeleteModule(module) => Edit::DeleteModule {
            module: ModId(module),
        },
        Ask::DeleteNet(module, net) => Edit::DeleteNet {
            module: ModId(module),
            net: NetId(net),
        },
        Ask::DeletePort(module, port) => Edit::DeletePort {
            module: ModId(module),
            port: NetId(port),
        },
        Ask::DeleteInst(module, inst) => Edit::DeleteInst {
            module: ModId(module),
            inst: InstId(inst),
        },
        Ask::Disconnect(module, inst, port) => Edit::Disconnect {
            module: ModId(module),
            inst: InstId(inst),
            port: NetId(port),
        },
        Ask::Resize(module, inst, master) => Edit::Resize {
            module: ModId(module),
            inst: InstId(inst),
            master: ModId(master),
        },
        Ask::Lock(module) => Edit::Lock {
            module: ModId(module),
        },
        Ask::Unlock(module) => Edit::Unlock {
            module: ModId(module),
        },
        Ask::SetFanout(max, cell) => Edit::SetFanout {
            max,
            cell: ModId(cell),
        },
        Ask::SetGrid(grid) => Edit::SetGrid { grid },
        _ => Edit::SetGrid { grid: 0 },
    }
}
