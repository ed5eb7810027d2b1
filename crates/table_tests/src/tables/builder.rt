//! Tables of modules, and large ones by numbers.
use crate::modules::{Module, modules_of, name_of};
use emh_base::{InstId, List, ModId, NoMemory, PInst, PModule, Plain};
use std::alloc::Global;

/// A module that holds nothing, with counters that many objects come before.
pub const EMPTY: Module = Module {
    next_net: 10,
    next_inst: 10,
    ..crate::modules::EMPTY
};

/// The table of some modules.
pub fn table_of(alloc: Global, modules: &[Module], next_module: u32) -> Result<Plain, NoMemory> {
    Ok(Plain {
        modules: modules_of(alloc, modules)?,
        next_module,
    })
}

/// A table that many modules fit in, and has none.
pub fn empty_table(alloc: Global) -> Plain {
    Plain {
        modules: List::new(alloc),
        next_module: 100_000,
    }
}

/// Puts a module last that has an instance of each master, none of which has ports. Names are numbers.
pub fn add(alloc: Global, plain: &mut Plain, id: u32, masters: &[u32]) -> Result<(), NoMemory> {
    plain.modules.push(PModule {
        id: ModId(id),
        name: name_of(alloc, id.to_string(alloc)?.as_str())?,
        leaf: false,
        locked: false,
        nets: List::new(alloc),
        ports: List::new(alloc),
        insts: insts_by_masters(alloc, masters)?,
        next_net: 0,
        next_inst: 20,
    })
}

fn insts_by_masters(alloc: Global, masters: &[u32]) -> Result<List<PInst>, NoMemory> {
    let mut insts = List::new(alloc);
    let mut id: u32 = 0;
    for master in masters {
        insts.push(PInst {
            id: InstId(id),
            name: name_of(alloc, id.to_string(alloc)?.as_str())?,
            master: ModId(*master),
            conns: List::new(alloc),
        })?;
        id = id.saturating_add(1);
    }
    Ok(insts)
}

/// Modules from 0 on, each with an instance of the next one, and the last one with these masters.
pub fn chain_down(alloc: Global, links: u32, last: &[u32]) -> Result<Plain, NoMemory> {
    let mut plain = empty_table(alloc);
    for link in 0..links {
        add(alloc, &mut plain, link, &[link + 1])?;
    }
    add(alloc, &mut plain, links, last)?;
    Ok(plain)
}
