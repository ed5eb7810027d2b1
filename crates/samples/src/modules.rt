//! Modules as constants, and as rows of a table.
use emh_base::{
    Conn, Dir, InstId, List, ModId, Name, NetId, NoMemory, PInst, PModule, PNet, PPort, Range, Src,
};
use std::alloc::Global;

/// A range's indices.
pub type Ends = (u32, u32);

/// A net's id, its name and its range.
pub type Net = (u32, &'static str, Option<Ends>);

/// The id of a port's net, and its direction.
pub type Port = (u32, Dir);

/// The sources at each port, which is open where there are none.
pub type Conns = &'static [&'static [Src]];

/// An instance's id, its name, its master and its connections.
pub type Inst = (u32, &'static str, u32, Conns);

/// A module, its ids as numbers.
#[derive(Clone, Copy)]
pub struct Module {
    pub id: u32,
    pub name: &'static str,
    pub leaf: bool,
    pub locked: bool,
    pub nets: &'static [Net],
    pub ports: &'static [Port],
    pub insts: &'static [Inst],
    pub next_net: u32,
    pub next_inst: u32,
}

/// A module that holds nothing.
pub const EMPTY: Module = Module {
    id: 0,
    name: "",
    leaf: false,
    locked: false,
    nets: &[],
    ports: &[],
    insts: &[],
    next_net: 0,
    next_inst: 0,
};

pub fn range_of(ends: Option<Ends>) -> Option<Range> {
    match ends {
        None => None,
        Some((left, right)) => Some(Range { left, right }),
    }
}

pub fn name_of(alloc: Global, text: &str) -> Result<Name, NoMemory> {
    match Name::new(alloc, text.as_bytes()) {
        Ok(name) => Ok(name),
        Err(_) => Err(NoMemory),
    }
}

pub fn sources_of(alloc: Global, sources: &[Src]) -> Result<List<Src>, NoMemory> {
    let mut bits = List::new(alloc);
    for source in sources {
        bits.push(*source)?;
    }
    Ok(bits)
}

pub fn conns_of(alloc: Global, ports: &[&[Src]]) -> Result<List<Conn>, NoMemory> {
    let mut conns = List::new(alloc);
    for sources in ports {
        if sources.is_empty() {
            conns.push(Conn::Open)?;
        } else {
            conns.push(Conn::Bits(sources_of(alloc, sources)?))?;
        }
    }
    Ok(conns)
}

fn nets_of(alloc: Global, nets: &[Net]) -> Result<List<PNet>, NoMemory> {
    let mut made = List::new(alloc);
    for (id, name, range) in nets {
        made.push(PNet {
            id: NetId(*id),
            name: name_of(alloc, name)?,
            range: range_of(*range),
        })?;
    }
    Ok(made)
}

fn ports_of(alloc: Global, ports: &[Port]) -> Result<List<PPort>, NoMemory> {
    let mut made = List::new(alloc);
    for (net, dir) in ports {
        made.push(PPort {
            net: NetId(*net),
            dir: *dir,
        })?;
    }
    Ok(made)
}

fn insts_of(alloc: Global, insts: &[Inst]) -> Result<List<PInst>, NoMemory> {
    let mut made = List::new(alloc);
    for (id, name, master, ports) in insts {
        made.push(PInst {
            id: InstId(*id),
            name: name_of(alloc, name)?,
            master: ModId(*master),
            conns: conns_of(alloc, ports)?,
        })?;
    }
    Ok(made)
}

fn module_of(alloc: Global, module: &Module) -> Result<PModule, NoMemory> {
    Ok(PModule {
        id: ModId(module.id),
        name: name_of(alloc, module.name)?,
        leaf: module.leaf,
        locked: module.locked,
        nets: nets_of(alloc, module.nets)?,
        ports: ports_of(alloc, module.ports)?,
        insts: insts_of(alloc, module.insts)?,
        next_net: module.next_net,
        next_inst: module.next_inst,
    })
}

/// The rows of some modules.
pub fn modules_of(alloc: Global, modules: &[Module]) -> Result<List<PModule>, NoMemory> {
    let mut made = List::new(alloc);
    for module in modules {
        made.push(module_of(alloc, module)?)?;
    }
    Ok(made)
}
