//! Designs as constants, and as states.
use crate::modules::{Module, modules_of};
use emh_base::{InstId, ModId, NoMemory, Path, Placement, Places, Plain, Settings, State};
use std::alloc::Global;

/// A design: its modules, the id of the next one and of the top, what is placed and what is set.
#[derive(Clone, Copy)]
pub struct Design {
    pub modules: &'static [Module],
    pub next_module: u32,
    pub top: u32,
    pub places: &'static [(&'static [u32], Placement)],
    pub settings: Settings,
}

/// A design of no modules, with nothing placed and nothing set.
pub const BARE: Design = Design {
    modules: &[],
    next_module: 0,
    top: 0,
    places: &[],
    settings: Settings {
        fanout: None,
        grid: None,
    },
};

pub fn path_of(alloc: Global, steps: &[u32]) -> Result<Path, NoMemory> {
    let mut path = Path::new(alloc);
    for step in steps {
        path.push(InstId(*step))?;
    }
    Ok(path)
}

fn places_of(alloc: Global, places: &[(&[u32], Placement)]) -> Result<Places, NoMemory> {
    let mut made = Places::new(alloc);
    for (path, placement) in places {
        made.set(path_of(alloc, path)?, *placement)?;
    }
    Ok(made)
}

/// The state that a design is.
pub fn state_of(alloc: Global, design: &Design) -> Result<State, NoMemory> {
    Ok(State {
        plain: Plain {
            modules: modules_of(alloc, design.modules)?,
            next_module: design.next_module,
        },
        top: ModId(design.top),
        places: places_of(alloc, design.places)?,
        settings: design.settings,
    })
}
