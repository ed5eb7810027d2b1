use crate::ids::ModId;
use crate::memory::NoMemory;
use crate::places::Places;
use crate::plain::Plain;
use crate::try_copy::TryCopy;

/// How the observer that limits fan-out is set: more than `max` sinks of a net bit are split up by buffers of `cell`.
#[derive(Clone, Copy, Debug, PartialEq, Eq)]
pub struct Fanout {
    pub max: u32,
    pub cell: ModId,
}

/// The settings of observers, none where an observer isn't set.
#[derive(Clone, Copy, Debug, PartialEq, Eq)]
pub struct Settings {
    pub fanout: Option<Fanout>,
    /// The width of the grid that placements are snapped to.
    pub grid: Option<u32>,
}

/// A design at one moment: its modules, which of them is the top, where block instances are placed, and the settings.
#[derive(Debug, Drop)]
pub struct State {
    pub plain: Plain,
    pub top: ModId,
    pub places: Places,
    pub settings: Settings,
}

impl TryCopy for State {
    fn copy(&self) -> Result<State, NoMemory> {
        Ok(State {
            plain: self.plain.copy()?,
            top: self.top,
            places: self.places.copy()?,
            settings: self.settings,
        })
    }
}
