use crate::ids::{InstId, NetId, OccKey};
use crate::memory::NoMemory;
use crate::path::Path;
use crate::try_copy::TryCopy;

/// Where a net bit or a pin of the unfolding leads to: a constant, or the net bit furthest up that it is connected to,
/// named by its occurrence, its net and its offset from the left.
#[derive(Debug, Drop)]
pub enum Root {
    Tie0,
    Tie1,
    Own(Path, NetId, u16),
}

/// A root by the row of its occurrence.
#[derive(Clone, Copy, Debug, PartialEq, Eq)]
pub enum RootKey {
    Tie0,
    Tie1,
    Own(OccKey, NetId, u16),
}

/// A bit of a pin: an instance of a module, a port of its master and the offset from the left.
#[derive(Clone, Copy, Debug, PartialEq, Eq)]
pub struct PinRef {
    pub inst: InstId,
    pub port: NetId,
    pub offset: u16,
}

impl TryCopy for Root {
    fn copy(&self) -> Result<Root, NoMemory> {
        match self {
            Root::Tie0 => Ok(Root::Tie0),
            Root::Tie1 => Ok(Root::Tie1),
            Root::Own(path, net, offset) => Ok(Root::Own(path.copy()?, *net, *offset)),
        }
    }
}
