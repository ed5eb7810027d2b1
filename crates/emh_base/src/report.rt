use crate::list::List;
use crate::memory::NoMemory;
use crate::name::Name;
use crate::try_copy::TryCopy;

/// What a report tells.
#[derive(Debug, Drop)]
pub enum Kind {
    /// Each bit of each pin of each leaf occurrence, with its root.
    Pins,
    /// The flat netlist of the leaves.
    Block,
    /// The unfolding, with the net bits of each occurrence.
    Occurrences,
    /// The module table.
    Modules,
    /// How many there are of each.
    Counts,
    /// What can be undone and redone, and which observers listen.
    Log,
    /// All that one net bit is connected to: a net, by the names of the instances that lead to its occurrence, and the
    /// index of the bit where the net has a range.
    Net {
        path: List<Name>,
        net: Name,
        index: Option<u32>,
    },
    /// Each occurrence of the module of this name.
    Where(Name),
}

impl TryCopy for Kind {
    fn copy(&self) -> Result<Kind, NoMemory> {
        Ok(match self {
            Kind::Pins => Kind::Pins,
            Kind::Block => Kind::Block,
            Kind::Occurrences => Kind::Occurrences,
            Kind::Modules => Kind::Modules,
            Kind::Counts => Kind::Counts,
            Kind::Log => Kind::Log,
            Kind::Net { path, net, index } => Kind::Net {
                path: path.copy()?,
                net: net.copy()?,
                index: *index,
            },
            Kind::Where(name) => Kind::Where(name.copy()?),
        })
    }
}
