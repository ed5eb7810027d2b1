use emh_base::{List, ModId, NetId, Path, Placement, Root};

/// An occurrence of the unfolding: a module at the end of a path, the top at the empty one.
#[derive(Debug, Drop)]
pub struct FreshOcc {
    pub path: Path,
    pub module: ModId,
}

/// A bit of a net of an occurrence, counted from the left, and the root that it leads to.
#[derive(Debug, Drop)]
pub struct FreshBit {
    pub path: Path,
    pub net: NetId,
    pub offset: u16,
    pub root: Root,
}

/// A leaf occurrence, with its leaf cell and its placement, if it is placed.
#[derive(Debug, Drop)]
pub struct FreshInst {
    pub path: Path,
    pub master: ModId,
    pub placement: Option<Placement>,
}

/// A bit of a port of a leaf occurrence, counted from the left: the port is named by its inner net. The root is that of
/// the bit's source above, none where the pin is open.
#[derive(Debug, Drop)]
pub struct FreshPin {
    pub path: Path,
    pub port: NetId,
    pub offset: u16,
    pub root: Option<Root>,
}

/// What a table unfolds to from its top. Occurrences stand in preorder, instances of one module in the order of ids;
/// of one occurrence the net bits stand by net and then offset, and the pins in port order and then by offset.
#[derive(Debug, Drop)]
pub struct Fresh {
    /// All occurrences, leaves too.
    pub occs: List<FreshOcc>,
    /// The net bits of all occurrences but leaves.
    pub bits: List<FreshBit>,
    /// The leaf occurrences.
    pub insts: List<FreshInst>,
    /// The pins of the leaf occurrences.
    pub pins: List<FreshPin>,
}
