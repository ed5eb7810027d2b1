/// How a placed block instance is turned: a rotation by quarters, or a mirror image about an axis and then one.
/// The names are stored and printed; no geometry is computed from them.
#[derive(Clone, Copy, Debug, PartialEq, Eq)]
pub enum Orient {
    R0,
    R90,
    R180,
    R270,
    MX,
    MY,
    MXR90,
    MYR90,
}

/// Whether a placed block instance may be moved.
#[derive(Clone, Copy, Debug, PartialEq, Eq)]
pub enum Status {
    Placed,
    Fixed,
}

/// Where a block instance stands, in units of the user's own.
#[derive(Clone, Copy, Debug, PartialEq, Eq)]
pub struct Placement {
    pub x: i32,
    pub y: i32,
    pub orient: Orient,
    pub status: Status,
}
