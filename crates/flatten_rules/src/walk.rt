//! The walk through the unfolding of a table: the way down to an occurrence, and what comes in preorder.

mod net_bits;
mod occurrences;
mod pins;
mod way;

pub use net_bits::BitWalk;
pub use occurrences::Walk;
pub use pins::PinWalk;
pub use way::{Way, WayRoot};
