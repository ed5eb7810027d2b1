//! Tables whose changes are recorded, so that whole records are undone and redone.
#![tactic(auto)]

mod slots;
mod table;

pub use table::Table;
pub use timeline::NoMemory;
