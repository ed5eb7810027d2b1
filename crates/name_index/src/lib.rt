//! An index of names whose changes are recorded, so that whole records are undone and redone.
#![tactic(auto)]

mod index;
mod names;

pub use index::Index;
pub use timeline::NoMemory;
