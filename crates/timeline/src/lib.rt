//! What tables with undo share: kept swaps, what they say of earlier values, and the walk through them.
#![tactic(auto)]

pub mod history;
pub mod kept_rows;
mod memory;
mod room;
pub mod steps;
mod walk;

pub use history::History;
pub use kept_rows::KeptRows;
pub use memory::NoMemory;
pub use steps::{Step, Swap};
