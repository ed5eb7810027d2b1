//! Made designs of any size, and random edits of a design.
#![tactic(auto)]

mod laws;
mod made;
mod random;
mod turns;

pub use laws::{each_made_table_is_sound, worked_designs};
pub use made::{generate, top_name};
pub use turns::{Turned, turn};
