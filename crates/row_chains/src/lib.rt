//! Rows of tables with undo in doubly linked chains: one for each row of another table, which holds the chain's ends.
#![tactic(auto)]

mod chain;
mod link;

pub use chain::{Chain, Numbered, append, detach, find, find_under};
pub use link::{Ends, Link};
