//! A design that is open, with one command on it: its state, the changes that the command has made
//! so far, and the states that undo and redo go to.
#![tactic(auto)]

mod answers;
mod command;
mod desk;
mod facts;
mod history;

pub use answers::{Denied, FirstFault};
pub use desk::Desk;
