//! Sessions on an open design: commands whose changes observers are told of and answer, and undo
//! and redo.
#![tactic(auto)]

mod answers;
mod marking;
mod observer;
mod session;
mod telling;

pub use answers::{Accepted, CommandFault, Halt, NoSuchObserver, NothingToRedo, NothingToUndo};
pub use observer::{Observer, give, give_all};
pub use session::Session;
