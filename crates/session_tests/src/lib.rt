//! Tests of desks and sessions: commands with observers of the tests, budgets, undo and redo. They stand apart from the
//! crates that they test, and call what these offer to all, since a crate's own tests prove the crate a second time.
#![tactic(auto)]

#[cfg(test)]
mod history;
pub mod observers;
#[cfg(test)]
mod reactions;
#[cfg(test)]
mod steps;
