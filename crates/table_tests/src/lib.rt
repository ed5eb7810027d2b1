//! Tests of what is computed from module tables: unfoldings, limits, soundness and edits. They stand apart from the
//! crates that they test, and call what these offer to all, since a crate's own tests prove the crate a second time.
#![tactic(auto)]

#[cfg(test)]
mod edits;
#[cfg(test)]
mod tables;

#[cfg(test)]
use samples::modules;
