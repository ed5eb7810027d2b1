//! Tests of written netlists. They stand apart from the crates that they test, and call what these offer to all, since
//! a crate's own tests prove the crate a second time.
#![tactic(auto)]

#[cfg(test)]
mod made;
#[cfg(test)]
mod sources;
#[cfg(test)]
mod written;
