//! Tests of the kept module table: what is read of it after its changes, and after these are undone and redone. They
//! stand apart from the crate that they test, and call what it offers to all.
#![tactic(auto)]

#[cfg(test)]
mod histories;
#[cfg(test)]
mod making;
#[cfg(test)]
mod names;
#[cfg(test)]
mod records;
#[cfg(test)]
mod shown;
