//! Tests of undoable tables and of the index of names.
#![tactic(auto)]

#[cfg(test)]
mod index;
#[cfg(test)]
mod table;
