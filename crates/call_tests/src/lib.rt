//! Tests of what only a call can show, one table a function. They stand apart from the crates
//! that they test, and call what these offer to all, since a crate's own tests prove it twice.
#![tactic(auto)]

#[cfg(test)]
mod base;
#[cfg(test)]
mod outside;
#[cfg(test)]
mod scripts;
#[cfg(test)]
mod tables;
#[cfg(test)]
mod tokens;
#[cfg(test)]
mod trees;
#[cfg(test)]
mod words;
