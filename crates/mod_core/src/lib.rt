//! The module table as linked rows, whose changes are recorded, so that whole records are undone and redone.
#![tactic(auto)]

mod chains;
mod insts;
mod mods;
mod modules;
mod nets;
mod ports;
mod rows;

pub use mods::Mods;
