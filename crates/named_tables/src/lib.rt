//! A module table by names: what stays of it without ids, and that its flat netlist and its cycles are told by that.
#![tactic(auto)]

mod law;

pub use law::{each_cycle_by_names, each_flat_netlist_by_names};
