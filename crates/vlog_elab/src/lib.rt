//! Elaboration: from the tree of a netlist to its module table, or to the first rule that is broken.
#![tactic(auto)]

mod bits;
mod connections;
mod conns;
mod declarations;
mod elaborate;
mod fault;
mod interface;
mod law;
mod modules;
mod name_positions;
mod names;
mod ports;
mod reads;
mod rows;
mod said;
mod same;
mod scope;
mod select;
mod table;

pub use elaborate::elab;
pub use fault::{ElabFault, ElabKind};
pub use law::{one_elaboration, one_reading};
pub use reads::{ReadFault, read_netlist};
