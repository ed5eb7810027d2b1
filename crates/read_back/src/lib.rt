//! Written Verilog reads back: to the same table by names, and so to the same flat netlist.
#![tactic(auto)]

mod law;

pub use law::{each_table_reads_back, table_reads_back};
