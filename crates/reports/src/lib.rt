//! The reports of a design: each a text of lines that is told by what the design unfolds to.
#![tactic(auto)]

mod block;
mod counts;
mod fault;
mod laws;
mod modules;
mod net;
mod net_bit;
mod occurrences;
mod pin_counts;
mod pins;
mod report;
mod whereabouts;

pub use block::push_block;
pub use counts::{push_count, push_counts};
pub use fault::ReportFault;
pub use laws::two_level_reports;
pub use modules::push_modules;
pub use net::push_net;
pub use occurrences::push_occurrences;
pub use pins::push_pins;
pub use report::{domain_report, push_report};
pub use whereabouts::push_whereabouts;
