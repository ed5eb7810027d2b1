//! The twenty-one edits of a design: what each of them does, what refuses it, and which states they lead to.
#![tactic(auto)]

mod apply;
mod changes;
mod facts;
mod good;
mod insts;
mod judged;
mod judging;
mod laws;
mod modules;
mod nets;
mod opening;
mod readers;
mod reading;
mod rewrite;
mod settings;
mod spots;
mod table;

pub use apply::apply_plain;
pub use facts::{Facts, Spot, Totals};
pub use good::is_good_state;
pub use judged::{Judged, judge};
pub use laws::{each_edit_stays_good, survivors_stay_placed, worked_edits, worked_readers};
pub use opening::{OpenFault, fit};
