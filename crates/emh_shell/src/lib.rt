//! The top call: a script over a shelf of files, with all that it prints and stores.
#![tactic(auto)]

mod answer;
mod churn;
mod edits;
mod fault;
mod fetching;
mod history;
mod laws;
mod made;
mod netlists;
mod objects;
mod observers;
mod play;
mod printing;
mod progress;
mod refusing;
mod report;
mod step;

pub use fault::{DesignFault, FileFault};
pub use laws::{each_edit_keeps_placements, each_session_once};
pub use play::run;
pub use progress::Progress;
