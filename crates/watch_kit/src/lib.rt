//! The observers of emhdb: each answers the changes of a command with edits of its own.
#![tactic(auto)]

mod fanout_limit;
mod laws;
mod mover;
mod naming;
mod net_bits;
mod reading;
mod restless;
mod sink_counts;
mod snap;
mod split;
mod sweep;

pub use fanout_limit::FanoutLimit;
pub use laws::{
    each_answer_keeps_the_limit, each_connect_keeps_the_limit, each_split_ends_at_the_limit,
    each_split_leaves_other_bits, worked_answers,
};
pub use restless::Restless;
pub use snap::Snap;
pub use sweep::Sweep;
