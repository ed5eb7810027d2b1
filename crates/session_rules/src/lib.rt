//! What observers make of the changes that they are told of, and the steps of a plain session.
#![tactic(auto)]

mod laws;

pub use laws::{each_entry_is_told, journals_lead, reactions_stay_good, survivors_stay_placed};
