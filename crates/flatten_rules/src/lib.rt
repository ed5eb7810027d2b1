//! The definitions that every part of emhdb is measured by: the unfolding of a module table, the roots of its net bits,
//! its leaf pins, its limits.
#![tactic(auto)]

mod cell;
mod count;
mod cycle;
mod depth;
mod domain;
mod flatten;
mod laws;
mod limits;
mod lines;
mod lookup;
mod master;
mod named;
mod numbered;
mod port;
mod rank;
mod reach;
mod sorting;
mod soundness;
mod walk;

pub use cycle::first_on_cycle;
pub use depth::is_too_deep;
pub use domain::{Fresh, FreshBit, FreshInst, FreshOcc, FreshPin};
pub use flatten::fresh;
pub use laws::{
    each_block_net, each_limit_is_tested, each_path_in_order, each_text_once, each_walk_once,
    two_level_unfolds,
};
pub use limits::{
    BIT_LIMIT, DEPTH_LIMIT, OCCURRENCE_LIMIT, has_too_many_bits, has_too_many_occurrences,
    is_within, leads_to, net_bit_count, occurrence_count, times_below,
};
pub use lines::flat_lines;
pub use lookup::{
    find, inst_in, module_of, net_in, net_of, place_of_module, port_of, width, width_of,
};
pub use numbered::{Numbered, place_of, rises};
pub use port::port_places;
pub use soundness::is_sound;
pub use walk::{BitWalk, PinWalk, Walk, Way, WayRoot};
