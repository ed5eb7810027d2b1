//! Designs and texts that several crates of tests share, as constants, and what makes values of them.
#![tactic(auto)]

pub mod asks;
pub mod designs;
pub mod modules;
pub mod same;
pub mod texts;
pub mod two_level;
