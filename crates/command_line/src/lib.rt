//! The words of a command line, as `clap` reads them.
#![tactic(auto)]

mod words;

pub use words::{Asked, ask};
