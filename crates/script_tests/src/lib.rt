//! Tests of scripts: their lines, the lines that are written for commands, and the look-up of names.
//! They stand apart from the crate that they test, since its own tests would prove it a second time.
#![tactic(auto)]

#[cfg(test)]
mod bad;
#[cfg(test)]
mod lines;
#[cfg(test)]
mod names;
