//! Tests of the reports of a design: whole texts, and refusals. They stand apart from the crate that they test, since a
//! crate's own tests prove the crate a second time.
#![tactic(auto)]

#[cfg(test)]
mod asks;
#[cfg(test)]
mod refusals;
#[cfg(test)]
mod texts;
