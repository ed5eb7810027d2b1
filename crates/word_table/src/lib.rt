//! Sorted tables of distinct byte words. A macro writes a table in a function's body, and no table takes memory.
#![tactic(auto)]

mod cause;
mod line;
mod reserved;
mod rule;
mod table;

pub use cause::cause_name;
pub use line::line_words;
pub use reserved::reserved_words;
pub use rule::rule_names;
pub use table::Words;
