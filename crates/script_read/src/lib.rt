//! Reads scripts: lines of words, each of which asks for one command.
#![tactic(auto)]

mod command;
mod history;
mod insts;
mod laws;
mod lines;
mod look;
mod made;
mod modules;
mod netlists;
mod nets;
mod number;
mod observers;
mod put;
mod read;
mod reports;
mod resolving;
mod settings;
mod sources;
mod spots;
mod text;
mod word;

pub use command::{BitWord, Command};
pub use laws::{
    each_command_reads, each_line_asks_once, each_line_reads, each_word_reads,
    first_words_are_known,
};
pub use lines::{LINE_LIMIT, Line, Script, ScriptFault, script};
pub use look::{a_module, a_net, a_path, at_word};
pub use number::number_of;
pub use put::{orient_word, put_path, status_word};
pub use resolving::resolve;
pub use sources::fits;
pub use text::text_of;
