//! The tokens of a netlist: from bytes to identifiers, reserved words, numbers, literals and marks, in one pass.
#![tactic(auto)]

mod attribute;
mod case;
mod class;
mod directive;
mod found;
mod law;
mod lexer;
mod number;
mod piece;
mod place;
mod token;

pub use law::one_answer;
pub use lexer::tokens;
pub use token::{LexFault, Token, TokenKind, Tokens};
