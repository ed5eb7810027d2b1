//! The grammar of a netlist: from tokens to a tree of modules, or to the first token that no sentence has there.
#![tactic(auto)]

mod conns;
mod decls;
mod exprs;
mod fault;
mod header;
mod items;
mod law;
mod modules;
mod parser;
mod reader;
mod refusal;
mod tree;
mod word;

pub use fault::ParseFault;
pub use law::one_sentence;
pub use parser::parse;
pub use tree::{At, Decl, Header, Item, Part, Span, TConn, TInst, TModule, Tree};
