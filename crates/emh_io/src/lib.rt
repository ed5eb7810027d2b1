//! The outside: shelves that hold files, and sinks that take what is printed.
#![tactic(auto)]

mod file_shelf;
mod held;
mod mem_shelf;
mod mem_sink;
mod out_sink;
mod plan;
mod putting;
mod shelf;
mod sink;
mod sure_shelf;
mod sure_sink;

pub use file_shelf::FileShelf;
pub use held::{Held, are_distinct};
pub use mem_shelf::MemShelf;
pub use mem_sink::MemSink;
pub use out_sink::OutSink;
pub use putting::put_all;
pub use shelf::{FetchFault, Shelf, StoreFault};
pub use sink::{PutFault, Sink};
pub use sure_shelf::SureShelf;
pub use sure_sink::SureSink;
