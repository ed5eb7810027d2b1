//! The plain types that every part of emhdb speaks of: names, ids, paths and the module table as lists.
#![tactic(auto)]

mod edit;
mod file;
mod ids;
mod laws;
mod list;
mod memory;
mod name;
mod path;
mod placement;
mod places;
mod plain;
mod pool;
mod report;
mod root;
mod rule;
mod spelling;
mod state;
mod text;
mod try_copy;

pub use edit::{By, Change, Edit, Need};
pub use file::FILE_LIMIT;
pub use ids::{BlockKey, InstId, ModId, NetId, OccKey};
pub use laws::each_spelled_once;
pub use list::List;
pub use memory::NoMemory;
pub use name::{LentName, NAME_LIMIT, Name, NameFault};
pub use path::Path;
pub use placement::{Orient, Placement, Status};
pub use places::Places;
pub use plain::{Conn, Counters, Dir, PInst, PModule, PNet, PPort, Plain, Range, Src};
pub use pool::Pool;
pub use report::Kind;
pub use root::{PinRef, Root, RootKey};
pub use rule::{Object, Refusal, Rule};
pub use spelling::{SpellFault, unspell};
pub use state::{Fanout, Settings, State};
pub use text::{push_index, push_number, push_spelled, push_spelled_bytes};
pub use try_copy::TryCopy;
