use crate::names::Names;
use emh_base::{Dir, ModId, Range};

/// What a port is to those that connect it.
#[derive(Clone, Copy)]
pub struct Port {
    pub dir: Dir,
    pub range: Option<Range>,
}

/// What a module is to those that have instances of it: its ports by their names, in order.
#[derive(Drop)]
pub struct Interface<'a> {
    pub id: ModId,
    pub leaf: bool,
    pub ports: Names<'a, Port>,
}

/// What is known of the modules so far, by their names.
#[derive(Drop)]
pub struct Known<'a> {
    pub interfaces: Names<'a, Interface<'a>>,
    /// The id that the next module gets.
    pub next_module: u32,
}
