ghost use Rattle.std.specs.Prelude.{◌≡◌, []};

use crate::interface::Port;
use crate::names::Names;
use emh_base::Range;
use std::alloc::Global;

/// What the declarations of a module say of names so far.
#[derive(Drop)]
pub struct Said<'a> {
    pub directions: Names<'a, Port>,
    pub wires: Names<'a, Option<Range>>,
}

impl<'a> Said<'a> {
    pub fn new(alloc: Global) -> Said<'a>
        ensures { result ≡ record { directions = []; wires = [] } }
    {
        Said {
            directions: Names::new(alloc),
            wires: Names::new(alloc),
        }
    }
}
