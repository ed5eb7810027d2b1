ghost use Rattle.std.specs.Prelude.{◌≡◌, [], ◌∷◌, OnOk};
ghost use Rattle.vlog_elab.specs.Named.{named};
ghost use Rattle.vlog_elab.specs.Connections.{net_range};
ghost use Rattle.vlog_elab.specs.inside.Walks.{with_new};

use crate::names::Names;
use emh_base::{Name, NoMemory, Range};
use std::alloc::Global;

/// A net, as it is met first.
#[derive(Clone, Copy)]
pub struct Net {
    pub range: Option<Range>,
    /// Whether it is met in a connection, without a declaration.
    pub implied: bool,
}

/// The nets and the instances of a module that were met, by their names.
#[derive(Drop)]
pub struct Scope<'a> {
    pub nets: Names<'a, Net>,
    pub insts: Names<'a, ()>,
}

impl<'a> Scope<'a> {
    pub fn new(alloc: Global) -> Scope<'a>
        ensures { result ≡ record { nets = []; insts = [] } }
    {
        Scope {
            nets: Names::new(alloc),
            insts: Names::new(alloc),
        }
    }
}

/// Puts a net last where none of its name is there.
pub fn meet<'a>(nets: &mut Names<'a, Net>, name: &'a Name, net: Net) -> Result<(), NoMemory>
    ensures { OnOk result (nets.new ≡ with_new nets.old ((name.now, net) ∷ [])) }
{
    nets.push_new(name, net)?;
    Ok(())
}

/// The range of the net of a name.
pub fn net_range(nets: &Names<'_, Net>, name: &Name) -> Option<Range>
    ensures { result ≡ net_range (named nets.now name.now) }
{
    match nets.get(name) {
        Some(net) => net.range,
        None => None,
    }
}
