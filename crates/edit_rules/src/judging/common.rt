ghost use Rattle.std.specs.Prelude.{◌≡◌, false, IsTrue, IfOk};
ghost use Rattle.flatten_rules.specs.Lookup.{module_of};
ghost use Rattle.flatten_rules.specs.Domains.{is_leaf};
ghost use Rattle.flatten_rules.specs.Sound.{IsSound};
ghost use Rattle.edit_rules.specs.Judged.{Looks};
ghost use Rattle.edit_rules.specs.Modules.{common};
ghost use Rattle.edit_rules.specs.Readers.{is_module, is_module_name, is_net, is_port, is_inst, inst_in, master_id};

use crate::facts::Facts;
use crate::judged::{Judged, keep};
use emh_base::{InstId, ModId, Name, NetId, Object, Rule};

/// Looks at what is looked at first in each edit inside a module.
pub fn common<F: Facts>(facts: &F, id: ModId) -> Result<(), Judged>
    requires { IsSound (F.state facts.now).plain }
    ensures looks { Looks (common (F.state facts.now) id) result }
    ensures live { IfOk result (λ _. IsTrue (is_module (F.state facts.now).plain id)) }
    ensures inner { IfOk result (λ _. is_leaf (module_of (F.state facts.now).plain id) ≡ false) }
{
    let object = Object::Module(id);
    keep(Rule::NoSuchModule, object, !facts.is_module(id))?;
    keep(Rule::IsCell, object, facts.is_leaf(id))?;
    keep(Rule::Locked, object, facts.is_locked(id))
}

/// Whether a module has the name.
pub fn is_module_name<F: Facts>(facts: &F, name: &Name) -> bool
    requires { IsSound (F.state facts.now).plain }
    ensures { result ≡ is_module_name (F.state facts.now).plain name.now }
{
    facts.module_named(name.as_bytes()).is_some()
}

pub fn is_net<F: Facts>(facts: &F, id: ModId, net: NetId) -> bool
    requires sound { IsSound (F.state facts.now).plain }
    requires live { IsTrue (is_module (F.state facts.now).plain id) }
    ensures { result ≡ is_net (F.state facts.now).plain id net }
{
    facts.net_range(id, net).is_some()
}

pub fn is_port<F: Facts>(facts: &F, id: ModId, port: NetId) -> bool
    requires sound { IsSound (F.state facts.now).plain }
    requires live { IsTrue (is_module (F.state facts.now).plain id) }
    ensures { result ≡ is_port (F.state facts.now).plain id port }
{
    facts.port_dir(id, port).is_some()
}

pub fn is_inst<F: Facts>(facts: &F, id: ModId, inst: InstId) -> bool
    requires sound { IsSound (F.state facts.now).plain }
    requires live { IsTrue (is_module (F.state facts.now).plain id) }
    ensures { result ≡ is_inst (F.state facts.now).plain id inst }
{
    facts.master(id, inst).is_some()
}

/// The master of an instance that is there, which is there too.
pub fn master_of<F: Facts>(facts: &F, id: ModId, inst: InstId) -> ModId
    requires sound { IsSound (F.state facts.now).plain }
    requires live { IsTrue (is_module (F.state facts.now).plain id) }
    requires there { IsTrue (is_inst (F.state facts.now).plain id inst) }
    ensures is { result ≡ master_id (inst_in (F.state facts.now).plain id inst) }
    ensures live { IsTrue (is_module (F.state facts.now).plain result) }
{
    facts.master(id, inst).unwrap()
}
