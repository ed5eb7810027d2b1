ghost use Rattle.std.specs.Prelude.{◌≡◌, ℕ, ◌*◌, ◌≤◌, false, List as Seq, IsTrue};
ghost use Rattle.emh_base.specs.declared.plain.Dir.{Dir};
ghost use Rattle.flatten_rules.specs.Bounds.{occurrence_limit};
ghost use Rattle.flatten_rules.specs.Lookup.{module_of, width};
ghost use Rattle.flatten_rules.specs.Domains.{is_leaf};
ghost use Rattle.flatten_rules.specs.Sound.{IsSound};
ghost use Rattle.edit_rules.specs.Good.{IsGoodState};
ghost use Rattle.edit_rules.specs.Judged.{Looks};
ghost use Rattle.flatten_rules.specs.Limits.{has_too_many_bits};
ghost use Rattle.edit_rules.specs.Readers.{is_module, is_too_wide};
ghost use Rattle.edit_rules.specs.Nets.{create_net, create_net_rules, create_port, create_port_rules, delete_net_rules, delete_port_rules, rename_net_rules};

use super::common::{common, is_net, is_port};
use crate::facts::Facts;
use crate::judged::{Judged, keep};
use crate::readers::{is_too_wide, lacks_room};
use emh_base::{Dir, ModId, Name, NetId, Object, Range, Rule};
use flatten_rules::BIT_LIMIT;

/// Looks at the rules of a DeleteNet.
pub fn delete_net<F: Facts>(facts: &F, id: ModId, net: NetId) -> Result<(), Judged>
    requires { IsSound (F.state facts.now).plain }
    ensures { Looks (delete_net_rules (F.state facts.now) id net) result }
{
    let object = Object::Net(id, net);
    common(facts, id)?;
    keep(Rule::NoSuchNet, object, !is_net(facts, id, net))?;
    keep(Rule::NetIsPort, object, is_port(facts, id, net))?;
    keep(Rule::NetInUse, object, facts.net_used(id, net))
}

/// Looks at the rules of a DeletePort.
pub fn delete_port<F: Facts>(facts: &F, id: ModId, port: NetId) -> Result<(), Judged>
    requires { IsSound (F.state facts.now).plain }
    ensures { Looks (delete_port_rules (F.state facts.now) id port) result }
{
    let object = Object::Port(id, port);
    common(facts, id)?;
    keep(Rule::NoSuchPort, object, !is_port(facts, id, port))?;
    keep(Rule::PortInUse, object, facts.port_used(id, port))?;
    keep(Rule::NetInUse, object, facts.net_used(id, port))
}

/// Looks at the rules of a RenameNet.
pub fn rename_net<F: Facts>(facts: &F, id: ModId, net: NetId, name: &Name) -> Result<(), Judged>
    requires { IsSound (F.state facts.now).plain }
    ensures { Looks (rename_net_rules (F.state facts.now) id net name.now) result }
{
    common(facts, id)?;
    keep(
        Rule::NoSuchNet,
        Object::Net(id, net),
        !is_net(facts, id, net),
    )?;
    keep(
        Rule::NameTaken,
        Object::NewName,
        facts.is_named_in(id, name.as_bytes()),
    )
}

/// Looks at the rules of a CreateNet.
pub fn create_net<F: Facts>(
    facts: &F,
    id: ModId,
    name: &Name,
    range: Option<Range>,
) -> Result<(), Judged>
    requires { IsGoodState (F.state facts.now) }
    ensures { Looks (create_net_rules (F.state facts.now) id name.now range) result }
{
    new_net(facts, id, name, range)
}

/// Looks at the rules of a CreatePort.
pub fn create_port<F: Facts>(
    facts: &F,
    id: ModId,
    name: &Name,
    dir: Dir,
    range: Option<Range>,
) -> Result<(), Judged>
    requires { IsGoodState (F.state facts.now) }
    ensures { Looks (create_port_rules (F.state facts.now) id name.now dir range) result }
{
    new_net(facts, id, name, range)
}

/// Looks at the rules of a net more in a module, with a port on it or without.
fn new_net<F: Facts>(facts: &F, id: ModId, name: &Name, range: Option<Range>) -> Result<(), Judged>
    requires { IsGoodState (F.state facts.now) }
    ensures net { Looks (create_net_rules (F.state facts.now) id name.now range) result }
    ensures port { (dir : Dir) → Looks (create_port_rules (F.state facts.now) id name.now dir range) result }
{
    common(facts, id)?;
    keep(
        Rule::NameTaken,
        Object::NewName,
        facts.is_named_in(id, name.as_bytes()),
    )?;
    keep(Rule::RangeTooWide, Object::NewName, is_too_wide(range))?;
    keep(
        Rule::TooManyObjects,
        Object::Module(id),
        lacks_room(facts.counters(id).next_net, 1),
    )?;
    keep(
        Rule::TooManyBits,
        Object::Module(id),
        makes_too_many_bits(facts, id, range),
    )
}

/// Whether there are too many net bits once a module has a net of that range more.
fn makes_too_many_bits<F: Facts>(facts: &F, id: ModId, range: Option<Range>) -> bool
    requires good { IsGoodState (F.state facts.now) }
    requires live { IsTrue (is_module (F.state facts.now).plain id) }
    requires inner { is_leaf (module_of (F.state facts.now).plain id) ≡ false }
    requires narrow { is_too_wide range ≡ false }
    ensures net { (name : Seq ℕ) → result
        ≡ has_too_many_bits (create_net (F.state facts.now).plain id name range) (F.state facts.now).top }
    ensures port { (name : Seq ℕ) (dir : Dir) → result
        ≡ has_too_many_bits (create_port (F.state facts.now).plain id name dir range) (F.state facts.now).top }
{
    let more = times_over(width_of(range), facts.times(id));
    BIT_LIMIT < facts.totals().bits + more
}

/// The width of a range that isn't too wide.
fn width_of(range: Option<Range>) -> u64
    requires { is_too_wide range ≡ false }
    ensures value { result ≡ width range }
    ensures few { result ≤ 4096 }
{
    match range {
        None => 1,
        Some(range) => u64::from(range.left.abs_diff(range.right)) + 1,
    }
}

/// So many bits in each of so many occurrences.
fn times_over(bits: u64, times: u64) -> u64
    requires bits { bits ≤ 4096 }
    requires times { times ≤ occurrence_limit }
    ensures value { result ≡ bits * times }
    ensures few { result ≤ 4096000000 }
{
    bits * times
}
