ghost use Rattle.std.specs.Prelude.{◌≡◌, ◌&&◌, IsTrue};
ghost use Rattle.flatten_rules.specs.Lookup.{module_of};
ghost use Rattle.flatten_rules.specs.Domains.{is_leaf};
ghost use Rattle.flatten_rules.specs.Sound.{IsSound};
ghost use Rattle.edit_rules.specs.Good.{IsGoodState};
ghost use Rattle.edit_rules.specs.Judged.{Looks};
ghost use Rattle.edit_rules.specs.Readers.{is_module};
ghost use Rattle.edit_rules.specs.Insts.{create_inst_rules, delete_inst_rules, rename_inst_rules, resize_rules, uniquify_rules};

use super::common::{common, is_inst, is_module_name, master_of};
use super::grown::limits_with;
use super::ports::same_ports;
use crate::facts::Facts;
use crate::judged::{Judged, keep};
use crate::readers::lacks_room;
use emh_base::{InstId, ModId, Name, Object, Rule};
use std::alloc::Global;

/// Looks at the rules of a DeleteInst.
pub fn delete_inst<F: Facts>(facts: &F, id: ModId, inst: InstId) -> Result<(), Judged>
    requires { IsSound (F.state facts.now).plain }
    ensures { Looks (delete_inst_rules (F.state facts.now) id inst) result }
{
    common(facts, id)?;
    keep(
        Rule::NoSuchInst,
        Object::Inst(id, inst),
        !is_inst(facts, id, inst),
    )
}

/// Looks at the rules of a RenameInst.
pub fn rename_inst<F: Facts>(facts: &F, id: ModId, inst: InstId, name: &Name) -> Result<(), Judged>
    requires { IsSound (F.state facts.now).plain }
    ensures { Looks (rename_inst_rules (F.state facts.now) id inst name.now) result }
{
    common(facts, id)?;
    keep(
        Rule::NoSuchInst,
        Object::Inst(id, inst),
        !is_inst(facts, id, inst),
    )?;
    keep(
        Rule::NameTaken,
        Object::NewName,
        facts.is_named_in(id, name.as_bytes()),
    )
}

/// Looks at the rules of a Resize.
pub fn resize<F: Facts>(facts: &F, id: ModId, inst: InstId, master: ModId) -> Result<(), Judged>
    requires { IsSound (F.state facts.now).plain }
    ensures { Looks (resize_rules (F.state facts.now) id inst master) result }
{
    common(facts, id)?;
    let object = Object::Inst(id, inst);
    keep(Rule::NoSuchInst, object, !is_inst(facts, id, inst))?;
    keep(
        Rule::NoSuchModule,
        Object::Module(master),
        !facts.is_module(master),
    )?;
    let old = master_of(facts, id, inst);
    keep(Rule::NotLeaf, object, !are_leaves(facts, old, master))?;
    keep(
        Rule::PortsDiffer,
        Object::Module(master),
        !same_ports(facts, old, master),
    )
}

/// Whether two modules are leaves.
fn are_leaves<F: Facts>(facts: &F, a: ModId, b: ModId) -> bool
    requires sound { IsSound (F.state facts.now).plain }
    requires first { IsTrue (is_module (F.state facts.now).plain a) }
    requires second { IsTrue (is_module (F.state facts.now).plain b) }
    ensures { result ≡ (is_leaf (module_of (F.state facts.now).plain a)
        && is_leaf (module_of (F.state facts.now).plain b)) }
{
    if facts.is_leaf(a) {
        facts.is_leaf(b)
    } else {
        false
    }
}

/// Looks at the rules of a Uniquify.
pub fn uniquify<F: Facts>(facts: &F, id: ModId, inst: InstId, name: &Name) -> Result<(), Judged>
    requires { IsSound (F.state facts.now).plain }
    ensures { Looks (uniquify_rules (F.state facts.now) id inst name.now) result }
{
    common(facts, id)?;
    keep(
        Rule::NoSuchInst,
        Object::Inst(id, inst),
        !is_inst(facts, id, inst),
    )?;
    let master = master_of(facts, id, inst);
    let object = Object::Module(master);
    keep(Rule::IsCell, object, facts.is_leaf(master))?;
    keep(Rule::NotShared, object, facts.users(master) == 1)?;
    keep(
        Rule::NameTaken,
        Object::NewName,
        is_module_name(facts, name),
    )?;
    keep(
        Rule::TooManyObjects,
        Object::NewName,
        lacks_room(facts.next_module(), 1),
    )
}

/// Looks at the rules of a CreateInst.
pub fn create_inst<F: Facts>(
    alloc: Global,
    facts: &F,
    id: ModId,
    name: &Name,
    master: ModId,
) -> Result<(), Judged>
    requires { IsGoodState (F.state facts.now) }
    ensures { Looks (create_inst_rules (F.state facts.now) id name.now master) result }
{
    let object = Object::Module(master);
    common(facts, id)?;
    keep(Rule::NoSuchModule, object, !facts.is_module(master))?;
    keep(
        Rule::NameTaken,
        Object::NewName,
        facts.is_named_in(id, name.as_bytes()),
    )?;
    let above = limits_with(alloc, facts, id, name, master)?;
    keep(Rule::Recursive, object, above.recursive)?;
    keep(Rule::TooDeep, object, above.too_deep)?;
    keep(
        Rule::TooManyObjects,
        Object::Module(id),
        lacks_room(facts.counters(id).next_inst, 1),
    )?;
    keep(Rule::TooManyOccurrences, object, above.too_many_occurrences)?;
    keep(Rule::TooManyBits, object, above.too_many_bits)
}
