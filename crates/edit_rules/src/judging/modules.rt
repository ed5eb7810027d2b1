ghost use Rattle.std.specs.Prelude.{◌≡◌, IsTrue};
ghost use Rattle.flatten_rules.specs.Lookup.{module_of};
ghost use Rattle.flatten_rules.specs.Sound.{IsSound};
ghost use Rattle.edit_rules.specs.Judged.{Looks};
ghost use Rattle.edit_rules.specs.Modules.{create_module_rules, delete_module_rules, rename_module_rules, lock_rules, unlock_rules};
ghost use Rattle.edit_rules.specs.Settings.{set_fanout_rules};

use super::common::{common, is_module_name};
use super::ports::is_buffer;
use crate::facts::Facts;
use crate::judged::{Judged, keep};
use crate::readers::lacks_room;
use crate::settings::is_bad_fanout;
use emh_base::{ModId, Name, Object, Rule};

/// Looks at the rules of a CreateModule.
pub fn create_module<F: Facts>(facts: &F, name: &Name) -> Result<(), Judged>
    requires { IsSound (F.state facts.now).plain }
    ensures { Looks (create_module_rules (F.state facts.now) name.now) result }
{
    keep(
        Rule::NameTaken,
        Object::NewName,
        is_module_name(facts, name),
    )?;
    keep(
        Rule::TooManyObjects,
        Object::NewName,
        lacks_room(facts.next_module(), 1),
    )
}

/// Looks at the rules of a DeleteModule.
pub fn delete_module<F: Facts>(facts: &F, id: ModId) -> Result<(), Judged>
    requires { IsSound (F.state facts.now).plain }
    ensures { Looks (delete_module_rules (F.state facts.now) id) result }
{
    let object = Object::Module(id);
    keep(Rule::NoSuchModule, object, !facts.is_module(id))?;
    keep(Rule::IsCell, object, facts.is_leaf(id))?;
    keep(Rule::IsTop, object, facts.is_top(id))?;
    keep(Rule::Locked, object, facts.is_locked(id))?;
    keep(Rule::ModuleInUse, object, 0 < facts.users(id))
}

/// Looks at the rules of a RenameModule.
pub fn rename_module<F: Facts>(facts: &F, id: ModId, name: &Name) -> Result<(), Judged>
    requires { IsSound (F.state facts.now).plain }
    ensures { Looks (rename_module_rules (F.state facts.now) id name.now) result }
{
    common(facts, id)?;
    keep(
        Rule::NameTaken,
        Object::NewName,
        is_module_name(facts, name),
    )
}

/// Looks at the rules of a Lock.
pub fn lock<F: Facts>(facts: &F, id: ModId) -> Result<(), Judged>
    requires { IsSound (F.state facts.now).plain }
    ensures { Looks (lock_rules (F.state facts.now) id) result }
{
    let object = Object::Module(id);
    keep(Rule::NoSuchModule, object, !facts.is_module(id))?;
    keep(Rule::IsCell, object, facts.is_leaf(id))?;
    keep(Rule::SameLock, object, facts.is_locked(id))
}

/// Looks at the rules of an Unlock.
pub fn unlock<F: Facts>(facts: &F, id: ModId) -> Result<(), Judged>
    requires { IsSound (F.state facts.now).plain }
    ensures { Looks (unlock_rules (F.state facts.now) id) result }
{
    let object = Object::Module(id);
    keep(Rule::NoSuchModule, object, !facts.is_module(id))?;
    keep(Rule::IsCell, object, facts.is_leaf(id))?;
    keep(Rule::SameLock, object, !facts.is_locked(id))
}

/// Looks at the rules of a SetFanout.
pub fn set_fanout<F: Facts>(facts: &F, max: u32, cell: ModId) -> Result<(), Judged>
    requires { IsSound (F.state facts.now).plain }
    ensures { Looks (set_fanout_rules (F.state facts.now) max cell) result }
{
    let object = Object::Module(cell);
    keep(Rule::NoSuchModule, object, !facts.is_module(cell))?;
    keep(Rule::BadBuffer, object, !is_buffer(facts, cell))?;
    keep(Rule::BadNumber, Object::Number, is_bad_fanout(max))
}
