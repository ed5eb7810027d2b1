ghost use Rattle.std.specs.Prelude.{◌≡◌, ◌&&◌, false, None, is_some, IsTrue, IfOk};
ghost use Rattle.flatten_rules.specs.Lookup.{module_of};
ghost use Rattle.flatten_rules.specs.Domains.{is_leaf};
ghost use Rattle.flatten_rules.specs.Sound.{IsSound};
ghost use Rattle.edit_rules.specs.Good.{IsGoodState};
ghost use Rattle.edit_rules.specs.Insts.{create_inst};
ghost use Rattle.flatten_rules.specs.Limits.{is_too_deep, has_too_many_occurrences, has_too_many_bits, leads_to};
ghost use Rattle.edit_rules.specs.Readers.{is_module};
ghost use Rattle.edit_rules.specs.Facts.{inst_after};

use super::outline::grown_outline;
use crate::facts::Facts;
use emh_base::{ModId, Name, NoMemory};
use flatten_rules::{
    OCCURRENCE_LIMIT, has_too_many_bits, has_too_many_occurrences, is_too_deep, leads_to,
};
use std::alloc::Global;

/// Which limits there would be above with an instance more in a module.
#[derive(Clone, Copy)]
pub struct Above {
    /// A walk from the master leads to the module, or they are the same.
    pub recursive: bool,
    pub too_deep: bool,
    pub too_many_occurrences: bool,
    pub too_many_bits: bool,
}

/// Looks at the limits with an instance more in a module. A leaf in a module that has an instance already makes no walk
/// longer and adds no net bit, but an occurrence wherever the module occurs. For any other, the whole table is looked
/// at.
pub fn limits_with<F: Facts>(
    alloc: Global,
    facts: &F,
    id: ModId,
    name: &Name,
    master: ModId,
) -> Result<Above, NoMemory>
    requires good { IsGoodState (F.state facts.now) }
    requires holder { IsTrue (is_module (F.state facts.now).plain id) }
    requires inner { is_leaf (module_of (F.state facts.now).plain id) ≡ false }
    requires live { IsTrue (is_module (F.state facts.now).plain master) }
    ensures recursive { IfOk result (λ above. above.recursive
        ≡ leads_to (F.state facts.now).plain master id) }
    ensures depth { IfOk result (λ above. above.too_deep
        ≡ is_too_deep (create_inst (F.state facts.now).plain id name.now master)) }
    ensures occurrences { IfOk result (λ above. above.too_many_occurrences
        ≡ has_too_many_occurrences (create_inst (F.state facts.now).plain id name.now master) (F.state facts.now).top) }
    ensures bits { IfOk result (λ above. above.too_many_bits
        ≡ has_too_many_bits (create_inst (F.state facts.now).plain id name.now master) (F.state facts.now).top) }
{
    if adds_leaves(facts, id, master) {
        return Ok(Above {
            recursive: false,
            too_deep: false,
            too_many_occurrences: OCCURRENCE_LIMIT < facts.totals().occurrences + facts.times(id),
            too_many_bits: false,
        });
    }
    let made = grown_outline(alloc, facts, name, id, master)?;
    let top = facts.top();
    Ok(Above {
        recursive: leads_to(alloc, &made, master, id)?,
        too_deep: is_too_deep(alloc, &made)?,
        too_many_occurrences: has_too_many_occurrences(alloc, &made, top)?,
        too_many_bits: has_too_many_bits(alloc, &made, top)?,
    })
}

/// Whether the master is a leaf, and the module has an instance already.
fn adds_leaves<F: Facts>(facts: &F, id: ModId, master: ModId) -> bool
    requires sound { IsSound (F.state facts.now).plain }
    requires holder { IsTrue (is_module (F.state facts.now).plain id) }
    requires live { IsTrue (is_module (F.state facts.now).plain master) }
    ensures { result ≡ (is_leaf (module_of (F.state facts.now).plain master)
        && is_some (inst_after (F.state facts.now) id None)) }
{
    if facts.is_leaf(master) {
        facts.inst_after(id, None).is_some()
    } else {
        false
    }
}
