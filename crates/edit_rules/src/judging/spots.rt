ghost use Rattle.std.specs.Prelude.{◌≡◌};
ghost use Rattle.edit_rules.specs.Good.{IsGoodState};
ghost use Rattle.edit_rules.specs.Judged.{Looks};
ghost use Rattle.edit_rules.specs.Spots.{place_rules, unplace_rules};

use crate::facts::{Facts, Spot};
use crate::judged::{Judged, keep};
use crate::spots::is_fixed;
use emh_base::{Object, Path, Rule};

/// Looks at the rules of a Place.
pub fn place<F: Facts>(facts: &F, path: &Path) -> Result<(), Judged>
    requires { IsGoodState (F.state facts.now) }
    ensures { Looks (place_rules (F.state facts.now) path.now) result }
{
    match facts.leaf_at(path) {
        Spot::Absent => keep(Rule::NoSuchOccurrence, Object::Spot, true),
        Spot::Inner => keep(Rule::NotLeaf, Object::Spot, true),
        Spot::Leaf(placement) => keep(Rule::IsFixed, Object::Spot, is_fixed(placement)),
    }
}

/// Looks at the rules of an Unplace.
pub fn unplace<F: Facts>(facts: &F, path: &Path) -> Result<(), Judged>
    requires { IsGoodState (F.state facts.now) }
    ensures { Looks (unplace_rules (F.state facts.now) path.now) result }
{
    match facts.leaf_at(path) {
        Spot::Absent => keep(Rule::NoSuchOccurrence, Object::Spot, true),
        Spot::Inner => keep(Rule::NotLeaf, Object::Spot, true),
        Spot::Leaf(placement) => keep(Rule::NotPlaced, Object::Spot, placement.is_none()),
    }
}
