ghost use Rattle.edit_rules.specs.Judged.{Looks};
ghost use Rattle.edit_rules.specs.Readers.{is_bad_fanout, is_bad_grid};
ghost use Rattle.edit_rules.specs.Settings.{set_grid_rules};
ghost use Rattle.std.specs.Prelude.{◌≡◌};

use crate::judged::{Judged, keep};
use emh_base::{Object, Rule};

/// Looks at the rules of a SetGrid.
pub fn set_grid(grid: u32) -> Result<(), Judged>
    ensures { Looks (set_grid_rules grid) result }
{
    keep(Rule::BadNumber, Object::Number, is_bad_grid(grid))
}

/// Whether a fan-out is below 2 or above 1,000,000.
pub fn is_bad_fanout(max: u32) -> bool
    ensures { result ≡ is_bad_fanout max }
{
    max < 2 || 1_000_000 < max
}

/// Whether a grid is 0 or above 1,000,000.
pub fn is_bad_grid(grid: u32) -> bool
    ensures { result ≡ is_bad_grid grid }
{
    grid == 0 || 1_000_000 < grid
}
