ghost use Rattle.std.specs.Prelude.{◌↔◌, IsTrue, IsSome, All};
ghost use Rattle.flatten_rules.specs.Sound.{IsCell};
ghost use Rattle.flatten_rules.specs.Checks.{ArePortPlaces};

use emh_base::PModule;

/// Whether a module that is a leaf is a leaf cell: its ports alone, and not locked.
pub(crate) fn is_cell_if_leaf(holder: &PModule, places: &[Option<usize>]) -> bool
    requires { ArePortPlaces holder.now places.now }
    ensures { IsTrue result ↔ (IsTrue holder.now.leaf → IsCell holder.now) }
{
    if holder.leaf {
        is_cell(holder, places)
    } else {
        true
    }
}

fn is_cell(holder: &PModule, places: &[Option<usize>]) -> bool
    requires { ArePortPlaces holder.now places.now }
    ensures { IsTrue result ↔ IsCell holder.now }
{
    if !holder.insts.is_empty() {
        return false;
    }
    if holder.locked {
        return false;
    }
    have_ports(places)
}

/// Whether a port is on each net.
fn have_ports(places: &[Option<usize>]) -> bool
    ensures { IsTrue result ↔ All (λ place. IsSome place) places.now }
{
    places.iter().all(|place| place.is_some())
}
