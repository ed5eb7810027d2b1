ghost use Rattle.std.specs.Prelude.{◌≡◌, ◌<◌, AllPairs, IfOk};
ghost use Rattle.std.specs.Option.{option_copied};
ghost use Rattle.emh_base.specs.declared.plain.PModule.{PModule};
ghost use Rattle.emh_base.specs.declared.plain.PInst.{PInst};
ghost use Rattle.edit_rules.specs.inside.Order.{InOrder};
ghost use Rattle.flatten_rules.specs.Lookup.{inst_of};
ghost use Rattle.edit_rules.specs.Readers.{master_of};
ghost use Rattle.edit_rules.specs.Spots.{module_at, is_leaf_path, kept, may_not_move, is_fixed};

use emh_base::{InstId, ModId, NoMemory, PModule, Path, Placement, Places, Plain, Status, TryCopy};
use flatten_rules::{find, module_of};

/// The module at a path of the unfolding.
pub fn module_at<'a>(plain: &'a Plain, top: ModId, path: &Path) -> Option<&'a PModule>
    requires { InOrder plain.now }
    ensures { option_copied result ≡ module_at plain.now top path.now }
{
    let mut at = module_of(plain, top);
    for step in path.steps() {
        at = match at {
            None => None,
            Some(holder) => master_at(plain, holder, *step),
        };
    }
    at
}

/// The master of an instance of a module, none where there is no such instance.
fn master_at<'a>(plain: &'a Plain, holder: &PModule, step: InstId) -> Option<&'a PModule>
    requires rise { AllPairs (λ (a b : PModule). a.id.0 < b.id.0) plain.now.modules }
    requires insts { AllPairs (λ (a b : PInst). a.id.0 < b.id.0) holder.now.insts }
    ensures { option_copied result ≡ master_of plain.now (inst_of holder.now step) }
{
    match find(holder.insts.as_slice(), step.0) {
        None => None,
        Some(inst) => module_of(plain, inst.master),
    }
}

/// Whether a block instance is at a path.
pub fn is_leaf_path(plain: &Plain, top: ModId, path: &Path) -> bool
    requires { InOrder plain.now }
    ensures { result ≡ is_leaf_path plain.now top path.now }
{
    match module_at(plain, top, path) {
        None => false,
        Some(holder) => holder.leaf,
    }
}

/// The placements at the paths where a block instance is.
pub fn kept(plain: &Plain, top: ModId, places: &Places) -> Result<Places, NoMemory>
    requires { InOrder plain.now }
    ensures { IfOk result (λ made. made ≡ kept plain.now top places.now) }
{
    let mut made = Places::new(plain.modules.alloc());
    let list = places.to_list()?;
    for (path, placement) in list.as_slice() {
        if is_leaf_path(plain, top, path) {
            made.set(path.copy()?, *placement)?;
        }
    }
    Ok(made)
}

pub fn is_fixed(placement: Option<Placement>) -> bool
    ensures { result ≡ is_fixed placement }
{
    match placement {
        None => false,
        Some(placement) => may_not_move(placement.status),
    }
}

fn may_not_move(status: Status) -> bool
    ensures { result ≡ may_not_move status }
{
    match status {
        Status::Placed => false,
        Status::Fixed => true,
    }
}
