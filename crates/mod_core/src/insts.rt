ghost use Rattle.std.specs.Prelude.{◌≡◌, ℕ, ◌<◌, ◌≤◌, Some, None, IsSome, true};
ghost use Rattle.std.specs.FinMap as map;
ghost use Rattle.row_chains.specs.Chains.{AreChains};
ghost use Rattle.row_chains.specs.Rows.{links, ends_in};
ghost use Rattle.row_chains.specs.Pays.{Pays};
ghost use Rattle.mod_core.specs.declared.rows.ModRow.{ModRow};
ghost use Rattle.mod_core.specs.declared.rows.InstRow.{InstRow};
ghost use Rattle.mod_core.specs.inside.Linked.{inst_rows, inst_holders, user_rows, user_holders};
ghost use Rattle.mod_core.specs.inside.Changes.{InstIn, InstOut};

use crate::chains::{Insts, Users, leave};
use crate::rows::{InstRow, ModRow};
use emh_base::InstId;
use row_chains::{Link, append};
use undo_slots::Table;

/// Puts a new instance last in a module and among the users of its master, at most five writes. The module's counter
/// is raised to one above its id. A module may be its own master here.
pub(crate) fn inst_in(
    mods: &mut Table<ModRow>,
    insts: &mut Table<InstRow>,
    owner: usize,
    master: usize,
    id: InstId,
    name: usize,
) -> usize
    requires mods_open { mods.old.is_open ≡ true }
    requires insts_open { insts.old.is_open ≡ true }
    requires mods_spare { 2 ≤ mods.old.spare_writes }
    requires insts_spare { 3 ≤ insts.old.spare_writes }
    requires room { 1 ≤ insts.old.spare_rows }
    requires insts_of { AreChains (links inst_rows insts.old.now)
        (ends_in inst_holders mods.old.now) }
    requires users_of { AreChains (links user_rows insts.old.now)
        (ends_in user_holders mods.old.now) }
    requires owner { IsSome (map.get mods.old.now owner) }
    requires master { IsSome (map.get mods.old.now master) }
    requires few { id.0 < 4294967295 }
    ensures effect { (row used : ModRow) → map.get mods.old.now owner ≡ Some row
        → map.get mods.old.now master ≡ Some used
        → InstIn mods.old.now mods.new.now insts.old.now insts.new.now owner master result row used
        id.0 name }
    ensures mods_pay { Pays 2 mods.old mods.new }
    ensures insts_pay { Pays 3 insts.old insts.new }
{
    let row = mods.get(owner).unwrap();
    let used = mods.get(master).unwrap();
    let key = insts.add(InstRow {
        link: Link {
            owner,
            prev: row.insts.last,
            next: None,
        },
        id,
        name,
        user: Link {
            owner: master,
            prev: used.users.last,
            next: None,
        },
    });
    let counted = ModRow {
        next_inst: id.0 + 1,
        ..row
    };
    append(&Insts, insts, mods, owner, counted, key);
    let holder = mods.get(master).unwrap();
    append(&Users, insts, mods, master, holder, key);
    key
}

/// Takes an instance out of its module and from the users of its master, at most seven writes.
pub(crate) fn inst_out(mods: &mut Table<ModRow>, insts: &mut Table<InstRow>, key: usize)
    requires mods_open { mods.old.is_open ≡ true }
    requires insts_open { insts.old.is_open ≡ true }
    requires mods_spare { 2 ≤ mods.old.spare_writes }
    requires insts_spare { 5 ≤ insts.old.spare_writes }
    requires insts_of { AreChains (links inst_rows insts.old.now)
        (ends_in inst_holders mods.old.now) }
    requires users_of { AreChains (links user_rows insts.old.now)
        (ends_in user_holders mods.old.now) }
    requires live { IsSome (map.get insts.old.now key) }
    ensures effect { (row : InstRow) → map.get insts.old.now key ≡ Some row
        → InstOut mods.old.now mods.new.now insts.old.now insts.new.now key row }
    ensures mods_pay { Pays 2 mods.old mods.new }
    ensures insts_pay { Pays 5 insts.old insts.new }
{
    let row = insts.get(key).unwrap();
    leave(&Insts, insts, mods, row.link);
    leave(&Users, insts, mods, row.user);
    insts.remove(key);
}
