ghost use Rattle.std.specs.Prelude.{◌≡◌, ℕ, ◌<◌, ◌≤◌, Some, None, IsSome, true, find};
ghost use Rattle.std.specs.FinMap as map;
ghost use Rattle.row_chains.specs.Chains.{AreChains};
ghost use Rattle.row_chains.specs.Rows.{links, ends_in};
ghost use Rattle.row_chains.specs.Pays.{Pays};
ghost use Rattle.mod_core.specs.declared.rows.TopRow.{TopRow};
ghost use Rattle.mod_core.specs.declared.rows.ModRow.{ModRow};
ghost use Rattle.mod_core.specs.inside.Linked.{mod_rows, mod_holders};
ghost use Rattle.mod_core.specs.inside.Changes.{ModuleIn, ModuleOut};

use crate::chains::{Modules, leave};
use crate::rows::{ModRow, TopRow};
use emh_base::ModId;
use row_chains::{Ends, Link, append};
use undo_slots::Table;

/// Puts a new module without content last in the table, at most three writes. The counter is raised.
pub(crate) fn module_in(
    tops: &mut Table<TopRow>,
    mods: &mut Table<ModRow>,
    top: usize,
    name: usize,
) -> usize
    requires tops_open { tops.old.is_open ≡ true }
    requires mods_open { mods.old.is_open ≡ true }
    requires tops_spare { 1 ≤ tops.old.spare_writes }
    requires mods_spare { 2 ≤ mods.old.spare_writes }
    requires room { 1 ≤ mods.old.spare_rows }
    requires chains { AreChains (links mod_rows mods.old.now) (ends_in mod_holders tops.old.now) }
    requires live { IsSome (map.get tops.old.now top) }
    requires few { (root : TopRow) → map.get tops.old.now top ≡ Some root
        → root.next_module < 4294967295 }
    ensures effect { (root : TopRow) → map.get tops.old.now top ≡ Some root
        → ModuleIn tops.old.now tops.new.now mods.old.now mods.new.now top result root name }
    ensures tops_pay { Pays 1 tops.old tops.new }
    ensures mods_pay { Pays 2 mods.old mods.new }
{
    let root = tops.get(top).unwrap();
    let none = Ends {
        first: None,
        last: None,
    };
    let key = mods.add(ModRow {
        link: Link {
            owner: top,
            prev: root.modules.last,
            next: None,
        },
        id: ModId(root.next_module),
        name,
        leaf: false,
        locked: false,
        next_net: 0,
        next_inst: 0,
        nets: none,
        ports: none,
        insts: none,
        users: none,
    });
    let counted = TopRow {
        next_module: root.next_module + 1,
        ..root
    };
    append(&Modules, mods, tops, top, counted, key);
    key
}

/// Takes a module without content out of the table, at most four writes.
pub(crate) fn module_out(tops: &mut Table<TopRow>, mods: &mut Table<ModRow>, key: usize)
    requires tops_open { tops.old.is_open ≡ true }
    requires mods_open { mods.old.is_open ≡ true }
    requires tops_spare { 1 ≤ tops.old.spare_writes }
    requires mods_spare { 3 ≤ mods.old.spare_writes }
    requires chains { AreChains (links mod_rows mods.old.now) (ends_in mod_holders tops.old.now) }
    requires live { IsSome (map.get mods.old.now key) }
    ensures effect { (row : ModRow) → map.get mods.old.now key ≡ Some row
        → ModuleOut tops.old.now tops.new.now mods.old.now mods.new.now key row }
    ensures tops_pay { Pays 1 tops.old tops.new }
    ensures mods_pay { Pays 3 mods.old mods.new }
{
    let row = mods.get(key).unwrap();
    leave(&Modules, mods, tops, row.link);
    mods.remove(key);
}
