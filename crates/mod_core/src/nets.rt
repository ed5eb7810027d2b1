ghost use Rattle.std.specs.Prelude.{◌≡◌, ℕ, ◌<◌, ◌≤◌, Some, None, IsSome, true};
ghost use Rattle.std.specs.FinMap as map;
ghost use Rattle.row_chains.specs.Chains.{AreChains};
ghost use Rattle.row_chains.specs.Rows.{links, ends_in};
ghost use Rattle.row_chains.specs.Pays.{Pays};
ghost use Rattle.mod_core.specs.declared.rows.ModRow.{ModRow};
ghost use Rattle.mod_core.specs.declared.rows.NetRow.{NetRow};
ghost use Rattle.mod_core.specs.inside.Linked.{net_rows, net_holders};
ghost use Rattle.mod_core.specs.inside.Changes.{NetIn, NetOut};

use crate::chains::{Nets, leave};
use crate::rows::{ModRow, NetRow};
use emh_base::{NetId, Range};
use row_chains::{Link, append};
use undo_slots::Table;

/// Puts a new net last in a module, at most three writes. The module's counter is raised to one above its id.
pub(crate) fn net_in(
    mods: &mut Table<ModRow>,
    nets: &mut Table<NetRow>,
    owner: usize,
    id: NetId,
    name: usize,
    range: Option<Range>,
) -> usize
    requires mods_open { mods.old.is_open ≡ true }
    requires nets_open { nets.old.is_open ≡ true }
    requires mods_spare { 1 ≤ mods.old.spare_writes }
    requires nets_spare { 2 ≤ nets.old.spare_writes }
    requires room { 1 ≤ nets.old.spare_rows }
    requires chains { AreChains (links net_rows nets.old.now) (ends_in net_holders mods.old.now) }
    requires live { IsSome (map.get mods.old.now owner) }
    requires few { id.0 < 4294967295 }
    ensures effect { (row : ModRow) → map.get mods.old.now owner ≡ Some row
        → NetIn mods.old.now mods.new.now nets.old.now nets.new.now owner result row id.0 name
        range }
    ensures mods_pay { Pays 1 mods.old mods.new }
    ensures nets_pay { Pays 2 nets.old nets.new }
{
    let row = mods.get(owner).unwrap();
    let key = nets.add(NetRow {
        link: Link {
            owner,
            prev: row.nets.last,
            next: None,
        },
        id,
        name,
        range,
        port: None,
    });
    let counted = ModRow {
        next_net: id.0 + 1,
        ..row
    };
    append(&Nets, nets, mods, owner, counted, key);
    key
}

/// Takes a net that is no port out of its module, at most four writes.
pub(crate) fn net_out(mods: &mut Table<ModRow>, nets: &mut Table<NetRow>, key: usize)
    requires mods_open { mods.old.is_open ≡ true }
    requires nets_open { nets.old.is_open ≡ true }
    requires mods_spare { 1 ≤ mods.old.spare_writes }
    requires nets_spare { 3 ≤ nets.old.spare_writes }
    requires chains { AreChains (links net_rows nets.old.now) (ends_in net_holders mods.old.now) }
    requires live { IsSome (map.get nets.old.now key) }
    ensures effect { (row : NetRow) → map.get nets.old.now key ≡ Some row
        → NetOut mods.old.now mods.new.now nets.old.now nets.new.now key row }
    ensures mods_pay { Pays 1 mods.old mods.new }
    ensures nets_pay { Pays 3 nets.old nets.new }
{
    let row = nets.get(key).unwrap();
    leave(&Nets, nets, mods, row.link);
    nets.remove(key);
}
