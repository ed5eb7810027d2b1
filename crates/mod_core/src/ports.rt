ghost use Rattle.std.specs.Prelude.{◌≡◌, ℕ, ◌≤◌, Some, None, IsSome, true};
ghost use Rattle.std.specs.FinMap as map;
ghost use Rattle.row_chains.specs.Chains.{AreChains};
ghost use Rattle.row_chains.specs.Rows.{links, ends_in};
ghost use Rattle.row_chains.specs.Pays.{Pays};
ghost use Rattle.mod_core.specs.declared.rows.ModRow.{ModRow};
ghost use Rattle.mod_core.specs.declared.rows.NetRow.{NetRow};
ghost use Rattle.mod_core.specs.declared.rows.PortRow.{PortRow};
ghost use Rattle.mod_core.specs.inside.Linked.{port_rows, port_holders};
ghost use Rattle.mod_core.specs.inside.Changes.{PortIn, PortOut};

use crate::chains::{Ports, leave};
use crate::rows::{ModRow, NetRow, PortRow};
use emh_base::Dir;
use row_chains::{Link, append};
use undo_slots::Table;

/// Makes a net that is no port the last port of a module, at most three writes.
pub(crate) fn port_in(
    mods: &mut Table<ModRow>,
    nets: &mut Table<NetRow>,
    owner: usize,
    key: usize,
    dir: Dir,
)
    requires mods_open { mods.old.is_open ≡ true }
    requires nets_open { nets.old.is_open ≡ true }
    requires mods_spare { 1 ≤ mods.old.spare_writes }
    requires nets_spare { 2 ≤ nets.old.spare_writes }
    requires chains { AreChains (links port_rows nets.old.now) (ends_in port_holders mods.old.now) }
    requires owner { IsSome (map.get mods.old.now owner) }
    requires live { IsSome (map.get nets.old.now key) }
    ensures effect { (row : ModRow) (net : NetRow) → map.get mods.old.now owner ≡ Some row
        → map.get nets.old.now key ≡ Some net
        → PortIn mods.old.now mods.new.now nets.old.now nets.new.now owner key row net dir }
    ensures mods_pay { Pays 1 mods.old mods.new }
    ensures nets_pay { Pays 2 nets.old nets.new }
{
    let row = mods.get(owner).unwrap();
    let net = nets.get(key).unwrap();
    let port = PortRow {
        link: Link {
            owner,
            prev: row.ports.last,
            next: None,
        },
        dir,
    };
    nets.set(
        key,
        NetRow {
            port: Some(port),
            ..net
        },
    );
    append(&Ports, nets, mods, owner, row, key);
}

/// Makes a port a net alone, at most four writes.
pub(crate) fn port_out(
    mods: &mut Table<ModRow>,
    nets: &mut Table<NetRow>,
    key: usize,
    net: NetRow,
    port: PortRow,
)
    requires mods_open { mods.old.is_open ≡ true }
    requires nets_open { nets.old.is_open ≡ true }
    requires mods_spare { 1 ≤ mods.old.spare_writes }
    requires nets_spare { 3 ≤ nets.old.spare_writes }
    requires chains { AreChains (links port_rows nets.old.now) (ends_in port_holders mods.old.now) }
    requires net { map.get nets.old.now key ≡ Some net }
    requires port { net.port ≡ Some port }
    ensures effect { PortOut mods.old.now mods.new.now nets.old.now nets.new.now key net port }
    ensures mods_pay { Pays 1 mods.old mods.new }
    ensures nets_pay { Pays 3 nets.old nets.new }
{
    leave(&Ports, nets, mods, port.link);
    nets.set(key, NetRow { port: None, ..net });
}
