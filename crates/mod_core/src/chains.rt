ghost use Rattle.std.specs.Prelude.{◌≡◌, ℕ, ◌≤◌, Some, IsSome, true};
ghost use Rattle.std.specs.FinMap as map;
ghost use Rattle.row_chains.specs.Chains.{AreChains};
ghost use Rattle.row_chains.specs.Rows.{links, ends_in};
ghost use Rattle.row_chains.specs.Pays.{Pays};
ghost use Rattle.mod_core.specs.inside.Linked.{mod_rows, mod_holders, net_rows, net_holders, port_rows, port_holders, inst_rows, inst_holders, user_rows, user_holders};
ghost use Rattle.mod_core.specs.inside.Changes.{joined_rows, joined_ends};

use crate::rows::{InstRow, ModRow, NetRow, PortRow, TopRow};
use row_chains::{Chain, Ends, Link, Numbered, detach};
use undo_slots::Table;

/// The modules of the table, in rising order of id.
pub(crate) struct Modules;

/// The nets of a module, in rising order of id.
pub(crate) struct Nets;

/// The ports of a module, in port order.
pub(crate) struct Ports;

/// The instances of a module, in rising order of id.
pub(crate) struct Insts;

/// The instances of a master, wherever they stand.
pub(crate) struct Users;

fn behind(link: Link, from: Option<usize>) -> Link
    ensures { result ≡ record link { prev = from } }
{
    Link { prev: from, ..link }
}

fn before(link: Link, to: Option<usize>) -> Link
    ensures { result ≡ record link { next = to } }
{
    Link { next: to, ..link }
}

impl Chain<ModRow, TopRow> for Modules {
    ghost rows = { mod_rows };

    ghost holders = { mod_holders };

    fn lead(&self, row: ModRow, to: Option<usize>) -> ModRow {
        ModRow {
            link: before(row.link, to),
            ..row
        }
    }

    fn follow(&self, row: ModRow, from: Option<usize>) -> ModRow {
        ModRow {
            link: behind(row.link, from),
            ..row
        }
    }

    fn next(&self, row: ModRow) -> Option<usize> {
        row.link.next
    }

    fn ends(&self, holder: TopRow) -> Ends {
        holder.modules
    }

    fn with_ends(&self, holder: TopRow, ends: Ends) -> TopRow {
        TopRow {
            modules: ends,
            ..holder
        }
    }
}

impl Numbered<ModRow> for Modules {
    ghost number_of = { λ row. row.id.0 };

    fn number(&self, row: ModRow) -> u32 {
        row.id.0
    }
}

impl Chain<NetRow, ModRow> for Nets {
    ghost rows = { net_rows };

    ghost holders = { net_holders };

    fn lead(&self, row: NetRow, to: Option<usize>) -> NetRow {
        NetRow {
            link: before(row.link, to),
            ..row
        }
    }

    fn follow(&self, row: NetRow, from: Option<usize>) -> NetRow {
        NetRow {
            link: behind(row.link, from),
            ..row
        }
    }

    fn next(&self, row: NetRow) -> Option<usize> {
        row.link.next
    }

    fn ends(&self, holder: ModRow) -> Ends {
        holder.nets
    }

    fn with_ends(&self, holder: ModRow, ends: Ends) -> ModRow {
        ModRow {
            nets: ends,
            ..holder
        }
    }
}

impl Numbered<NetRow> for Nets {
    ghost number_of = { λ row. row.id.0 };

    fn number(&self, row: NetRow) -> u32 {
        row.id.0
    }
}

impl Chain<NetRow, ModRow> for Ports {
    ghost rows = { port_rows };

    ghost holders = { port_holders };

    fn lead(&self, row: NetRow, to: Option<usize>) -> NetRow {
        NetRow {
            port: match row.port {
                Some(port) => Some(PortRow {
                    link: before(port.link, to),
                    ..port
                }),
                None => None,
            },
            ..row
        }
    }

    fn follow(&self, row: NetRow, from: Option<usize>) -> NetRow {
        NetRow {
            port: match row.port {
                Some(port) => Some(PortRow {
                    link: behind(port.link, from),
                    ..port
                }),
                None => None,
            },
            ..row
        }
    }

    fn next(&self, row: NetRow) -> Option<usize> {
        match row.port {
            Some(port) => port.link.next,
            None => None,
        }
    }

    fn ends(&self, holder: ModRow) -> Ends {
        holder.ports
    }

    fn with_ends(&self, holder: ModRow, ends: Ends) -> ModRow {
        ModRow {
            ports: ends,
            ..holder
        }
    }
}

impl Numbered<NetRow> for Ports {
    ghost number_of = { λ row. row.id.0 };

    fn number(&self, row: NetRow) -> u32 {
        row.id.0
    }
}

impl Chain<InstRow, ModRow> for Insts {
    ghost rows = { inst_rows };

    ghost holders = { inst_holders };

    fn lead(&self, row: InstRow, to: Option<usize>) -> InstRow {
        InstRow {
            link: before(row.link, to),
            ..row
        }
    }

    fn follow(&self, row: InstRow, from: Option<usize>) -> InstRow {
        InstRow {
            link: behind(row.link, from),
            ..row
        }
    }

    fn next(&self, row: InstRow) -> Option<usize> {
        row.link.next
    }

    fn ends(&self, holder: ModRow) -> Ends {
        holder.insts
    }

    fn with_ends(&self, holder: ModRow, ends: Ends) -> ModRow {
        ModRow {
            insts: ends,
            ..holder
        }
    }
}

impl Numbered<InstRow> for Insts {
    ghost number_of = { λ row. row.id.0 };

    fn number(&self, row: InstRow) -> u32 {
        row.id.0
    }
}

impl Chain<InstRow, ModRow> for Users {
    ghost rows = { user_rows };

    ghost holders = { user_holders };

    fn lead(&self, row: InstRow, to: Option<usize>) -> InstRow {
        InstRow {
            user: before(row.user, to),
            ..row
        }
    }

    fn follow(&self, row: InstRow, from: Option<usize>) -> InstRow {
        InstRow {
            user: behind(row.user, from),
            ..row
        }
    }

    fn next(&self, row: InstRow) -> Option<usize> {
        row.user.next
    }

    fn ends(&self, holder: ModRow) -> Ends {
        holder.users
    }

    fn with_ends(&self, holder: ModRow, ends: Ends) -> ModRow {
        ModRow {
            users: ends,
            ..holder
        }
    }
}

/// Takes a row that is so linked out of its chain: its neighbours are each other's. The row itself is not written.
pub(crate) fn leave<R: Copy, O: Copy, C: Chain<R, O>>(
    chain: &C,
    rows: &mut Table<R>,
    holders: &mut Table<O>,
    link: Link,
)
    requires rows_open { rows.old.is_open ≡ true }
    requires holders_open { holders.old.is_open ≡ true }
    requires rows_spare { 2 ≤ rows.old.spare_writes }
    requires holders_spare { 1 ≤ holders.old.spare_writes }
    requires chains { AreChains (links C.rows rows.old.now) (ends_in C.holders holders.old.now) }
    requires linked { (key : ℕ) × (links C.rows rows.old.now key ≡ Some link) }
    ensures rows { rows.new.now ≡ joined_rows C.rows rows.old.now link }
    ensures holders { holders.new.now ≡ joined_ends C.holders holders.old.now link }
    ensures live { (k : ℕ) → IsSome (map.get rows.old.now k) → IsSome (map.get rows.new.now k) }
    ensures rows_pay { Pays 2 rows.old rows.new }
    ensures holders_pay { Pays 1 holders.old holders.new }
{
    detach(chain, rows, holders, link);
}
