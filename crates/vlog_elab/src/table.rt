//! The table of a text, as rows.
ghost use Rattle.std.specs.Prelude.{◌≡◌, ◌≢◌, ℕ, Bool, Some, ◌++◌, ◌∷◌, [], length, slice_get, All, IfOk, OnOk};
ghost use Rattle.std.specs.List.{flat_map};
ghost use Rattle.vlog_elab.specs.Named.{place_of, numbered};
ghost use Rattle.vlog_elab.specs.Interfaces.{added, interface, interfaces};
ghost use Rattle.vlog_elab.specs.Connections.{inner_checks};
ghost use Rattle.vlog_elab.specs.Table.{nets as nets_of, row};
ghost use Rattle.vlog_elab.specs.Counters.{HasCounters};
ghost use Rattle.vlog_elab.specs.inside.Walk.{Checks};

use crate::connections::check_module;
use crate::fault::ElabFault;
use crate::interface::Interface;
use crate::names::Names;
use crate::rows::row_of;
use crate::scope::Net;
use emh_base::{List, NoMemory, PModule, Plain, TryCopy};
use std::alloc::Global;
use vlog_read::TModule;

/// The modules of a table, and after them those that a text adds to it, where all of them have these interfaces; or the
/// first fault of the text's connections. Leaves are looked at like other modules: where the declarations of a leaf are in
/// order, it has no connections.
pub fn rows_of(
    alloc: Global,
    table: &Plain,
    masters: &Names<'_, Interface<'_>>,
    modules: &[TModule],
) -> Result<List<PModule>, ElabFault>
    ensures checks { Checks (flat_map (inner_checks masters.now) modules.now) result }
    ensures rows { (all_leaf : Bool) → masters.now ≡ interfaces table.now all_leaf modules.now
        → IfOk result (λ rows. rows
        ≡ table.now.modules ++ numbered (row masters.now all_leaf) table.now.next_module
        (added table.now modules.now)) }
    ensures counters { All HasCounters table.now.modules → IfOk result (All HasCounters) }
{
    let mut rows = table.modules.copy()?;
    for m in modules {
        let nets = check_module(alloc, masters, m)?;
        add_row(alloc, &mut rows, masters, m, &nets)?;
    }
    Ok(rows)
}

/// Puts the row of a module with these nets last, where it is the next whose interface is there: the first of its name.
fn add_row(
    alloc: Global,
    rows: &mut List<PModule>,
    masters: &Names<'_, Interface<'_>>,
    m: &TModule,
    nets: &Names<'_, Net>,
) -> Result<(), NoMemory>
    requires { nets.now ≡ nets_of m.now }
    ensures again { place_of masters.now m.now.name.name ≢ Some (length rows.old)
        → OnOk result (rows.new ≡ rows.old) }
    ensures new { (all_leaf : Bool) (id : ℕ) → place_of masters.now m.now.name.name
        ≡ Some (length rows.old)
        → slice_get masters.now (length rows.old) ≡ Some (interface all_leaf id m.now)
        → OnOk result (rows.new ≡ rows.old ++ row masters.now all_leaf id m.now ∷ []) }
    ensures counters { All HasCounters rows.old → OnOk result (All HasCounters rows.new) }
{
    let Some(place) = masters.find(&m.name.name) else {
        return Ok(());
    };
    if place != rows.len() {
        return Ok(());
    }
    let Some(own) = masters.at(place) else {
        return Ok(());
    };
    let row = row_of(alloc, masters, own, m, nets)?;
    rows.push(row)
}
