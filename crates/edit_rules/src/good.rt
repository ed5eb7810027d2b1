ghost use Rattle.std.specs.Prelude.{◌≡◌, ◌↔◌, ℕ, false, List as Seq, Some, IsTrue, IsSome, All, IfOk};
ghost use Rattle.std.specs.FinMap.{get};
ghost use Rattle.emh_base.specs.declared.ids.InstId.{InstId};
ghost use Rattle.emh_base.specs.declared.placement.Placement.{Placement};
ghost use Rattle.emh_base.specs.declared.state.Fanout.{Fanout};
ghost use Rattle.flatten_rules.specs.Lookup.{module_of};
ghost use Rattle.flatten_rules.specs.Design.{IsGood, IsInner};
ghost use Rattle.flatten_rules.specs.Sound.{IsSound};
ghost use Rattle.edit_rules.specs.inside.Order.{InOrder};
ghost use Rattle.edit_rules.specs.Readers.{is_buffer, is_bad_grid};
ghost use Rattle.edit_rules.specs.Spots.{is_leaf_path};
ghost use Rattle.edit_rules.specs.Good.{IsFanout, IsGoodState};

use crate::facts::Facts;
use crate::judging::is_buffer;
use crate::settings::{is_bad_fanout, is_bad_grid};
use crate::spots::is_leaf_path;
use emh_base::{ModId, NoMemory, Path, Placement, Places, Plain, State};
use flatten_rules::{is_sound, is_within, module_of};
use std::alloc::Global;

/// Whether a state is good: its table is sound and, at a top that is there and no leaf, within the limits; what is
/// placed is a block instance; each setting that is there is in order.
pub fn is_good_state(alloc: Global, state: &State) -> Result<bool, NoMemory>
    ensures { IfOk result (λ good. IsTrue good ↔ IsGoodState state.now) }
{
    if !is_good(alloc, &state.plain, state.top)? {
        return Ok(false);
    }
    if !are_placed(&state.plain, state.top, &state.places)? {
        return Ok(false);
    }
    if !is_good_fanout(state) {
        return Ok(false);
    }
    Ok(is_good_grid(state.settings.grid))
}

/// Whether a table is sound and, at a top that is there and no leaf, within the limits.
fn is_good(alloc: Global, plain: &Plain, top: ModId) -> Result<bool, NoMemory>
    ensures { IfOk result (λ good. IsTrue good ↔ IsGood plain.now top) }
{
    if !is_sound(alloc, plain)? {
        return Ok(false);
    }
    if !is_inner(plain, top) {
        return Ok(false);
    }
    is_within(alloc, plain, top)
}

fn is_inner(plain: &Plain, id: ModId) -> bool
    requires { IsSound plain.now }
    ensures { IsTrue result ↔ IsInner (module_of plain.now id) }
{
    match module_of(plain, id) {
        None => false,
        Some(holder) => !holder.leaf,
    }
}

/// Whether block instances alone are placed.
fn are_placed(plain: &Plain, top: ModId, places: &Places) -> Result<bool, NoMemory>
    requires { IsSound plain.now }
    ensures { IfOk result (λ placed. IsTrue placed
        ↔ ((path : Seq InstId) → IsSome (get places.now path)
        → IsTrue (is_leaf_path plain.now top path))) }
{
    let list = places.to_list()?;
    Ok(are_leaf_paths(plain, top, list.as_slice()))
}

fn are_leaf_paths(plain: &Plain, top: ModId, placed: &[(Path, Placement)]) -> bool
    requires { InOrder plain.now }
    ensures { IsTrue result ↔ All
        (λ (p : Seq InstId × Placement). IsTrue (is_leaf_path plain.now top p.0)) placed.now }
{
    placed
        .iter()
        .all(|(path, _)| is_leaf_path(plain, top, path))
}

fn is_good_fanout(state: &State) -> bool
    requires { IsSound state.now.plain }
    ensures { IsTrue result ↔ ((limit : Fanout) → state.now.settings.fanout ≡ Some limit
        → IsFanout state.now.plain limit) }
{
    match state.settings.fanout {
        None => true,
        Some(limit) => is_buffer_cell(state, limit.cell) && !is_bad_fanout(limit.max),
    }
}

/// Whether a module is there and is a buffer.
fn is_buffer_cell(state: &State, cell: ModId) -> bool
    requires { IsSound state.now.plain }
    ensures { result ≡ is_buffer (module_of state.now.plain cell) }
{
    if state.is_module(cell) {
        is_buffer(state, cell)
    } else {
        false
    }
}

fn is_good_grid(grid: Option<u32>) -> bool
    ensures { IsTrue result ↔ ((width : ℕ) → grid ≡ Some width → is_bad_grid width ≡ false) }
{
    match grid {
        None => true,
        Some(width) => !is_bad_grid(width),
    }
}
