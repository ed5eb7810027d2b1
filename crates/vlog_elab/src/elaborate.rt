ghost use Rattle.std.specs.Prelude.{◌≡◌, ◌+◌, ◌<◌, ◌≤◌, ℕ, Bool, None, Some, List, length, ◌↔◌, IsTrue, slice_get, All, IfOk, IfErr, MatchResult};
ghost use Rattle.emh_base.specs.declared.plain.Plain.{Plain};
ghost use Rattle.flatten_rules.specs.Sound.{IsSound};
ghost use Rattle.vlog_read.specs.declared.tree.TModule.{TModule};
ghost use Rattle.vlog_elab.specs.declared.fault.ElabFault.{ElabFault};
ghost use Rattle.flatten_rules.specs.Check.{first_broken};
ghost use Rattle.vlog_elab.specs.Named.{place_of};
ghost use Rattle.vlog_elab.specs.Interfaces.{added, interfaces, known};
ghost use Rattle.vlog_elab.specs.Declarations.{declaration_checks};
ghost use Rattle.vlog_elab.specs.Elaboration.{Elaborates, HasFault, UnlessNoMemory};
ghost use Rattle.vlog_elab.specs.inside.Walk.{Found};
ghost use Rattle.vlog_elab.specs.Counters.{HasCounters};

use crate::fault::{ElabFault, ElabKind, fault};
use crate::interface::{Interface, Known};
use crate::modules::{add_modules, known_of};
use crate::names::Names;
use crate::table::rows_of;
use emh_base::Plain;
use flatten_rules::first_on_cycle;
use std::alloc::Global;
use vlog_read::{TModule, Tree};

/// A table with the modules of a tree after it, or the first rule that is broken. All modules are leaves where
/// `all_leaf` is true, and else those that are marked. Declarations of all modules are looked at first, then
/// connections, then whether a module holds an instance of itself in the end. It takes time n log n.
pub fn elab(alloc: Global, table: &Plain, tree: &Tree, all_leaf: bool) -> Result<Plain, ElabFault>
    requires { IsSound table.now }
    ensures table { IfOk result (Elaborates table.now all_leaf tree.now) }
    ensures fault { IfErr result (UnlessNoMemory (HasFault table.now all_leaf tree.now)) }
    ensures sound { IfOk result IsSound }

    // A tree that gives a table gives it, and a tree that has a fault gives it, unless memory is wanting.
    ensures each_table { (made : Plain) → Elaborates table.now all_leaf tree.now made
        → MatchResult result (λ it. it ≡ made) (UnlessNoMemory (λ _. ⊥)) }
    ensures each_fault { (fault : ElabFault) → HasFault table.now all_leaf tree.now fault
        → MatchResult result (λ _. ⊥) (UnlessNoMemory (λ it. it ≡ fault)) }
{
    rounds(alloc, table, tree, all_leaf)
}

/// The three rounds, one after the other. The second one makes the rows of the modules on its way.
fn rounds(alloc: Global, table: &Plain, tree: &Tree, all_leaf: bool) -> Result<Plain, ElabFault>
    requires { IsSound table.now }
    ensures table { IfOk result (Elaborates table.now all_leaf tree.now) }
    ensures counters { IfOk result (λ made. All HasCounters made.modules) }
    ensures fault { IfErr result (UnlessNoMemory (HasFault table.now all_leaf tree.now)) }
{
    let modules = tree.modules.as_slice();
    let known = declared(alloc, table, modules, all_leaf)?;
    let rows = rows_of(alloc, table, &known.interfaces, modules)?;
    let plain = Plain {
        modules: rows,
        next_module: known.next_module,
    };
    match first_on_cycle(alloc, &plain, table.modules.len())? {
        Some(place) => Err(recursive(table, &known.interfaces, modules, place)),
        None => Ok(plain),
    }
}

/// What is known of all modules, where no rule of the first round is broken.
fn declared<'a>(
    alloc: Global,
    table: &'a Plain,
    modules: &'a [TModule],
    all_leaf: bool,
) -> Result<Known<'a>, ElabFault>
    requires { IsSound table.now }
    ensures { MatchResult result
        (λ made. (first_broken (declaration_checks table.now all_leaf modules.now) ≡ None)
        × (made ≡ known table.now all_leaf modules.now))
        (Found (first_broken (declaration_checks table.now all_leaf modules.now))) }
{
    let mut known = known_of(alloc, table)?;
    add_modules(alloc, all_leaf, &mut known, modules)?;
    Ok(known)
}

/// The fault of the module of a text whose row is at a place of the table that is built: the fault at its name.
fn recursive(
    table: &Plain,
    masters: &Names<'_, Interface<'_>>,
    modules: &[TModule],
    place: usize,
) -> ElabFault
    requires known { (all_leaf : Bool) × (masters.now ≡ interfaces table.now all_leaf modules.now) }
    requires after { length table.now.modules ≤ place }
    requires within { place < length table.now.modules + length (added table.now modules.now) }
    ensures { (k : ℕ) (m : TModule) → place ≡ length table.now.modules + k
        → slice_get (added table.now modules.now) k ≡ Some m
        → Found (Some (ElabFault.Fault ElabKind.Recursive m.name.at m.name.name)) result }
{
    let mut next = table.modules.len();
    for m in modules {
        if !is_next(masters, m, next) {
            continue;
        }
        if next == place {
            return fault(ElabKind::Recursive, &m.name);
        }
        next += 1;
    }
    unreachable!("each row that was added is one of the text")
}

/// Whether the interface of a module is at that place: the first of its name where the place is the next one.
fn is_next(masters: &Names<'_, Interface<'_>>, m: &TModule, next: usize) -> bool
    ensures { IsTrue result ↔ (place_of masters.now m.now.name.name ≡ Some next) }
{
    match masters.find(&m.name.name) {
        Some(place) => place == next,
        None => false,
    }
}
