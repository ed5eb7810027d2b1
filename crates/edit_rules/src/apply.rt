//! An edit of a state: judged, and done where no rule is broken.

ghost use Rattle.std.specs.Prelude.{◌≡◌, ◌<◌, ℕ, Some, AllPairs, option_to_list, IfOk, OnOk, OnErr, true, false};
ghost use Rattle.emh_base.specs.declared.plain.PModule.{PModule};
ghost use Rattle.flatten_rules.specs.Lookup.{module_of};
ghost use Rattle.flatten_rules.specs.Sound.{IsSound};
ghost use Rattle.edit_rules.specs.inside.Order.{InOrder};
ghost use Rattle.edit_rules.specs.Readers.{next_net_of, next_inst_of, conns_of, conn_of, inst_in};
ghost use Rattle.edit_rules.specs.Spots.{kept};
ghost use Rattle.edit_rules.specs.Judged.{Answers};
ghost use Rattle.edit_rules.specs.Good.{IsGoodState};
ghost use Rattle.edit_rules.specs.Apply.{apply, table_after, with_place, settings_after, after, was, made, HasRoom, change};

use crate::insts::{
    connect, create_inst, delete_inst, disconnect, rename_inst, uniquify, with_master,
};
use crate::judged::{Judged, judge};
use crate::modules::{create_module, delete_module, rename_module, with_lock};
use crate::nets::{create_net, create_port, delete_net, delete_port, rename_net};
use crate::reading::conn_of;
use crate::spots::kept;
use emh_base::{
    By, Change, Conn, Edit, Fanout, InstId, List, ModId, NetId, NoMemory, Places, Plain, Settings,
    State, TryCopy,
};
use flatten_rules::{inst_in, module_of};
use std::alloc::Global;

/// Does an edit of a good state, asked for by the user, or tells the first rule that it breaks. After an error the
/// state is as before. A good state stays good.
pub fn apply_plain(alloc: Global, state: &mut State, edit: &Edit) -> Result<Change, Judged>
    requires { IsGoodState state.old }
    ensures answers { Answers (apply state.old By.User edit.now) state.old result state.new }
    ensures good { IsGoodState state.new }
{
    apply_judged(alloc, state, edit)
}

fn apply_judged(alloc: Global, state: &mut State, edit: &Edit) -> Result<Change, Judged>
    requires { IsGoodState state.old }
    ensures { Answers (apply state.old By.User edit.now) state.old result state.new }
{
    judge(alloc, &*state, edit)?;
    Ok(carry_out(state, edit)?)
}

/// Makes a state the one after an edit, and tells the change. After want of memory the state is as before.
fn carry_out(state: &mut State, edit: &Edit) -> Result<Change, NoMemory>
    requires sound { IsSound state.old.plain }
    requires room { HasRoom state.old.plain edit.now }
    ensures ok { OnOk result (state.new ≡ after state.old edit.now) }
    ensures told { IfOk result (λ told. told ≡ change state.old By.User edit.now) }
    ensures err { OnErr result (state.new ≡ state.old) }
{
    let told = change_of(state, edit)?;
    let table = table_after(&state.plain, edit)?;
    let places = places_after(&table, state.top, &state.places, edit)?;
    state.settings = settings_after(state.settings, edit);
    state.places = places;
    state.plain = table;
    Ok(told)
}

/// The change that is told of an edit.
fn change_of(state: &State, edit: &Edit) -> Result<Change, NoMemory>
    requires { IsSound state.now.plain }
    ensures { IfOk result (λ told. told ≡ change state.now By.User edit.now) }
{
    Ok(Change {
        edit: edit.copy()?,
        by: By::User,
        was: was(&state.plain, edit)?,
        made: made(&state.plain, edit),
    })
}

/// The connections that stood before, where an edit takes them away.
fn was(plain: &Plain, edit: &Edit) -> Result<List<Conn>, NoMemory>
    requires { IsSound plain.now }
    ensures { IfOk result (λ conns. conns ≡ was plain.now edit.now) }
{
    match edit {
        Edit::DeleteInst { module, inst } => conns_at(plain, *module, *inst),
        Edit::Connect {
            module,
            inst,
            port,
            ..
        } => conn_at(plain, *module, *inst, *port),
        Edit::Disconnect { module, inst, port } => conn_at(plain, *module, *inst, *port),
        _ => Ok(List::new(plain.modules.alloc())),
    }
}

/// The connections of an instance.
fn conns_at(plain: &Plain, id: ModId, inst: InstId) -> Result<List<Conn>, NoMemory>
    requires { IsSound plain.now }
    ensures { IfOk result (λ conns. conns ≡ conns_of (inst_in plain.now id inst)) }
{
    match inst_in(plain, id, inst) {
        None => Ok(List::new(plain.modules.alloc())),
        Some(there) => there.conns.copy(),
    }
}

/// The connection of an instance at a port of its master, alone in a list; none where there is no such port.
fn conn_at(plain: &Plain, id: ModId, inst: InstId, port: NetId) -> Result<List<Conn>, NoMemory>
    requires { IsSound plain.now }
    ensures { IfOk result (λ conns. conns ≡ option_to_list (conn_of plain.now (inst_in plain.now id inst) port)) }
{
    let mut made = List::new(plain.modules.alloc());
    if let Some(conn) = conn_of(plain, id, inst, port) {
        made.push(conn.copy()?)?;
    }
    Ok(made)
}

/// The id that an edit gives.
fn made(plain: &Plain, edit: &Edit) -> Option<u32>
    requires { AllPairs (λ (a b : PModule). a.id.0 < b.id.0) plain.now.modules }
    ensures { result ≡ made plain.now edit.now }
{
    match edit {
        Edit::CreateModule { .. } => Some(plain.next_module),
        Edit::CreateNet { module, .. } => Some(next_net(plain, *module)),
        Edit::CreatePort { module, .. } => Some(next_net(plain, *module)),
        Edit::CreateInst { module, .. } => Some(next_inst(plain, *module)),
        Edit::Uniquify { .. } => Some(plain.next_module),
        _ => None,
    }
}

/// The id that the next net of a module gets; 0 where the module isn't there.
fn next_net(plain: &Plain, id: ModId) -> u32
    requires { AllPairs (λ (a b : PModule). a.id.0 < b.id.0) plain.now.modules }
    ensures { result ≡ next_net_of (module_of plain.now id) }
{
    match module_of(plain, id) {
        None => 0,
        Some(holder) => holder.next_net,
    }
}

/// The id that the next instance in a module gets; 0 where the module isn't there.
fn next_inst(plain: &Plain, id: ModId) -> u32
    requires { AllPairs (λ (a b : PModule). a.id.0 < b.id.0) plain.now.modules }
    ensures { result ≡ next_inst_of (module_of plain.now id) }
{
    match module_of(plain, id) {
        None => 0,
        Some(holder) => holder.next_inst,
    }
}

/// The placements after an edit, by the table after it.
fn places_after(table: &Plain, top: ModId, places: &Places, edit: &Edit) -> Result<Places, NoMemory>
    requires { InOrder table.now }
    ensures { IfOk result (λ made. made ≡ with_place edit.now (kept table.now top places.now)) }
{
    let mut made = kept(table, top, places)?;
    match edit {
        Edit::Place { path, placement } => made.set(path.copy()?, *placement)?,
        Edit::Unplace { path } => made.remove(path),
        _ => {}
    }
    Ok(made)
}

/// The settings after an edit.
fn settings_after(settings: Settings, edit: &Edit) -> Settings
    ensures { result ≡ settings_after settings edit.now }
{
    match edit {
        Edit::SetFanout { max, cell } => Settings {
            fanout: Some(Fanout {
                max: *max,
                cell: *cell,
            }),
            grid: settings.grid,
        },
        Edit::SetGrid { grid } => Settings {
            fanout: settings.fanout,
            grid: Some(*grid),
        },
        _ => settings,
    }
}

/// The table after an edit for which there is an id left.
fn table_after(plain: &Plain, edit: &Edit) -> Result<Plain, NoMemory>
    requires sound { IsSound plain.now }
    requires room { HasRoom plain.now edit.now }
    ensures { IfOk result (λ made. made ≡ table_after plain.now edit.now) }
{
    match edit {
        Edit::CreateModule { name } => create_module(plain, name),
        Edit::DeleteModule { module } => delete_module(plain, *module),
        Edit::CreateNet {
            module,
            name,
            range,
        } => create_net(plain, *module, name, *range),
        Edit::DeleteNet { module, net } => delete_net(plain, *module, *net),
        Edit::CreatePort {
            module,
            name,
            dir,
            range,
        } => create_port(plain, *module, name, *dir, *range),
        Edit::DeletePort { module, port } => delete_port(plain, *module, *port),
        Edit::CreateInst {
            module,
            name,
            master,
        } => create_inst(plain, *module, name, *master),
        Edit::DeleteInst { module, inst } => delete_inst(plain, *module, *inst),
        Edit::Connect {
            module,
            inst,
            port,
            bits,
        } => connect(plain, *module, *inst, *port, bits),
        Edit::Disconnect { module, inst, port } => disconnect(plain, *module, *inst, *port),
        Edit::RenameModule { module, name } => rename_module(plain, *module, name),
        Edit::RenameNet { module, net, name } => rename_net(plain, *module, *net, name),
        Edit::RenameInst { module, inst, name } => rename_inst(plain, *module, *inst, name),
        Edit::Resize {
            module,
            inst,
            master,
        } => with_master(plain, *module, *inst, *master),
        Edit::Uniquify { module, inst, name } => uniquify(plain, *module, *inst, name),
        Edit::Lock { module } => with_lock(plain, *module, true),
        Edit::Unlock { module } => with_lock(plain, *module, false),
        _ => plain.copy(),
    }
}
