ghost use Rattle.std.specs.Prelude.{◌≡◌};
ghost use Rattle.edit_rules.specs.Good.{IsGoodState};
ghost use Rattle.edit_rules.specs.Judged.{Looks};
ghost use Rattle.edit_rules.specs.Apply.{checks};

mod common;
mod connections;
mod grown;
mod insts;
mod modules;
mod nets;
mod outline;
mod ports;
mod spots;

use crate::facts::Facts;
use crate::judged::Judged;
use crate::settings::set_grid;
use connections::{connect, disconnect};
use emh_base::Edit;
use insts::{create_inst, delete_inst, rename_inst, resize, uniquify};
use modules::{create_module, delete_module, lock, rename_module, set_fanout, unlock};
use nets::{create_net, create_port, delete_net, delete_port, rename_net};
pub use ports::is_buffer;
use spots::{place, unplace};
use std::alloc::Global;

/// Looks at the rules of an edit.
pub fn look<F: Facts>(alloc: Global, facts: &F, edit: &Edit) -> Result<(), Judged>
    requires { IsGoodState (F.state facts.now) }
    ensures { Looks (checks (F.state facts.now) edit.now) result }
{
    match edit {
        Edit::CreateModule { name } => create_module(facts, name),
        Edit::DeleteModule { module } => delete_module(facts, *module),
        Edit::CreateNet {
            module,
            name,
            range,
        } => create_net(facts, *module, name, *range),
        Edit::DeleteNet { module, net } => delete_net(facts, *module, *net),
        Edit::CreatePort {
            module,
            name,
            dir,
            range,
        } => create_port(facts, *module, name, *dir, *range),
        Edit::DeletePort { module, port } => delete_port(facts, *module, *port),
        Edit::CreateInst {
            module,
            name,
            master,
        } => create_inst(alloc, facts, *module, name, *master),
        Edit::DeleteInst { module, inst } => delete_inst(facts, *module, *inst),
        Edit::Connect {
            module,
            inst,
            port,
            bits,
        } => connect(facts, *module, *inst, *port, bits),
        Edit::Disconnect { module, inst, port } => disconnect(facts, *module, *inst, *port),
        Edit::RenameModule { module, name } => rename_module(facts, *module, name),
        Edit::RenameNet { module, net, name } => rename_net(facts, *module, *net, name),
        Edit::RenameInst { module, inst, name } => rename_inst(facts, *module, *inst, name),
        Edit::Resize {
            module,
            inst,
            master,
        } => resize(facts, *module, *inst, *master),
        Edit::Uniquify { module, inst, name } => uniquify(facts, *module, *inst, name),
        Edit::Place { path, .. } => place(facts, path),
        Edit::Unplace { path } => unplace(facts, path),
        Edit::Lock { module } => lock(facts, *module),
        Edit::Unlock { module } => unlock(facts, *module),
        Edit::SetFanout { max, cell } => set_fanout(facts, *max, *cell),
        Edit::SetGrid { grid } => set_grid(*grid),
    }
}
