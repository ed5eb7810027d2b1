//! The tables after edits of instances.

ghost use Rattle.std.specs.Prelude.{◌≡◌, ◌<◌, Some, AllPairs, IfOk, false};
ghost use Rattle.emh_base.specs.declared.plain.PModule.{PModule};
ghost use Rattle.flatten_rules.specs.Lookup.{module_of};
ghost use Rattle.flatten_rules.specs.Sound.{IsSound};
ghost use Rattle.edit_rules.specs.Readers.{next_inst_of};
ghost use Rattle.edit_rules.specs.Insts.{with_new_inst, all_open, create_inst, delete_inst, rename_inst, with_master, uniquify, with_conn, connect, disconnect};

use crate::changes::{Called, Joined, Master, NoInst, Other};
use crate::reading::{master_of, place_at_inst};
use crate::rewrite::with_last;
use crate::table::{next_id, with_inst, with_last_module, with_module};
use emh_base::{
    Conn, InstId, List, ModId, Name, NetId, NoMemory, PInst, PModule, Plain, Src, TryCopy,
};
use flatten_rules::module_of;

/// The table with a new instance in a module, all its ports open.
pub fn create_inst(plain: &Plain, id: ModId, name: &Name, master: ModId) -> Result<Plain, NoMemory>
    requires rise { AllPairs (λ (a b : PModule). a.id.0 < b.id.0) plain.now.modules }
    requires room { next_inst_of (module_of plain.now id) < 4294967295 }
    ensures { IfOk result (λ made. made ≡ create_inst plain.now id name.now master) }
{
    match module_of(plain, id) {
        None => plain.copy(),
        Some(holder) => {
            let conns = all_open(plain, master)?;
            let module = with_new_inst(holder, name, master, conns)?;
            with_module(plain, id, Other { module })
        }
    }
}

/// A module with an instance more.
fn with_new_inst(
    holder: &PModule,
    name: &Name,
    master: ModId,
    conns: List<Conn>,
) -> Result<PModule, NoMemory>
    requires { holder.now.next_inst < 4294967295 }
    ensures { IfOk result (λ made. made ≡ with_new_inst name.now master conns holder.now) }
{
    let inst = PInst {
        id: InstId(holder.next_inst),
        name: name.copy()?,
        master,
        conns,
    };
    let mut made = holder.copy()?;
    made.insts = with_last(holder.insts.alloc(), holder.insts.as_slice(), inst)?;
    made.next_inst = next_id(holder.next_inst);
    Ok(made)
}

/// An open connection for each port of a module.
fn all_open(plain: &Plain, master: ModId) -> Result<List<Conn>, NoMemory>
    requires { AllPairs (λ (a b : PModule). a.id.0 < b.id.0) plain.now.modules }
    ensures { IfOk result (λ made. made ≡ all_open (module_of plain.now master)) }
{
    match module_of(plain, master) {
        None => Ok(List::new(plain.modules.alloc())),
        Some(master) => open_for(master),
    }
}

fn open_for(master: &PModule) -> Result<List<Conn>, NoMemory>
    ensures { IfOk result (λ made. made ≡ all_open (Some master.now)) }
{
    let mut made = List::new(master.ports.alloc());
    for _port in master.ports.as_slice() {
        made.push(Conn::Open)?;
    }
    Ok(made)
}

/// The table without an instance.
pub fn delete_inst(plain: &Plain, id: ModId, inst: InstId) -> Result<Plain, NoMemory>
    ensures { IfOk result (λ made. made ≡ delete_inst plain.now id inst) }
{
    with_module(plain, id, NoInst { inst })
}

/// The table in which a connection has these sources.
pub fn connect(
    plain: &Plain,
    id: ModId,
    inst: InstId,
    port: NetId,
    bits: &List<Src>,
) -> Result<Plain, NoMemory>
    requires { IsSound plain.now }
    ensures { IfOk result (λ made. made ≡ connect plain.now id inst port bits.now) }
{
    with_conn(plain, id, inst, port, Conn::Bits(bits.copy()?))
}

/// The table in which a connection is open.
pub fn disconnect(plain: &Plain, id: ModId, inst: InstId, port: NetId) -> Result<Plain, NoMemory>
    requires { IsSound plain.now }
    ensures { IfOk result (λ made. made ≡ disconnect plain.now id inst port) }
{
    with_conn(plain, id, inst, port, Conn::Open)
}

/// The table with another connection of an instance at a port of its master.
fn with_conn(
    plain: &Plain,
    id: ModId,
    inst: InstId,
    port: NetId,
    conn: Conn,
) -> Result<Plain, NoMemory>
    requires { IsSound plain.now }
    ensures { IfOk result (λ made. made ≡ with_conn plain.now id inst port conn) }
{
    let place = place_at_inst(plain, id, inst, port);
    with_inst(plain, id, inst, Joined { place, conn })
}

/// The table in which an instance has a new name.
pub fn rename_inst(plain: &Plain, id: ModId, inst: InstId, name: &Name) -> Result<Plain, NoMemory>
    ensures { IfOk result (λ made. made ≡ rename_inst plain.now id inst name.now) }
{
    with_inst(plain, id, inst, Called { name: name.copy()? })
}

/// The table in which an instance has another master.
pub fn with_master(plain: &Plain, id: ModId, inst: InstId, master: ModId) -> Result<Plain, NoMemory>
    ensures { IfOk result (λ made. made ≡ with_master plain.now id inst master) }
{
    with_inst(plain, id, inst, Master { master })
}

/// The table in which an instance has a module of its own as its master, an unlocked copy of the one that it had.
pub fn uniquify(plain: &Plain, id: ModId, inst: InstId, name: &Name) -> Result<Plain, NoMemory>
    requires sound { IsSound plain.now }
    requires room { plain.now.next_module < 4294967295 }
    ensures { IfOk result (λ made. made ≡ uniquify plain.now id inst name.now) }
{
    let own = ModId(plain.next_module);
    match master_of(plain, id, inst) {
        None => with_master(plain, id, inst, own),
        Some(old) => {
            let grown = with_last_module(plain, copy_of(old, own, name)?)?;
            with_master(&grown, id, inst, own)
        }
    }
}

/// An unlocked copy of a module.
fn copy_of(holder: &PModule, id: ModId, name: &Name) -> Result<PModule, NoMemory>
    ensures { IfOk result (λ made. made ≡ record holder.now { id = id; name = name.now; locked = false }) }
{
    let mut made = holder.copy()?;
    made.id = id;
    made.name = name.copy()?;
    made.locked = false;
    Ok(made)
}
