//! The changes that edits make to a module, a net or an instance.

ghost use Rattle.std.specs.Prelude.{◌≡◌, ◌==◌, not, [], ◌∷◌, ◌++◌, map, filter, remove, slice_set, IfOk, if◌then◌else◌};
ghost use Rattle.emh_base.specs.declared.plain.Conn.TheVariants.{Open};
ghost use Rattle.flatten_rules.specs.Changes.{with_insts, with_conns};
ghost use Rattle.edit_rules.specs.Nets.{without_net, without_port, without_conn};
ghost use Rattle.edit_rules.specs.Insts.{set_conn};

use crate::rewrite::{Rewrite, each, with_item, with_last, without, without_place};
use emh_base::{
    Conn, InstId, List, ModId, Name, NetId, NoMemory, PInst, PModule, PNet, PPort, TryCopy,
};

/// A module in place of another.
#[derive(Drop)]
pub struct Other {
    pub module: PModule,
}

impl Rewrite<PModule> for Other {
    ghost becomes = { λ other _. other.«module» };

    fn rewrite(&self, _: &PModule) -> Result<PModule, NoMemory> {
        self.module.copy()
    }
}

/// A new name.
#[derive(Drop)]
pub struct Called {
    pub name: Name,
}

impl Rewrite<PModule> for Called {
    ghost becomes = { λ called holder. record holder { name = called.name } };

    fn rewrite(&self, holder: &PModule) -> Result<PModule, NoMemory> {
        let mut made = holder.copy()?;
        made.name = self.name.copy()?;
        Ok(made)
    }
}

/// A lock that is set, or cleared.
#[derive(Drop)]
pub struct Locks {
    pub locked: bool,
}

impl Rewrite<PModule> for Locks {
    ghost becomes = { λ locks holder. record holder { locked = locks.locked } };

    fn rewrite(&self, holder: &PModule) -> Result<PModule, NoMemory> {
        let mut made = holder.copy()?;
        made.locked = self.locked;
        Ok(made)
    }
}

impl Rewrite<PNet> for Called {
    ghost becomes = { λ called net. record net { name = called.name } };

    fn rewrite(&self, net: &PNet) -> Result<PNet, NoMemory> {
        Ok(PNet {
            id: net.id,
            name: self.name.copy()?,
            range: net.range,
        })
    }
}

impl Rewrite<PInst> for Called {
    ghost becomes = { λ called inst. record inst { name = called.name } };

    fn rewrite(&self, inst: &PInst) -> Result<PInst, NoMemory> {
        Ok(PInst {
            id: inst.id,
            name: self.name.copy()?,
            master: inst.master,
            conns: inst.conns.copy()?,
        })
    }
}

/// Another master.
#[derive(Drop)]
pub struct Master {
    pub master: ModId,
}

impl Rewrite<PInst> for Master {
    ghost becomes = { λ other inst. record inst { master = other.master } };

    fn rewrite(&self, inst: &PInst) -> Result<PInst, NoMemory> {
        Ok(PInst {
            id: inst.id,
            name: inst.name.copy()?,
            master: self.master,
            conns: inst.conns.copy()?,
        })
    }
}

/// A change of each of a module's nets.
#[derive(Drop)]
pub struct Nets<R> {
    pub change: R,
}

impl<R: Rewrite<PNet>> Rewrite<PModule> for Nets<R> {
    ghost becomes = { λ nets holder. record holder { nets = map (R.becomes nets.change) holder.nets } };

    fn rewrite(&self, holder: &PModule) -> Result<PModule, NoMemory> {
        let mut made = holder.copy()?;
        made.nets = each(holder.nets.alloc(), holder.nets.as_slice(), &self.change)?;
        Ok(made)
    }
}

/// A change of each of a module's instances.
#[derive(Drop)]
pub struct Insts<R> {
    pub change: R,
}

impl<R: Rewrite<PInst>> Rewrite<PModule> for Insts<R> {
    ghost becomes = { λ insts holder. with_insts (R.becomes insts.change) holder };

    fn rewrite(&self, holder: &PModule) -> Result<PModule, NoMemory> {
        let mut made = holder.copy()?;
        made.insts = each(holder.insts.alloc(), holder.insts.as_slice(), &self.change)?;
        Ok(made)
    }
}

/// A change of the instances that have a module as their master. The others stay.
#[derive(Drop)]
pub struct OfMaster<R> {
    pub master: ModId,
    pub change: R,
}

impl<R: Rewrite<PInst>> Rewrite<PInst> for OfMaster<R> {
    ghost becomes = { λ of inst. if inst.master.0 == of.master.0 then R.becomes of.change inst else inst };

    fn rewrite(&self, inst: &PInst) -> Result<PInst, NoMemory> {
        if inst.master.0 == self.master.0 {
            self.change.rewrite(inst)
        } else {
            inst.copy()
        }
    }
}

/// A net that goes.
#[derive(Drop)]
pub struct NoNet {
    pub net: NetId,
}

impl Rewrite<PModule> for NoNet {
    ghost becomes = { λ gone holder. without_net gone.net holder };

    fn rewrite(&self, holder: &PModule) -> Result<PModule, NoMemory> {
        let mut made = holder.copy()?;
        made.nets = without(holder.nets.alloc(), holder.nets.as_slice(), self.net.0)?;
        Ok(made)
    }
}

/// A port that goes with its net.
#[derive(Drop)]
pub struct NoPort {
    pub port: NetId,
}

impl Rewrite<PModule> for NoPort {
    ghost becomes = { λ gone holder. without_port gone.port holder };

    fn rewrite(&self, holder: &PModule) -> Result<PModule, NoMemory> {
        let mut made = holder.copy()?;
        made.nets = without(holder.nets.alloc(), holder.nets.as_slice(), self.port.0)?;
        made.ports = ports_without(holder, self.port)?;
        Ok(made)
    }
}

/// The ports of a module but one.
fn ports_without(holder: &PModule, port: NetId) -> Result<List<PPort>, NoMemory>
    ensures { IfOk result (λ made. made ≡ filter
        (λ other. not (other.net.0 == port.0)) holder.now.ports) }
{
    let mut made = List::new(holder.ports.alloc());
    for other in holder.ports.as_slice() {
        if other.net.0 != port.0 {
            made.push(*other)?;
        }
    }
    Ok(made)
}

/// An instance that goes.
#[derive(Drop)]
pub struct NoInst {
    pub inst: InstId,
}

impl Rewrite<PModule> for NoInst {
    ghost becomes = { λ gone holder. record holder {
      insts = filter (λ other. not (other.id.0 == gone.inst.0)) holder.insts;
    } };

    fn rewrite(&self, holder: &PModule) -> Result<PModule, NoMemory> {
        let mut made = holder.copy()?;
        made.insts = without(holder.insts.alloc(), holder.insts.as_slice(), self.inst.0)?;
        Ok(made)
    }
}

/// A connection that goes, by its place; none goes where there is no place.
#[derive(Drop)]
pub struct NoConn {
    pub place: Option<usize>,
}

impl Rewrite<PInst> for NoConn {
    ghost becomes = { λ gone inst. with_conns (without_conn gone.place) inst };

    fn rewrite(&self, inst: &PInst) -> Result<PInst, NoMemory> {
        Ok(PInst {
            id: inst.id,
            name: inst.name.copy()?,
            master: inst.master,
            conns: without_conn(&inst.conns, self.place)?,
        })
    }
}

/// The connections but the one at a place.
fn without_conn(conns: &List<Conn>, place: Option<usize>) -> Result<List<Conn>, NoMemory>
    ensures { IfOk result (λ made. made ≡ without_conn place conns.now) }
{
    match place {
        None => conns.copy(),
        Some(place) => without_place(conns, place),
    }
}

/// One more connection, which stands last and is open.
#[derive(Drop)]
pub struct LastOpen {}

impl Rewrite<PInst> for LastOpen {
    ghost becomes = { λ _ inst. with_conns (λ conns. conns ++ Open ∷ []) inst };

    fn rewrite(&self, inst: &PInst) -> Result<PInst, NoMemory> {
        Ok(PInst {
            id: inst.id,
            name: inst.name.copy()?,
            master: inst.master,
            conns: with_last(inst.conns.alloc(), inst.conns.as_slice(), Conn::Open)?,
        })
    }
}

/// Another connection at a place; none changes where there is no place.
#[derive(Drop)]
pub struct Joined {
    pub place: Option<usize>,
    pub conn: Conn,
}

impl Rewrite<PInst> for Joined {
    ghost becomes = { λ joined inst. with_conns (set_conn joined.place joined.conn) inst };

    fn rewrite(&self, inst: &PInst) -> Result<PInst, NoMemory> {
        Ok(PInst {
            id: inst.id,
            name: inst.name.copy()?,
            master: inst.master,
            conns: set_conn(&inst.conns, self.place, &self.conn)?,
        })
    }
}

/// The connections with another one at a place.
fn set_conn(conns: &List<Conn>, place: Option<usize>, conn: &Conn) -> Result<List<Conn>, NoMemory>
    ensures { IfOk result (λ made. made ≡ set_conn place conn.now conns.now) }
{
    match place {
        None => conns.copy(),
        Some(place) => with_item(conns, place, conn.copy()?),
    }
}
