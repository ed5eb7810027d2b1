//! The tables after edits of nets and ports.

ghost use Rattle.std.specs.Prelude.{◌≡◌, ◌+◌, ◌<◌, AllPairs, IfOk};
ghost use Rattle.emh_base.specs.declared.plain.PModule.{PModule};
ghost use Rattle.flatten_rules.specs.Lookup.{module_of};
ghost use Rattle.flatten_rules.specs.Changes.{with_module};
ghost use Rattle.edit_rules.specs.Readers.{next_net_of};
ghost use Rattle.edit_rules.specs.Nets.{with_net, create_net, with_port, create_port, delete_net, delete_port, rename_net};

use crate::changes::{Called, LastOpen, Nets, NoConn, NoNet, NoPort, Other};
use crate::readers::place_of_port;
use crate::rewrite::{At, with_last};
use crate::table::{at_instances, next_id, with_module};
use emh_base::{Dir, ModId, Name, NetId, NoMemory, PModule, PNet, PPort, Plain, Range, TryCopy};
use flatten_rules::module_of;

/// The table with a new net in a module.
pub fn create_net(
    plain: &Plain,
    id: ModId,
    name: &Name,
    range: Option<Range>,
) -> Result<Plain, NoMemory>
    requires rise { AllPairs (λ (a b : PModule). a.id.0 < b.id.0) plain.now.modules }
    requires room { next_net_of (module_of plain.now id) < 4294967295 }
    ensures { IfOk result (λ made. made ≡ create_net plain.now id name.now range) }
{
    match module_of(plain, id) {
        None => plain.copy(),
        Some(holder) => {
            let module = with_net(holder, name, range)?;
            with_module(plain, id, Other { module })
        }
    }
}

/// A module with a net more.
fn with_net(holder: &PModule, name: &Name, range: Option<Range>) -> Result<PModule, NoMemory>
    requires { holder.now.next_net < 4294967295 }
    ensures { IfOk result (λ made. made ≡ with_net name.now range holder.now) }
{
    let net = PNet {
        id: NetId(holder.next_net),
        name: name.copy()?,
        range,
    };
    let mut made = holder.copy()?;
    made.nets = with_last(holder.nets.alloc(), holder.nets.as_slice(), net)?;
    made.next_net = next_id(holder.next_net);
    Ok(made)
}

/// The table without a net.
pub fn delete_net(plain: &Plain, id: ModId, net: NetId) -> Result<Plain, NoMemory>
    ensures { IfOk result (λ made. made ≡ delete_net plain.now id net) }
{
    with_module(plain, id, NoNet { net })
}

/// The table with a new port of a module, open at each instance.
pub fn create_port(
    plain: &Plain,
    id: ModId,
    name: &Name,
    dir: Dir,
    range: Option<Range>,
) -> Result<Plain, NoMemory>
    requires rise { AllPairs (λ (a b : PModule). a.id.0 < b.id.0) plain.now.modules }
    requires room { next_net_of (module_of plain.now id) < 4294967295 }
    ensures { IfOk result (λ made. made ≡ create_port plain.now id name.now dir range) }
{
    let inside = with_port_inside(plain, id, name, dir, range)?;
    at_instances(&inside, id, LastOpen {})
}

fn with_port_inside(
    plain: &Plain,
    id: ModId,
    name: &Name,
    dir: Dir,
    range: Option<Range>,
) -> Result<Plain, NoMemory>
    requires rise { AllPairs (λ (a b : PModule). a.id.0 < b.id.0) plain.now.modules }
    requires room { next_net_of (module_of plain.now id) < 4294967295 }
    ensures { IfOk result (λ made. made ≡ with_module plain.now id (with_port name.now dir range)) }
{
    match module_of(plain, id) {
        None => plain.copy(),
        Some(holder) => {
            let module = with_port(holder, name, dir, range)?;
            with_module(plain, id, Other { module })
        }
    }
}

/// A module with a port more.
fn with_port(
    holder: &PModule,
    name: &Name,
    dir: Dir,
    range: Option<Range>,
) -> Result<PModule, NoMemory>
    requires { holder.now.next_net < 4294967295 }
    ensures { IfOk result (λ made. made ≡ with_port name.now dir range holder.now) }
{
    let port = PPort {
        net: NetId(holder.next_net),
        dir,
    };
    let mut made = with_net(holder, name, range)?;
    made.ports = with_last(holder.ports.alloc(), holder.ports.as_slice(), port)?;
    Ok(made)
}

/// The table without a port, its net and its connections.
pub fn delete_port(plain: &Plain, id: ModId, port: NetId) -> Result<Plain, NoMemory>
    requires { AllPairs (λ (a b : PModule). a.id.0 < b.id.0) plain.now.modules }
    ensures { IfOk result (λ made. made ≡ delete_port plain.now id port) }
{
    let place = place_of_port(module_of(plain, id), port);
    let inside = with_module(plain, id, NoPort { port })?;
    at_instances(&inside, id, NoConn { place })
}

/// The table in which a net has a new name.
pub fn rename_net(plain: &Plain, id: ModId, net: NetId, name: &Name) -> Result<Plain, NoMemory>
    ensures { IfOk result (λ made. made ≡ rename_net plain.now id net name.now) }
{
    let change = At {
        number: net.0,
        change: Called { name: name.copy()? },
    };
    with_module(plain, id, Nets { change })
}
