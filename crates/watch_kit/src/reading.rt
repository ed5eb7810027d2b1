ghost use Rattle.std.specs.Prelude.{◌≡◌, ◌+◌, ◌≤◌, length, find, All};
ghost use Rattle.std.specs.Option.{option_copied};
ghost use Rattle.flatten_rules.specs.Lookup.{module_of, insts_of};
ghost use Rattle.flatten_rules.specs.Sound.{IsSound};
ghost use Rattle.edit_rules.specs.Readers.{conn_of, inst_in, is_name_in, nets_of, next_inst_of, next_net_of, port_place, same_dir};
ghost use Rattle.watch_kit.specs.Sinks.{taken};
ghost use Rattle.watch_kit.specs.Split.{port_to};
ghost use Rattle.watch_kit.specs.inside.Counting.{FitsMaster};

use edit_rules::Facts;
use emh_base::{Conn, Dir, InstId, ModId, NetId, PInst, PModule, PPort, Plain, Src, State};
use flatten_rules::{inst_in, module_of};

/// The instances of a module; none where it isn't there.
pub fn insts_of(plain: &Plain, id: ModId) -> &[PInst]
    requires { IsSound plain.now }
    ensures value { result.now ≡ insts_of (module_of plain.now id) }
    ensures fit { All (FitsMaster plain.now) result.now }
{
    match module_of(plain, id) {
        None => &[],
        Some(holder) => holder.insts.as_slice(),
    }
}

/// The connection of an instance at a port of its master.
pub fn conn_of(plain: &Plain, id: ModId, inst: InstId, port: NetId) -> Option<&Conn>
    requires { IsSound plain.now }
    ensures { option_copied result ≡ conn_of plain.now (inst_in plain.now id inst) port }
{
    match inst_in(plain, id, inst) {
        None => None,
        Some(there) => match place_of_port(module_of(plain, there.master), port) {
            None => None,
            Some(place) => there.conns.get(place),
        },
    }
}

/// The place of a port among a module's ports; none where there is no module.
fn place_of_port(holder: Option<&PModule>, port: NetId) -> Option<usize>
    ensures { result ≡ port_place (option_copied holder.entry) port }
{
    match holder {
        None => None,
        Some(holder) => {
            let mut ports = holder.ports.as_slice().iter();
            ports.position(|other| other.net.0 == port.0)
        }
    }
}

/// What an input takes; no other port has sinks.
pub fn taken(dir: Dir, conn: &Conn) -> &[Src]
    ensures { result.now ≡ taken dir conn.now }
{
    match dir {
        Dir::Input => match conn {
            Conn::Open => &[],
            Conn::Bits(bits) => bits.as_slice(),
        },
        Dir::Output => &[],
        Dir::Inout => &[],
    }
}

/// The first port of a direction, by its inner net.
pub fn port_to(dir: Dir, holder: Option<&PModule>) -> NetId
    ensures { result ≡ port_to dir (option_copied holder.entry) }
{
    match holder {
        None => NetId(0),
        Some(holder) => match first_port_to(dir, holder) {
            None => NetId(0),
            Some(port) => port.net,
        },
    }
}

fn first_port_to(dir: Dir, holder: &PModule) -> Option<&PPort>
    ensures { option_copied result ≡ find (λ port. same_dir port.dir dir) holder.now.ports }
{
    let mut ports = holder.ports.as_slice().iter();
    ports.find(|port| same_dir(port.dir, dir))
}

fn same_dir(a: Dir, b: Dir) -> bool
    ensures { result ≡ same_dir a b }
{
    a == b
}

/// The id that a module's next net gets.
pub fn next_net_of(holder: Option<&PModule>) -> u32
    ensures { result ≡ next_net_of (option_copied holder.entry) }
{
    match holder {
        None => 0,
        Some(holder) => holder.next_net,
    }
}

/// The id that a module's next instance gets.
pub fn next_inst_of(holder: Option<&PModule>) -> u32
    ensures { result ≡ next_inst_of (option_copied holder.entry) }
{
    match holder {
        None => 0,
        Some(holder) => holder.next_inst,
    }
}

/// Whether a net or an instance of a module has the name.
pub fn is_name_in(state: &State, id: ModId, name: &[u8]) -> bool
    requires { IsSound state.now.plain }
    ensures { result ≡ is_name_in (module_of state.now.plain id) name.now }
{
    state.is_module(id) && state.is_named_in(id, name)
}

/// How many nets and instances a module has.
pub fn name_count(plain: &Plain, id: ModId) -> u64
    requires { IsSound plain.now }
    ensures value { result ≡ length (nets_of (module_of plain.now id))
        + length (insts_of (module_of plain.now id)) }
    ensures few { result ≤ 8589934590 }
{
    match module_of(plain, id) {
        None => 0,
        Some(holder) => holder.nets.len() as u64 + holder.insts.len() as u64,
    }
}
