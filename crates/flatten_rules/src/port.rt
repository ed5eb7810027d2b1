ghost use Rattle.std.specs.Prelude.{◌≡◌, ◌↔◌, ℕ, ◌<◌, ◌≤◌, length, IsSome, IfOk, IfSome};
ghost use Rattle.flatten_rules.specs.Sound.{IsSound};
ghost use Rattle.flatten_rules.specs.Checks.{HasNets, HasPorts, ArePortPlaces, AreAllPortPlaces, port_place};

use crate::numbered::place_of;
use emh_base::{NetId, NoMemory, PModule, Plain};
use std::alloc::Global;

/// For each net of a module, by its place, the place of the port on it. None where the net of a port isn't there, or
/// two ports are on one net.
pub fn port_places(alloc: Global, holder: &PModule) -> Result<Option<Vec<Option<usize>>>, NoMemory>
    requires { HasNets holder.now }
    ensures own { IfOk result (λ places. IsSome places ↔ HasPorts holder.now) }
    ensures places { IfOk result (λ places. IfSome places (λ places. ArePortPlaces holder.now places.items)) }
{
    let nets = holder.nets.as_slice();
    let ports = holder.ports.as_slice();
    let mut places = vec![in alloc; None; nets.len()]?;
    for at in 0..ports.len() {
        let Some(place) = place_of(nets, ports[at].net.0) else {
            return Ok(None);
        };
        if places[place].is_some() {
            return Ok(None);
        }
        places[place] = Some(at);
    }
    Ok(Some(places))
}

/// The place of the port on a net, by the places of a module's ports.
pub(crate) fn port_place(holder: &PModule, places: &[Option<usize>], net: NetId) -> Option<usize>
    requires nets { HasNets holder.now }
    requires ports { HasPorts holder.now }
    requires places { ArePortPlaces holder.now places.now }
    ensures { result ≡ port_place holder.now net }
{
    match place_of(holder.nets.as_slice(), net.0) {
        Some(place) => places[place],
        None => None,
    }
}

/// The places of the ports of each module of a table, in its order.
pub(crate) fn all_port_places(
    alloc: Global,
    plain: &Plain,
) -> Result<Vec<Vec<Option<usize>>>, NoMemory>
    requires { IsSound plain.now }
    ensures { IfOk result (λ all. AreAllPortPlaces plain.now all.items) }
{
    let mut all = Vec::new(alloc);
    for holder in plain.modules.as_slice() {
        match port_places(alloc, holder)? {
            Some(places) => all.push(places)?,
            None => unreachable!(),
        }
    }
    Ok(all)
}
