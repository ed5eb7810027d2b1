ghost use Rattle.std.specs.Prelude.{◌≡◌, ◌<◌, length, slice_get, IsTrue};
ghost use Rattle.flatten_rules.specs.Lookup.{module_of, width_of};
ghost use Rattle.flatten_rules.specs.Domains.{ports_of};
ghost use Rattle.flatten_rules.specs.Sound.{IsSound};
ghost use Rattle.edit_rules.specs.Readers.{is_module, net_in, same_ports, same_net, is_buffer};
ghost use Rattle.edit_rules.specs.inside.Ports.{are_alike_at, pair_of, is_through};

use crate::facts::Facts;
use crate::readers::{goes_through, same_dir, same_range};
use emh_base::{ModId, NetId, PPort};
use flatten_rules::width;

/// The width of a net of a module; 0 where the net isn't there.
pub fn width_of<F: Facts>(facts: &F, id: ModId, net: NetId) -> u16
    requires sound { IsSound (F.state facts.now).plain }
    requires live { IsTrue (is_module (F.state facts.now).plain id) }
    ensures { result ≡ width_of (net_in (F.state facts.now).plain id net) }
{
    match facts.net_range(id, net) {
        None => 0,
        Some(range) => width(range),
    }
}

/// The port at a place.
fn port_at<F: Facts>(facts: &F, id: ModId, place: u32) -> Option<PPort>
    requires sound { IsSound (F.state facts.now).plain }
    requires live { IsTrue (is_module (F.state facts.now).plain id) }
    ensures { result ≡ slice_get (ports_of (module_of (F.state facts.now).plain id)) place }
{
    match facts.port_at(id, place) {
        None => None,
        Some(net) => {
            let dir = facts.port_dir(id, net).unwrap();
            Some(PPort { net, dir })
        }
    }
}

/// How many ports a module has.
fn port_count<F: Facts>(facts: &F, id: ModId) -> u32
    requires sound { IsSound (F.state facts.now).plain }
    requires live { IsTrue (is_module (F.state facts.now).plain id) }
    ensures { result ≡ length (ports_of (module_of (F.state facts.now).plain id)) }
{
    let most = facts.counters(id).next_net;
    for place in 0..most {
        if facts.port_at(id, place).is_none() {
            return place;
        }
    }
    most
}

/// Whether the ports of two modules are as many, and alike one by one.
pub fn same_ports<F: Facts>(facts: &F, a: ModId, b: ModId) -> bool
    requires sound { IsSound (F.state facts.now).plain }
    requires first { IsTrue (is_module (F.state facts.now).plain a) }
    requires second { IsTrue (is_module (F.state facts.now).plain b) }
    ensures { result ≡ same_ports (module_of (F.state facts.now).plain a) (module_of (F.state facts.now).plain b) }
{
    let count = port_count(facts, a);
    if count != port_count(facts, b) {
        return false;
    }
    for place in 0..count {
        if !same_port(facts, a, b, place) {
            return false;
        }
    }
    true
}

/// Whether the ports of two modules at a place are there and alike.
fn same_port<F: Facts>(facts: &F, a: ModId, b: ModId, place: u32) -> bool
    requires sound { IsSound (F.state facts.now).plain }
    requires first { IsTrue (is_module (F.state facts.now).plain a) }
    requires second { IsTrue (is_module (F.state facts.now).plain b) }
    ensures { result ≡ are_alike_at (module_of (F.state facts.now).plain a)
        (module_of (F.state facts.now).plain b) place }
{
    match port_at(facts, a, place) {
        None => false,
        Some(port) => match port_at(facts, b, place) {
            None => false,
            Some(other) => {
                if same_dir(port.dir, other.dir) {
                    same_net(facts, a, port.net, b, other.net)
                } else {
                    false
                }
            }
        },
    }
}

/// Whether two nets, each of a module, have one name and one range.
fn same_net<F: Facts>(facts: &F, a: ModId, net: NetId, b: ModId, other: NetId) -> bool
    requires sound { IsSound (F.state facts.now).plain }
    requires first { IsTrue (is_module (F.state facts.now).plain a) }
    requires second { IsTrue (is_module (F.state facts.now).plain b) }
    ensures { result ≡ same_net (net_in (F.state facts.now).plain a net) (net_in (F.state facts.now).plain b other) }
{
    match facts.net_range(a, net) {
        None => facts.net_range(b, other).is_none(),
        Some(range) => match facts.net_range(b, other) {
            None => false,
            Some(second) => {
                if facts.net_name(a, net).as_bytes() == facts.net_name(b, other).as_bytes() {
                    same_range(range, second)
                } else {
                    false
                }
            }
        },
    }
}

/// The two ports of a module that has two.
fn pair_of<F: Facts>(facts: &F, id: ModId) -> Option<(PPort, PPort)>
    requires sound { IsSound (F.state facts.now).plain }
    requires live { IsTrue (is_module (F.state facts.now).plain id) }
    ensures { result ≡ pair_of (ports_of (module_of (F.state facts.now).plain id)) }
{
    match port_at(facts, id, 0) {
        None => None,
        Some(first) => match port_at(facts, id, 1) {
            None => None,
            Some(second) => match port_at(facts, id, 2) {
                None => Some((first, second)),
                Some(_) => None,
            },
        },
    }
}

/// Whether a module is a leaf of exactly two ports of one bit each, an input and an output.
pub fn is_buffer<F: Facts>(facts: &F, id: ModId) -> bool
    requires sound { IsSound (F.state facts.now).plain }
    requires live { IsTrue (is_module (F.state facts.now).plain id) }
    ensures { result ≡ is_buffer (module_of (F.state facts.now).plain id) }
{
    if !facts.is_leaf(id) {
        return false;
    }
    match pair_of(facts, id) {
        None => false,
        Some((first, second)) => is_through(facts, id, first, second),
    }
}

/// Whether two ports are an input and an output of one bit each.
fn is_through<F: Facts>(facts: &F, id: ModId, first: PPort, second: PPort) -> bool
    requires sound { IsSound (F.state facts.now).plain }
    requires live { IsTrue (is_module (F.state facts.now).plain id) }
    ensures { result ≡ is_through (F.state facts.now).plain id first second }
{
    if !goes_through(first.dir, second.dir) {
        return false;
    }
    if width_of(facts, id, first.net) != 1 {
        return false;
    }
    width_of(facts, id, second.net) == 1
}
