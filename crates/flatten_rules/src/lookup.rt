ghost use Rattle.std.specs.Prelude.{◌≡◌, ◌==◌, ◌<◌, ◌≤◌, None, Some, AllPairs, find, slice_get, IfNone, IfSome, IsSomeAnd};
ghost use Rattle.std.specs.Option.{option_copied};
ghost use Rattle.emh_base.specs.declared.plain.PNet.{PNet};
ghost use Rattle.emh_base.specs.declared.plain.PModule.{PModule};
ghost use Rattle.flatten_rules.specs.Lookup.{module_of, place_of, net_of, port_of, width, width_of};
ghost use Rattle.flatten_rules.specs.Changes.{net_in, inst_in};
ghost use Rattle.flatten_rules.specs.Checks.{HasNets};
ghost use Rattle.flatten_rules.specs.Sound.{IsAllowed, IsSound};

use crate::numbered::{Numbered, place_of};
use emh_base::{InstId, ModId, NetId, PInst, PModule, PNet, PPort, Plain, Range};

/// The item with a number, in a list in rising order of numbers.
pub fn find<T: Numbered>(items: &[T], number: u32) -> Option<&T>
    requires { AllPairs (λ a b. T.number_of a < T.number_of b) items.now }
    ensures { option_copied result ≡ find (λ item. T.number_of item == number) items.now }
{
    match place_of(items, number) {
        Some(place) => items.get(place),
        None => None,
    }
}

/// The module of that id.
pub fn module_of(plain: &Plain, id: ModId) -> Option<&PModule>
    requires { AllPairs (λ (a b : PModule). a.id.0 < b.id.0) plain.now.modules }
    ensures { option_copied result ≡ module_of plain.now id }
{
    find(plain.modules.as_slice(), id.0)
}

/// The net of that id in a module.
pub fn net_of(holder: &PModule, id: NetId) -> Option<&PNet>
    requires { AllPairs (λ (a b : PNet). a.id.0 < b.id.0) holder.now.nets }
    ensures { option_copied result ≡ net_of holder.now id }
{
    find(holder.nets.as_slice(), id.0)
}

/// The net of that id in the module of that id.
pub fn net_in(plain: &Plain, id: ModId, net: NetId) -> Option<&PNet>
    requires { IsSound plain.now }
    ensures { option_copied result ≡ net_in plain.now id net }
{
    match module_of(plain, id) {
        None => None,
        Some(holder) => net_of(holder, net),
    }
}

/// The instance of that id in the module of that id.
pub fn inst_in(plain: &Plain, id: ModId, inst: InstId) -> Option<&PInst>
    requires { IsSound plain.now }
    ensures { option_copied result ≡ inst_in plain.now id inst }
{
    match module_of(plain, id) {
        None => None,
        Some(holder) => find(holder.insts.as_slice(), inst.0),
    }
}

/// The port of a module whose inner net has that id. The ports are looked through in order.
pub fn port_of(holder: &PModule, net: NetId) -> Option<&PPort>
    ensures { option_copied result ≡ port_of holder.now net }
{
    holder
        .ports
        .as_slice()
        .iter()
        .find(|port| port.net.0 == net.0)
}

/// The place in the table of the module of that id.
pub fn place_of_module(plain: &Plain, id: ModId) -> Option<usize>
    requires { AllPairs (λ (a b : PModule). a.id.0 < b.id.0) plain.now.modules }
    ensures place { result ≡ place_of plain.now id }
    ensures found { IfSome result (λ place. IsSomeAnd (slice_get plain.now.modules place)
        (λ m. module_of plain.now id ≡ Some m)) }
    ensures none { IfNone result (module_of plain.now id ≡ None) }
{
    place_of(plain.modules.as_slice(), id.0)
}

/// The number of bits of a net with an allowed range: 1 to 4,096.
pub fn width(range: Option<Range>) -> u16
    requires { IsAllowed range }
    ensures value { result ≡ width range }
    ensures fits { result ≤ 4096 }
{
    match range {
        None => 1,
        Some(range) => (range.left.abs_diff(range.right) + 1) as u16,
    }
}

/// The number of bits of the net of that id in a module: 1 to 4,096, or 0 where it isn't there.
pub fn width_of(holder: &PModule, id: NetId) -> u16
    requires { HasNets holder.now }
    ensures { result ≡ width_of (net_of holder.now id) }
{
    match net_of(holder, id) {
        Some(net) => width(net.range),
        None => 0,
    }
}
