//! Whether the ports of two modules are the same.
ghost use Rattle.std.specs.Prelude.{◌≡◌, ℕ, List, Some, ◌≤◌, length, slice_get};
ghost use Rattle.vlog_elab.specs.declared.interface.Port.{Port};
ghost use Rattle.vlog_elab.specs.Interfaces.{same_dir, same_range, same_port, same_ports};

use crate::interface::Port;
use crate::names::Names;
use emh_base::{Dir, Range};

/// Whether these are the same ports: number, names, directions and ranges, in order.
pub fn same_ports(these: &Names<'_, Port>, those: &Names<'_, Port>) -> bool
    ensures { result ≡ same_ports these.now those.now }
{
    if these.len() != those.len() {
        return false;
    }
    for place in 0..these.len() {
        if !same_port(these, those, place) {
            return false;
        }
    }
    true
}

/// Whether the ports at a place are the same.
fn same_port(these: &Names<'_, Port>, those: &Names<'_, Port>, place: usize) -> bool
    ensures { (p q : List ℕ × Port) → slice_get these.now place ≡ Some p
        → slice_get those.now place ≡ Some q → result ≡ same_port p q }
{
    let (Some(name), Some(other_name)) = (these.name(place), those.name(place)) else {
        return false;
    };
    let (Some(port), Some(other)) = (these.at(place), those.at(place)) else {
        return false;
    };
    if name.as_bytes() != other_name.as_bytes() {
        return false;
    }
    if !same_dir(port.dir, other.dir) {
        return false;
    }
    same_range(port.range, other.range)
}

fn same_dir(a: Dir, b: Dir) -> bool
    ensures { result ≡ same_dir a b }
{
    match (a, b) {
        (Dir::Input, Dir::Input) => true,
        (Dir::Output, Dir::Output) => true,
        (Dir::Inout, Dir::Inout) => true,
        _ => false,
    }
}

/// Whether two ranges are the same, or both are none.
pub fn same_range(a: Option<Range>, b: Option<Range>) -> bool
    ensures { result ≡ same_range a b }
{
    match (a, b) {
        (None, None) => true,
        (Some(a), Some(b)) => a.left == b.left && a.right == b.right,
        _ => false,
    }
}
