//! The connections of an instance, in the order of its master's ports.
ghost use Rattle.std.specs.Prelude.{◌≡◌, ◌++◌, ℕ, List, Some, slice_get, IfOk, OnOk};
ghost use Rattle.std.specs.Option.{option_copied};
ghost use Rattle.vlog_elab.specs.declared.interface.Port.{Port};
ghost use Rattle.vlog_elab.specs.Table.{conn_of, conn_to, conns_of};
ghost use Rattle.vlog_elab.specs.inside.Pins.{pin_at, pins_from};

use crate::bits::conn_bits;
use crate::interface::Port;
use crate::names::Names;
use crate::scope::Net;
use emh_base::{Conn, List, Name, NoMemory};
use std::alloc::Global;
use vlog_read::TConn;

/// The connections of an instance to these ports.
pub fn conns_of(
    alloc: Global,
    nets: &Names<'_, Net>,
    ports: &Names<'_, Port>,
    conns: &[TConn],
) -> Result<List<Conn>, NoMemory>
    ensures { IfOk result (λ made. made ≡ conns_of nets.now ports.now conns.now) }
{
    let pins = pins_of(alloc, conns)?;
    let mut made = List::new(alloc);
    for place in 0..ports.len() {
        made.push(conn_at(alloc, nets, ports, conns, &pins, place)?)?;
    }
    Ok(made)
}

/// The connection of the port at a place.
fn conn_at(
    alloc: Global,
    nets: &Names<'_, Net>,
    ports: &Names<'_, Port>,
    conns: &[TConn],
    pins: &Names<'_, usize>,
    place: usize,
) -> Result<Conn, NoMemory>
    requires { pins.now ≡ pins_from 0 conns.now }
    ensures { IfOk result (λ made. (port : List ℕ × Port) → slice_get ports.now place ≡ Some port
        → made ≡ conn_of nets.now (conn_to conns.now place port.0)) }
{
    match ports.name(place) {
        Some(port) => conn_of(alloc, nets, conn_to(conns, pins, place, port)),
        None => Ok(Conn::Open),
    }
}

/// The places of the connections by name, by the names of their ports.
fn pins_of(alloc: Global, conns: &[TConn]) -> Result<Names<'_, usize>, NoMemory>
    ensures { IfOk result (λ made. made ≡ pins_from 0 conns.now) }
{
    let mut pins = Names::new(alloc);
    for place in 0..conns.len() {
        add_pin(&mut pins, &conns[place], place)?;
    }
    Ok(pins)
}

fn add_pin<'a>(pins: &mut Names<'a, usize>, conn: &'a TConn, place: usize) -> Result<(), NoMemory>
    ensures { OnOk result (pins.new ≡ pins.old ++ pin_at place conn.now.port) }
{
    match &conn.port {
        Some(port) => pins.push(&port.name, place),
        None => Ok(()),
    }
}

/// The connection to a port, by its place or by its name.
fn conn_to<'a>(
    conns: &'a [TConn],
    pins: &Names<'_, usize>,
    place: usize,
    port: &Name,
) -> Option<&'a TConn>
    requires { pins.now ≡ pins_from 0 conns.now }
    ensures { option_copied result ≡ conn_to conns.now place port.now }
{
    let first = conns.first()?;
    if first.port.is_none() {
        return conn(conns, place);
    }
    match pins.get(port) {
        Some(place) => conn(conns, *place),
        None => None,
    }
}

/// The connection at a place.
fn conn(conns: &[TConn], place: usize) -> Option<&TConn>
    ensures { option_copied result ≡ slice_get conns.now place }
{
    conns.get(place)
}

/// A port that has no connection is open.
fn conn_of(alloc: Global, nets: &Names<'_, Net>, conn: Option<&TConn>) -> Result<Conn, NoMemory>
    ensures { IfOk result (λ made. made ≡ conn_of nets.now (option_copied conn.entry)) }
{
    match conn {
        Some(conn) => conn_bits(alloc, nets, conn.parts.as_slice()),
        None => Ok(Conn::Open),
    }
}
