//! The bits of an expression, leftmost first.
ghost use Rattle.std.specs.Prelude.{◌≡◌, ◌++◌, ◌≤◌, ◌/◌, ◌%◌, ◌^◌, ◌==◌, if◌then◌else◌, slice_get, IfOk, OnOk};
ghost use Rattle.std.specs.List.{flat_map};
ghost use Rattle.std.specs.Option.{option_map};
ghost use Rattle.flatten_rules.specs.Sound.{IsCounter};
ghost use Rattle.vlog_elab.specs.Named.{named};
ghost use Rattle.vlog_elab.specs.Connections.{net_range};
ghost use Rattle.flatten_rules.specs.Lookup.{bits_from};
ghost use Rattle.vlog_elab.specs.Table.{net_id, offset_in, literal_bits, tie_of, part_bits, conn_bits};

use crate::names::Names;
use crate::scope::Net;
use crate::select::width;
use emh_base::{Conn, List, Name, NetId, NoMemory, Range, Src};
use std::alloc::Global;
use vlog_read::Part;

/// The connection of an expression, which is open where there is none.
pub fn conn_bits(alloc: Global, nets: &Names<'_, Net>, parts: &[Part]) -> Result<Conn, NoMemory>
    ensures { IfOk result (λ made. made ≡ conn_bits nets.now parts.now) }
{
    if parts.is_empty() {
        return Ok(Conn::Open);
    }
    let mut bits = List::new(alloc);
    push_parts(&mut bits, nets, parts)?;
    Ok(Conn::Bits(bits))
}

fn push_parts(bits: &mut List<Src>, nets: &Names<'_, Net>, parts: &[Part]) -> Result<(), NoMemory>
    ensures { OnOk result (bits.new ≡ bits.old ++ flat_map (part_bits nets.now) parts.now) }
{
    for part in parts {
        push_part(bits, nets, part)?;
    }
    Ok(())
}

fn push_part(bits: &mut List<Src>, nets: &Names<'_, Net>, part: &Part) -> Result<(), NoMemory>
    ensures { OnOk result (bits.new ≡ bits.old ++ part_bits nets.now part.now) }
{
    match part {
        Part::Name(token) => {
            let (net, range) = net_of(nets, &token.name)?;
            push_net(bits, net, 0, width(range))
        }
        Part::Bit(token, index) => {
            let (net, range) = net_of(nets, &token.name)?;
            push_net(bits, net, offset_in(range, *index), 1)
        }
        Part::Bits(token, select) => {
            let (net, range) = net_of(nets, &token.name)?;
            push_net(
                bits,
                net,
                offset_in(range, select.left),
                width(Some(*select)),
            )
        }
        Part::Lit { size, value } => push_literal(bits, *size, *value),
    }
}

/// The id and the range of the net of a name.
fn net_of(nets: &Names<'_, Net>, name: &Name) -> Result<(NetId, Option<Range>), NoMemory>
    ensures { IfOk result (λ net. net ≡ (net_id nets.now name.now, net_range (named nets.now name.now))) }
{
    match nets.find(name) {
        Some(place) => Ok((NetId(number(place)?), range_at(nets, place))),
        None => Ok((NetId(0), None)),
    }
}

/// The range of the net at a place.
fn range_at(nets: &Names<'_, Net>, place: usize) -> Option<Range>
    ensures { result ≡ net_range (option_map (λ e. e.1) (slice_get nets.now place)) }
{
    match nets.at(place) {
        Some(net) => net.range,
        None => None,
    }
}

/// The id of the net of a name: its place among the nets.
pub fn net_id(nets: &Names<'_, Net>, name: &Name) -> Result<NetId, NoMemory>
    ensures { IfOk result (λ id. id ≡ net_id nets.now name.now) }
{
    match nets.find(name) {
        Some(place) => Ok(NetId(number(place)?)),
        None => Ok(NetId(0)),
    }
}

/// A place as a number of 32 bits. There are more than 2 to the power of 32 of nothing that memory holds.
pub fn number(place: usize) -> Result<u32, NoMemory>
    ensures { IfOk result (λ number. number ≡ place) }
{
    match u32::try_from(place) {
        Ok(number) => Ok(number),
        Err(_) => Err(NoMemory),
    }
}

/// A number of nets or instances as the counter of their ids.
pub fn counter(count: usize) -> Result<u32, NoMemory>
    ensures is { IfOk result (λ counter. counter ≡ count) }
    ensures few { IfOk result (λ counter. IsCounter counter) }
{
    number(count)
}

/// The offset of an index from the left end of a range.
fn offset_in(range: Option<Range>, index: u32) -> u32
    ensures { result ≡ offset_in range index }
{
    match range {
        None => 0,
        Some(range) => range.left.abs_diff(index),
    }
}

/// Puts as many bits of a net last, from an offset on.
fn push_net(bits: &mut List<Src>, net: NetId, offset: u32, count: u64) -> Result<(), NoMemory>
    requires { count ≤ 2 ^ 32 }
    ensures { OnOk result (bits.new ≡ bits.old ++ bits_from net offset count) }
{
    for step in 0..count {
        let Ok(place) = u16::try_from(u64::from(offset) + step) else {
            return Err(NoMemory);
        };
        bits.push(Src::Bit(net, place))?;
    }
    Ok(())
}

/// Puts the lowest bits of a value last, the highest of them first.
fn push_literal(bits: &mut List<Src>, size: u8, value: u128) -> Result<(), NoMemory>
    ensures { OnOk result (bits.new ≡ bits.old ++ literal_bits size value) }
{
    for done in 0..size {
        bits.push(tie_of(value, size - 1 - done))?;
    }
    Ok(())
}

/// The tie that a bit of a value is.
fn tie_of(value: u128, place: u8) -> Src
    ensures { result ≡ tie_of value place }
{
    if place >= 128 {
        return Src::Tie0;
    }
    if (value >> place) % 2 == 1 {
        Src::Tie1
    } else {
        Src::Tie0
    }
}
