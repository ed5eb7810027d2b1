ghost use Rattle.std.specs.Prelude.{◌≡◌, false, Some, Ok};
ghost use Rattle.edit_rules.specs.Good.{IsGoodState};
ghost use Rattle.flatten_rules.specs.Domains.{root_of};
ghost use Rattle.script_read.specs.Resolve.{on};
ghost use Rattle.reports.specs.Net.{net_text};
ghost use Rattle.reports.specs.NetBit.{a_bit_at};
ghost use Rattle.reports.specs.Report.{is_log, report_of, PutsReport, GivesReport};

use crate::block::push_block;
use crate::counts::push_counts;
use crate::fault::ReportFault;
use crate::modules::push_modules;
use crate::net::push_net;
use crate::net_bit::{WORD, a_bit_at, way_to};
use crate::occurrences::push_occurrences;
use crate::pins::push_pins;
use crate::whereabouts::push_whereabouts;
use desk::Desk;
use emh_base::{Kind, List, Name, Object, Refusal, Rule, State};
use flatten_rules::Way;
use script_read::{a_module, a_path};
use std::alloc::Global;

/// The report of a design that is open, of every kind but the log, which isn't the design's. A report of a net or of
/// where a module is is refused where its word names nothing: by the path first, then the net, then the index.
pub fn domain_report(alloc: Global, desk: &Desk, kind: &Kind) -> Result<List<u8>, ReportFault>
    requires { is_log kind.now ≡ false }
    ensures { GivesReport (report_of desk.now.state kind.now) result }
{
    let mut out = List::new(alloc);
    push_report(alloc, desk, kind, &mut out)?;
    Ok(out)
}

/// Puts the same report last. Where it is refused the text is as before; after want of memory some of the report may
/// stand there.
pub fn push_report(
    alloc: Global,
    desk: &Desk,
    kind: &Kind,
    out: &mut List<u8>,
) -> Result<(), ReportFault>
    requires { is_log kind.now ≡ false }
    ensures { PutsReport (report_of desk.now.state kind.now) out.old result out.new }
{
    let state = desk.state();
    match kind {
        Kind::Pins => Ok(push_pins(alloc, &state.plain, state.top, out)?),
        Kind::Block => Ok(push_block(alloc, &state.plain, state.top, &state.places, out)?),
        Kind::Occurrences => Ok(push_occurrences(alloc, &state.plain, state.top, out)?),
        Kind::Modules => Ok(push_modules(alloc, &state.plain, out)?),
        Kind::Counts => Ok(push_counts(alloc, &state.plain, state.top, &state.places, out)?),
        Kind::Net { path, net, index } => {
            push_net_report(alloc, state, path.as_slice(), net, *index, out)
        }
        Kind::Where(name) => push_where_report(alloc, state, name, out),
        Kind::Log => unreachable!(),
    }
}

/// Puts the report of the net bit of these words last.
fn push_net_report(
    alloc: Global,
    state: &State,
    path: &[Name],
    net: &Name,
    index: Option<u32>,
    out: &mut List<u8>,
) -> Result<(), ReportFault>
    requires { IsGoodState state.now }
    ensures { PutsReport (report_of state.now (Kind.Net path.now net.now index))
        out.old result out.new }
{
    let path = a_path(alloc, state, WORD, path)?;
    match way_to(alloc, &state.plain, state.top, &path)? {
        None => Err(ReportFault::Rule(Refusal {
            rule: Rule::NoSuchOccurrence,
            object: Object::Word(WORD),
        })),
        Some(way) => push_net_at(alloc, state, &way, net, index, out),
    }
}

/// Puts the report of a net bit of the occurrence at the end of a way last.
fn push_net_at(
    alloc: Global,
    state: &State,
    way: &Way<'_>,
    net: &Name,
    index: Option<u32>,
    out: &mut List<u8>,
) -> Result<(), ReportFault>
    requires good { IsGoodState state.now }
    requires plain { way.now.plain ≡ state.now.plain }
    requires top { way.now.top ≡ state.now.top }
    ensures { PutsReport (Some (on (a_bit_at state.now 2 way.now.path net.now index) (λ bit.
        Ok (net_text state.now.plain state.now.top (root_of state.now.plain state.now.top bit)))))
        out.old result out.new }
{
    let (net, offset) = a_bit_at(state, way, net, index)?;
    Ok(push_net(alloc, way, way.root(net, offset), out)?)
}

/// Puts the report of where the module of this name is last.
fn push_where_report(
    alloc: Global,
    state: &State,
    name: &Name,
    out: &mut List<u8>,
) -> Result<(), ReportFault>
    requires { IsGoodState state.now }
    ensures { PutsReport (report_of state.now (Kind.Where name.now)) out.old result out.new }
{
    let id = a_module(state, WORD, name)?;
    Ok(push_whereabouts(alloc, &state.plain, state.top, id, out)?)
}
