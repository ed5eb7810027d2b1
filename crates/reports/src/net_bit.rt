//! Look-ups of the words that tell a net bit.

ghost use Rattle.std.specs.Prelude.{◌≡◌, None, Some, MatchOption, IsTrue, IfOk};
ghost use Rattle.flatten_rules.specs.Sound.{IsAllowed};
ghost use Rattle.flatten_rules.specs.Design.{IsGood};
ghost use Rattle.edit_rules.specs.Readers.{is_module};
ghost use Rattle.edit_rules.specs.Good.{IsGoodState};
ghost use Rattle.edit_rules.specs.Spots.{module_at};
ghost use Rattle.script_read.specs.Resolve.{Answers};
ghost use Rattle.reports.specs.NetBit.{a_bit_at, an_offset, inner_id, offset_in};
ghost use Rattle.reports.specs.inside.Found.{FindsBit};

use edit_rules::{Facts, Judged};
use emh_base::{ModId, Name, NetId, NoMemory, PModule, Path, Plain, Range, Rule, State};
use flatten_rules::{Way, find};
use script_read::{a_net, at_word, fits};
use std::alloc::Global;

/// The place in its line of the word that a report is asked for by.
pub const WORD: u32 = 2;

/// The way to the occurrence at a path, none where no occurrence is there.
pub fn way_to<'a>(
    alloc: Global,
    plain: &'a Plain,
    top: ModId,
    path: &Path,
) -> Result<Option<Way<'a>>, NoMemory>
    requires { IsGood plain.now top }
    ensures { IfOk result (λ way. MatchOption way (module_at plain.now top path.now ≡ None)
        (λ way. way ≡ record { plain = plain.now; top = top; path = path.now })) }
{
    let mut way = Way::new(alloc, plain, top)?;
    for step in path.steps() {
        match find(way.module().insts.as_slice(), step.0) {
            None => return Ok(None),
            Some(inst) => way.push(inst)?,
        }
    }
    Ok(Some(way))
}

/// A net bit of the occurrence at the end of a way: its net, and its offset from the left.
pub fn a_bit_at(
    state: &State,
    way: &Way<'_>,
    name: &Name,
    index: Option<u32>,
) -> Result<(NetId, u16), Judged>
    requires good { IsGoodState state.now }
    requires plain { way.now.plain ≡ state.now.plain }
    requires top { way.now.top ≡ state.now.top }
    ensures { FindsBit way.now.path (a_bit_at state.now 2 way.now.path name.now index) result }
{
    let holder = at_word(Rule::NoSuchOccurrence, WORD, inner_id(way.module()))?;
    let net = a_net(state, holder, WORD, name)?;
    let offset = an_offset(state, holder, net, index)?;
    Ok((net, offset))
}

/// The id of a module that is no leaf.
fn inner_id(holder: &PModule) -> Option<ModId>
    ensures { result ≡ inner_id (Some holder.now) }
{
    if holder.leaf { None } else { Some(holder.id) }
}

/// The offset of the bit of a net that an index tells.
fn an_offset(state: &State, holder: ModId, net: NetId, index: Option<u32>) -> Result<u16, Judged>
    requires good { IsGoodState state.now }
    requires live { IsTrue (is_module state.now.plain holder) }
    ensures { Answers (an_offset state.now holder net 2 index) result }
{
    let offset = match state.net_range(holder, net) {
        None => None,
        Some(range) => offset_in(range, index),
    };
    at_word(Rule::BitOutOfRange, WORD, offset)
}

/// The same, by the net's range.
fn offset_in(range: Option<Range>, index: Option<u32>) -> Option<u16>
    requires { IsAllowed range }
    ensures { result ≡ offset_in range index }
{
    match (range, index) {
        (None, None) => Some(0),
        (None, Some(_)) | (Some(_), None) => None,
        (Some(range), Some(index)) => offset_of(range, index),
    }
}

/// The offset of an index of a range, none where it isn't one of its indices.
fn offset_of(range: Range, index: u32) -> Option<u16>
    requires { IsAllowed (Some range) }
    ensures { result ≡ offset_in (Some range) (Some index) }
{
    let select = Range {
        left: index,
        right: index,
    };
    if fits(range, select) {
        Some(range.left.abs_diff(index) as u16)
    } else {
        None
    }
}
