//! The sources that the words of `connect` say, leftmost first.

ghost use Rattle.std.specs.Prelude.{◌≡◌, [], ◌∷◌, ◌++◌, ◌<◌, ◌≤◌, Ok, length, IsTrue, IfOk, IfSome, OnOk};
ghost use Rattle.flatten_rules.specs.Lookup.{width};
ghost use Rattle.flatten_rules.specs.Sound.{IsAllowed, IsSound};
ghost use Rattle.edit_rules.specs.Readers.{is_module};
ghost use Rattle.script_read.specs.Resolve.{Answers, a_source, fits, goes_down, goes_up, net_bits, not_more, offset_of, on, run_of, sources};
ghost use Rattle.script_read.specs.inside.Runs.{IsFew, run_in, with_run};

use crate::command::BitWord;
use crate::look::{a_net, no_word};
use edit_rules::{Facts, Judged};
use emh_base::{List, ModId, NetId, NoMemory, Object, Range, Refusal, Rule, Src};
use std::alloc::Global;

/// The place of the first source in the line.
const FIRST_SOURCE: u32 = 4;

/// The most bits that a net has.
const WIDEST: usize = 4096;

/// The sources of a connection to a pin, by the words from the fourth one on. Each word is looked up before the bits so
/// far are counted.
pub fn sources<F: Facts>(
    alloc: Global,
    facts: &F,
    module: ModId,
    pin: (ModId, NetId),
    bits: &[BitWord],
) -> Result<List<Src>, Judged>
    requires sound { IsSound (F.state facts.now).plain }
    requires live { IsTrue (is_module (F.state facts.now).plain «module») }
    ensures { Answers (sources (F.state facts.now) «module» pin 4 bits.now) result }
{
    let mut found = List::new(alloc);
    let mut place = FIRST_SOURCE;
    for bit in bits {
        found = not_more(pin, with_source(facts, module, place, bit, found)?)?;
        place += 1;
    }
    Ok(found)
}

/// The bits so far, unless there are more than any port has.
fn not_more(pin: (ModId, NetId), bits: List<Src>) -> Result<List<Src>, Judged>
    ensures answer { Answers (not_more pin bits) result }
    ensures few { IfOk result (λ found. length found ≤ 4096) }
    ensures same { IfOk result (λ found. found ≡ bits) }
{
    if bits.len() > WIDEST {
        return Err(Judged::Rule(Refusal {
            rule: Rule::WidthMismatch,
            object: Object::Port(pin.0, pin.1),
        }));
    }
    Ok(bits)
}

/// The bits so far with those of the word at a place behind them.
fn with_source<F: Facts>(
    facts: &F,
    module: ModId,
    place: u32,
    bit: &BitWord,
    before: List<Src>,
) -> Result<List<Src>, Judged>
    requires sound { IsSound (F.state facts.now).plain }
    requires live { IsTrue (is_module (F.state facts.now).plain «module») }
    ensures answer { Answers (on (a_source (F.state facts.now) «module» place bit.now)
        (λ bits. Ok (before ++ bits))) result }
    ensures more { IfOk result (λ found. length before < length found) }
{
    match bit {
        BitWord::Zero => with_bit(before, Src::Tie0),
        BitWord::One => with_bit(before, Src::Tie1),
        BitWord::Net { net, select } => {
            let net = a_net(facts, module, place, net)?;
            with_net(facts, module, place, net, *select, before)
        }
    }
}

/// The bits so far with one more.
fn with_bit(before: List<Src>, bit: Src) -> Result<List<Src>, Judged>
    ensures answer { Answers (Ok (before ++ bit ∷ [])) result }
    ensures more { IfOk result (λ found. length before < length found) }
{
    let mut found = before;
    found.push(bit)?;
    Ok(found)
}

/// The bits so far with those of a net that are selected.
fn with_net<F: Facts>(
    facts: &F,
    module: ModId,
    place: u32,
    net: NetId,
    select: Option<Range>,
    before: List<Src>,
) -> Result<List<Src>, Judged>
    requires sound { IsSound (F.state facts.now).plain }
    requires live { IsTrue (is_module (F.state facts.now).plain «module») }
    ensures answer { Answers (with_run place net before (run_in (F.state facts.now) «module» net select)) result }
    ensures more { IfOk result (λ found. length before < length found) }
{
    match run_in(facts, module, net, select) {
        None => Err(no_word(Rule::BitOutOfRange, place)),
        Some(run) => {
            let mut found = before;
            push_bits(&mut found, net, run)?;
            Ok(found)
        }
    }
}

/// Which offsets of a net are selected: the first one, and how many there are.
fn run_in<F: Facts>(
    facts: &F,
    module: ModId,
    net: NetId,
    select: Option<Range>,
) -> Option<(u32, u32)>
    requires sound { IsSound (F.state facts.now).plain }
    requires live { IsTrue (is_module (F.state facts.now).plain «module») }
    ensures run { result ≡ run_in (F.state facts.now) «module» net select }
    ensures few { IfSome result IsFew }
{
    match facts.net_range(module, net) {
        None => None,
        Some(range) => run_of(range, select),
    }
}

/// The same, by the net's range.
fn run_of(range: Option<Range>, select: Option<Range>) -> Option<(u32, u32)>
    requires { IsAllowed range }
    ensures run { result ≡ run_of range select }
    ensures few { IfSome result IsFew }
{
    match (range, select) {
        (None, None) => Some((0, 1)),
        (None, Some(_)) => None,
        (Some(range), None) => Some((0, width(range))),
        (Some(range), Some(select)) => {
            if fits(range, select) {
                Some((range.left.abs_diff(select.left), width(select)))
            } else {
                None
            }
        }
    }
}

/// The number of indices of a range.
fn width(range: Range) -> u32
    requires { (range.left ≤ 65535) × (range.right ≤ 65535) }
    ensures { result ≡ width (Some range) }
{
    range.left.abs_diff(range.right) + 1
}

/// Whether a select is one index of a net's range, or some that go the way of it.
pub fn fits(range: Range, select: Range) -> bool
    ensures { result ≡ fits range select }
{
    goes_up(range, select) || goes_down(range, select)
}

fn goes_up(range: Range, select: Range) -> bool
    ensures { result ≡ goes_up range select }
{
    range.left <= select.left && (select.left <= select.right && select.right <= range.right)
}

fn goes_down(range: Range, select: Range) -> bool
    ensures { result ≡ goes_down range select }
{
    range.right <= select.right && (select.right <= select.left && select.left <= range.left)
}

/// Puts the bits of a net last, by a run of offsets.
fn push_bits(found: &mut List<Src>, net: NetId, run: (u32, u32)) -> Result<(), NoMemory>
    requires { IsFew run }
    ensures bits { OnOk result (found.new ≡ found.old ++ net_bits net run) }
    ensures more { OnOk result (length found.old < length found.new) }
{
    for offset in run.0..run.0 + run.1 {
        found.push(Src::Bit(net, offset as u16))?;
    }
    Ok(())
}
