ghost use Rattle.std.specs.Prelude.{◌≡◌, ◌+◌, ◌++◌, length, take, IfOk, OnOk, OnErr};
ghost use Rattle.flatten_rules.specs.Unfolding.{occurrences};
ghost use Rattle.flatten_rules.specs.Domains.{net_bits, block_instances, block_nets, pins};
ghost use Rattle.flatten_rules.specs.Design.{IsGood};
ghost use Rattle.reports.specs.Counts.{count_line, counts_text};

use emh_base::{List, ModId, NoMemory, Places, Plain, push_number};
use flatten_rules::{BitWalk, PinWalk, Walk};
use std::alloc::Global;

/// Puts the report of counts last: `modules N`, leaves too, then `occurrences`, `leaves`, `bits`, `nets`, `pins` and
/// `placed`, each with how many there are. After want of memory some of it may stand there.
pub fn push_counts(
    alloc: Global,
    plain: &Plain,
    top: ModId,
    places: &Places,
    out: &mut List<u8>,
) -> Result<(), NoMemory>
    requires { IsGood plain.now top }
    ensures ok { OnOk result (out.new ≡ out.old ++ counts_text plain.now top places.now) }
    ensures err { OnErr result (take (length out.old) out.new ≡ out.old) }
{
    let (occurrences, leaves) = count_occurrences(alloc, plain, top)?;
    let (bits, nets) = count_bits(alloc, plain, top)?;
    let pins = count_pins(alloc, plain, top)?;
    push_count(b"modules", plain.modules.len() as u64, out)?;
    push_count(b"occurrences", occurrences, out)?;
    push_count(b"leaves", leaves, out)?;
    push_count(b"bits", bits, out)?;
    push_count(b"nets", nets, out)?;
    push_count(b"pins", pins, out)?;
    push_count(b"placed", places.len() as u64, out)
}

/// How many occurrences there are, and how many of them are leaves.
fn count_occurrences(alloc: Global, plain: &Plain, top: ModId) -> Result<(u64, u64), NoMemory>
    requires { IsGood plain.now top }
    ensures all { IfOk result (λ n. n.0 ≡ length (occurrences plain.now top)) }
    ensures leaves { IfOk result (λ n. n.1 ≡ length (block_instances plain.now top)) }
{
    let mut all = 0;
    let mut leaves = 0;
    let mut walk = Walk::new(alloc, plain, top)?;
    while walk.advance()? {
        all = one_more(all)?;
        if walk.way().module().leaf {
            leaves = one_more(leaves)?;
        }
    }
    Ok((all, leaves))
}

/// How many net bits there are, and how many of them are their own roots.
fn count_bits(alloc: Global, plain: &Plain, top: ModId) -> Result<(u64, u64), NoMemory>
    requires { IsGood plain.now top }
    ensures all { IfOk result (λ n. n.0 ≡ length (net_bits plain.now top)) }
    ensures own { IfOk result (λ n. n.1 ≡ length (block_nets plain.now top)) }
{
    let mut all = 0;
    let mut own = 0;
    let mut bits = BitWalk::new(alloc, plain, top)?;
    while let Some((net, offset)) = bits.next()? {
        all = one_more(all)?;
        if bits.way().is_own(net.id, offset) {
            own = one_more(own)?;
        }
    }
    Ok((all, own))
}

fn count_pins(alloc: Global, plain: &Plain, top: ModId) -> Result<u64, NoMemory>
    requires { IsGood plain.now top }
    ensures { IfOk result (λ n. n ≡ length (pins plain.now top)) }
{
    let mut all = 0;
    let mut pins = PinWalk::new(alloc, plain, top)?;
    while pins.next()?.is_some() {
        all = one_more(all)?;
    }
    Ok(all)
}

/// The next number.
pub fn one_more(count: u64) -> Result<u64, NoMemory>
    ensures { IfOk result (λ n. n ≡ count + 1) }
{
    more_by(count, 1)
}

/// A number that is so much greater. A count past 64 bits is told as want of memory: no walk comes so far.
pub fn more_by(count: u64, more: u64) -> Result<u64, NoMemory>
    ensures { IfOk result (λ n. n ≡ count + more) }
{
    match count.checked_add(more) {
        Some(sum) => Ok(sum),
        None => Err(NoMemory),
    }
}

/// Puts a line `NAME N` last.
#[tactic(auto, using(crate::proofs::Kept::kept_more))]
pub fn push_count(name: &[u8], count: u64, out: &mut List<u8>) -> Result<(), NoMemory>
    ensures ok { OnOk result (out.new ≡ out.old ++ count_line name.now count) }
    ensures err { OnErr result (take (length out.old) out.new ≡ out.old) }
{
    out.extend(name)?;
    out.push(b' ')?;
    push_number(out, count)?;
    out.push(b'\n')
}
