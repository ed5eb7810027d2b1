ghost use Rattle.std.specs.Prelude.{◌≡◌, codes, filter, map, IfOk};
ghost use Rattle.edit_rules.specs.Good.{IsGoodState};
ghost use Rattle.watch_kit.specs.NetBits.{bits_of_conn, once};
ghost use Rattle.watch_kit.specs.FanoutLimit.{fanout_limit, is_over, same_bit};
ghost use Rattle.watch_kit.specs.inside.Keys.{bit_of};
ghost use Rattle.watch_kit.specs.inside.Splitting.{splits_of};

use crate::net_bits::BitOf;
use crate::reading::{conn_of, insts_of};
use crate::sink_counts::SinkCounts;
use crate::split::give_splits;
use desk::Desk;
use emh_base::{Change, Conn, Edit, Fanout, List, ModId, NoMemory, State};
use emh_session::{Halt, Observer};
use std::alloc::Global;

/// Splits each net bit that was connected and has more sinks than the limit that is set: a buffer
/// takes over the sinks past the first ones.
#[derive(Drop)]
pub struct FanoutLimit {
    alloc: Global,
}

impl FanoutLimit {
    pub fn new(alloc: Global) -> FanoutLimit {
        FanoutLimit { alloc }
    }
}

impl Observer for FanoutLimit {
    ghost called = { λ _. codes "FanoutLimit" };

    ghost wants = { λ _. fanout_limit };

    fn name(&self) -> &[u8] {
        b"FanoutLimit"
    }

    fn changed(&self, desk: &mut Desk, entry: u32) -> Result<(), Halt> {
        match overload_after(self.alloc, desk.state(), desk.change(entry))? {
            None => Ok(()),
            Some(over) => give_splits(
                self.alloc,
                desk,
                over.module,
                over.limit,
                over.bits.as_slice(),
            ),
        }
    }
}

/// Net bits of a module that have more sinks than the limit.
#[derive(Drop)]
struct Overload {
    module: ModId,
    limit: Fanout,
    bits: List<BitOf>,
}

/// What is to be split after a change.
fn overload_after(
    alloc: Global,
    state: &State,
    change: &Change,
) -> Result<Option<Overload>, NoMemory>
    requires { IsGoodState state.now }
    ensures { IfOk result (λ over. splits_of state.now over
        ≡ fanout_limit state.now change.now) }
{
    let Some(limit) = state.settings.fanout else {
        return Ok(None);
    };
    let Edit::Connect {
        module,
        inst,
        port,
        ..
    } = &change.edit
    else {
        return Ok(None);
    };
    let Some(conn) = conn_of(&state.plain, *module, *inst, *port) else {
        return Ok(None);
    };
    Ok(Some(Overload {
        module: *module,
        limit,
        bits: over_bits(alloc, state, *module, limit, conn)?,
    }))
}

/// The net bits of a connection that have more sinks than the limit, each once, in order. One pass
/// over the module counts the sinks of all.
fn over_bits(
    alloc: Global,
    state: &State,
    id: ModId,
    limit: Fanout,
    conn: &Conn,
) -> Result<List<BitOf>, NoMemory>
    requires { IsGoodState state.now }
    ensures { IfOk result (λ bits. map bit_of bits
        ≡ filter (is_over state.now id limit) (once same_bit (bits_of_conn conn.now))) }
{
    let mut counts = SinkCounts::new(alloc, limit.max);
    let bits = counts.begin(alloc, conn)?;
    counts.count_insts(&state.plain, insts_of(&state.plain, id))?;
    counts.over(alloc, bits.as_slice())
}
