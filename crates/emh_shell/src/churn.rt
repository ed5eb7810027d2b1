//! The line of drawn edits.
ghost use Rattle.std.specs.Prelude.{◌≡◌, ◌<◌, ◌≤◌, ◌+◌, ◌++◌, IfOk, OnOk, length};
ghost use Rattle.emh_shell.specs.Answers.{watched};
ghost use Rattle.emh_shell.specs.Churn.{churn_answer, churned, after_one, churn_line};
ghost use Rattle.emh_shell.specs.inside.Churning.{tallied};
ghost use Rattle.emh_shell.specs.inside.Telling.{Tells};

use crate::answer::Told;
use crate::objects::word_line;
use crate::printing::ok_line;
use emh_base::{Edit, List, NoMemory, push_number};
use emh_session::{CommandFault, Observer, Session};
use script_read::Line;
use std::alloc::Global;

/// At most so many turns are asked for by a line.
const MOST_TURNS: u32 = 10_000;

/// What the turns so far have come to, but for the session.
#[derive(Clone, Copy, Debug)]
struct Tally {
    /// The random number after them.
    random: u64,
    /// How many edits were accepted.
    accepted: u32,
    /// How many edits were refused, by a rule or by the budget.
    refused: u32,
}

/// `churn X C`: C commands whose edits are drawn.
pub fn churn(
    alloc: Global,
    line: &Line,
    seed: u32,
    turns: u32,
    session: &mut Session,
    watch: &[Box<dyn Observer>],
) -> Result<Told, NoMemory>
    requires watched { length watch.now ≡ length session.old.enabled }
    ensures tells { let W = watched (λ b. called b) (λ b. wants b) watch.now in
        IfOk result (λ told. Tells (λ s answer.
        answer ≡ churn_answer W line.now seed turns s) session.old told session.new) }
    ensures marks { length session.new.enabled ≡ length session.old.enabled }
{
    if turns > MOST_TURNS {
        return Ok(Told::Refused(word_line(alloc, line, 26, 2)?));
    }
    let tally = make_turns(alloc, seed, turns, session, watch)?;
    let mut text = ok_line(alloc, line.number)?;
    push_churn(turns, tally.accepted, tally.refused, &mut text)?;
    Ok(Told::Accepted(text))
}

/// Puts `turns C accepted A refused R` last.
fn push_churn(turns: u32, accepted: u32, refused: u32, out: &mut List<u8>) -> Result<(), NoMemory>
    ensures { OnOk result (out.new ≡ out.old ++ churn_line turns accepted refused) }
{
    out.extend(b"turns ")?;
    push_number(out, u64::from(turns))?;
    out.extend(b" accepted ")?;
    push_number(out, u64::from(accepted))?;
    out.extend(b" refused ")?;
    push_number(out, u64::from(refused))?;
    out.push(b'\n')
}

/// Makes so many turns.
fn make_turns(
    alloc: Global,
    seed: u32,
    turns: u32,
    session: &mut Session,
    watch: &[Box<dyn Observer>],
) -> Result<Tally, NoMemory>
    requires few { turns ≤ 10000 }
    requires watched { length watch.now ≡ length session.old.enabled }
    ensures churned { let W = watched (λ b. called b) (λ b. wants b) watch.now in
        IfOk result (λ tally.
        tallied session.new tally ≡ churned W session.old seed turns) }
    ensures marks { session.new.enabled ≡ session.old.enabled }
{
    let mut tally = Tally {
        random: u64::from(seed),
        accepted: 0,
        refused: 0,
    };
    for turn in 0..turns {
        make_turn(alloc, turn, &mut tally, session, watch)?;
    }
    Ok(tally)
}

/// Makes one turn: its edit, where it has one, is a command of the session.
fn make_turn(
    alloc: Global,
    turn: u32,
    tally: &mut Tally,
    session: &mut Session,
    watch: &[Box<dyn Observer>],
) -> Result<(), NoMemory>
    requires few { turn < 10000 }
    requires made { tally.old.accepted + tally.old.refused ≤ turn }
    requires watched { length watch.now ≡ length session.old.enabled }
    ensures ok { let W = watched (λ b. called b) (λ b. wants b) watch.now in
        OnOk result (tallied session.new tally.new
        ≡ after_one W (tallied session.old tally.old) turn) }
    ensures made { tally.new.accepted + tally.new.refused ≤ turn + 1 }
    ensures marks { session.new.enabled ≡ session.old.enabled }
{
    let plain = &session.desk().state().plain;
    let turned = gen_design::turn(alloc, plain, tally.random, turn)?;
    tally.random = turned.random;
    let Some(edit) = turned.edit else {
        return Ok(());
    };
    match session.command(edit, watch) {
        Ok(_) => tally.accepted += 1,
        Err(CommandFault::Rule(_)) => tally.refused += 1,
        Err(CommandFault::BudgetSpent { .. }) => tally.refused += 1,
        Err(CommandFault::NoMemory) => return Err(NoMemory),
    }
    Ok(())
}
