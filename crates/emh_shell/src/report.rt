//! The lines of reports.
ghost use Rattle.std.specs.Prelude.{◌≡◌, ◌≤◌, ◌++◌, IfOk, OnOk, length, map};
ghost use Rattle.emh_shell.specs.Answers.{watched};
ghost use Rattle.emh_shell.specs.Reports.{ReportAnswers, session_report, log_text, observer_lines, observer_line, mark_word};
ghost use Rattle.emh_shell.specs.inside.Telling.{Tells};

use crate::answer::Told;
use crate::objects::rule_line;
use crate::printing::ok_line;
use emh_base::{Kind, List, NoMemory, push_spelled_bytes};
use emh_session::{Observer, Session};
use reports::{ReportFault, push_count, push_report};
use script_read::Line;
use std::alloc::Global;

/// `report`: the report behind the line.
pub fn report(
    alloc: Global,
    line: &Line,
    kind: &Kind,
    session: &mut Session,
    watch: &[Box<dyn Observer>],
) -> Result<Told, NoMemory>
    requires watched { length watch.now ≡ length session.old.enabled }
    requires few { length watch.now ≤ 64 }
    ensures tells { let W = watched (λ b. called b) (λ b. wants b) watch.now in
        IfOk result (λ told. Tells (λ s answer.
        ReportAnswers line.now s (session_report W s kind.now) answer) session.old told session.new) }
    ensures marks { session.new.enabled ≡ session.old.enabled }
{
    let mut text = ok_line(alloc, line.number)?;
    if let Kind::Log = kind {
        push_log(session, watch, &mut text)?;
        return Ok(Told::Accepted(text));
    }
    let desk = session.desk();
    match push_report(alloc, desk, kind, &mut text) {
        Ok(()) => Ok(Told::Accepted(text)),
        Err(ReportFault::Rule(refusal)) => {
            let text = rule_line(alloc, &desk.state().plain, line, refusal)?;
            Ok(Told::Refused(text))
        }
        Err(ReportFault::NoMemory) => Err(NoMemory),
    }
}

/// Puts the report of the log last.
fn push_log(
    session: &Session,
    watch: &[Box<dyn Observer>],
    out: &mut List<u8>,
) -> Result<(), NoMemory>
    requires watched { length watch.now ≡ length session.now.enabled }
    requires few { length watch.now ≤ 64 }
    ensures { OnOk result (out.new
        ≡ out.old ++ log_text (map (λ b. called b) watch.now) session.now) }
{
    let desk = session.desk();
    push_count(b"past", desk.past_len() as u64, out)?;
    push_count(b"future", desk.future_len() as u64, out)?;
    push_observers(session, watch, out)
}

/// Puts a line for each observer last, whether it is enabled.
fn push_observers(
    session: &Session,
    watch: &[Box<dyn Observer>],
    out: &mut List<u8>,
) -> Result<(), NoMemory>
    requires watched { length watch.now ≡ length session.now.enabled }
    requires few { length watch.now ≤ 64 }
    ensures { OnOk result (out.new
        ≡ out.old ++ observer_lines (map (λ b. called b) watch.now) session.now.enabled) }
{
    for (i, member) in watch.iter().enumerate() {
        push_observer(member, session.is_enabled(i as u32), out)?;
    }
    Ok(())
}

fn push_observer(
    member: &Box<dyn Observer>,
    enabled: bool,
    out: &mut List<u8>,
) -> Result<(), NoMemory>
    ensures { OnOk result (out.new ≡ out.old ++ observer_line (called member.now, enabled)) }
{
    push_mark(member.name(), enabled, out)
}

/// Puts the line of an observer of a name last.
fn push_mark(name: &[u8], enabled: bool, out: &mut List<u8>) -> Result<(), NoMemory>
    ensures { OnOk result (out.new ≡ out.old ++ observer_line (name.now, enabled)) }
{
    out.extend(b"observer ")?;
    push_spelled_bytes(out, name)?;
    out.push(b' ')?;
    out.extend(mark_word(enabled))?;
    out.push(b'\n')
}

fn mark_word(enabled: bool) -> &'static [u8]
    ensures { result.now ≡ mark_word enabled }
{
    if enabled { b"on" } else { b"off" }
}
