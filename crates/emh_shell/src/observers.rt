//! The lines of observers.
ghost use Rattle.std.specs.Prelude.{◌≡◌, IfOk, length, map};
ghost use Rattle.emh_session.specs.Answers.{AnswersMark};
ghost use Rattle.emh_shell.specs.Answers.{watched};
ghost use Rattle.emh_shell.specs.Observers.{mark_answer};
ghost use Rattle.emh_shell.specs.inside.Telling.{Tells};

use crate::answer::Told;
use crate::objects::word_line;
use crate::printing::ok_line;
use emh_base::{Name, NoMemory};
use emh_session::{NoSuchObserver, Observer, Session};
use script_read::Line;
use std::alloc::Global;

/// `observe NAME`, or `ignore NAME` where `on` is false.
pub fn mark(
    alloc: Global,
    line: &Line,
    name: &Name,
    on: bool,
    session: &mut Session,
    watch: &[Box<dyn Observer>],
) -> Result<Told, NoMemory>
    requires watched { length watch.now ≡ length session.old.enabled }
    ensures tells { let W = watched (λ b. called b) (λ b. wants b) watch.now in
        IfOk result (λ told. Tells (λ s answer.
        answer ≡ mark_answer W line.now name.now on s) session.old told session.new) }
    ensures marks { length session.new.enabled ≡ length session.old.enabled }
{
    match set_marks(name.as_bytes(), on, session, watch) {
        Ok(()) => Ok(Told::Accepted(ok_line(alloc, line.number)?)),
        Err(NoSuchObserver) => Ok(Told::Refused(word_line(alloc, line, 36, 1)?)),
    }
}

fn set_marks(
    name: &[u8],
    on: bool,
    session: &mut Session,
    watch: &[Box<dyn Observer>],
) -> Result<(), NoSuchObserver>
    requires { length watch.now ≡ length session.old.enabled }
    ensures answers { let names = map (λ b. called b) watch.now in
        AnswersMark name.now on names session.old result session.new }
    ensures as_many { length session.new.enabled ≡ length session.old.enabled }
{
    if on {
        session.observe(name, watch)
    } else {
        session.ignore(name, watch)
    }
}
