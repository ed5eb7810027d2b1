//! Reports as constants, and what is answered.
ghost use Rattle.std.specs.Prelude.{◌≡◌, false, IfOk};
ghost use Rattle.reports.specs.Report.{is_log};

use desk::Desk;
use edit_rules::OpenFault;
use emh_base::{Kind, List, Name, NoMemory};
use flatten_rules::is_sound;
use reports::{ReportFault, domain_report, push_report};
use samples::designs::{Design, state_of};
use samples::modules::name_of;
use std::alloc::Global;
use std::process::Abort;

/// A report, its words as texts.
#[derive(Clone, Copy)]
pub enum Ask {
    Pins,
    Block,
    Occurrences,
    Modules,
    Counts,
    /// The names on the way, the net and the index.
    Net(&'static [&'static str], &'static str, Option<u32>),
    Where(&'static str),
}

/// What is answered.
#[derive(Clone, Copy)]
pub enum Told {
    Text(&'static str),
    Fault(ReportFault),
}

fn names_of(alloc: Global, texts: &[&str]) -> Result<List<Name>, NoMemory> {
    let mut names = List::new(alloc);
    for text in texts {
        names.push(name_of(alloc, text)?)?;
    }
    Ok(names)
}

fn kind_of(alloc: Global, ask: Ask) -> Result<Kind, NoMemory>
    ensures { IfOk result (λ kind. is_log kind ≡ false) }
{
    Ok(match ask {
        Ask::Pins => Kind::Pins,
        Ask::Block => Kind::Block,
        Ask::Occurrences => Kind::Occurrences,
        Ask::Modules => Kind::Modules,
        Ask::Counts => Kind::Counts,
        Ask::Net(path, net, index) => Kind::Net {
            path: names_of(alloc, path)?,
            net: name_of(alloc, net)?,
            index,
        },
        Ask::Where(name) => Kind::Where(name_of(alloc, name)?),
    })
}

/// A desk with a design, which is opened at the module of a name.
pub fn desk_of(
    rt: &impl Abort,
    alloc: Global,
    design: &Design,
    top: &str,
) -> Result<Desk, NoMemory> {
    let state = state_of(alloc, design)?;
    let top = name_of(alloc, top)?;
    let sound = is_sound(alloc, &state.plain)?;
    assert!(rt; sound);
    match Desk::open(state.plain, &top) {
        Ok(desk) => Ok(desk),
        Err(fault) => {
            assert_eq!(rt; fault, OpenFault::NoMemory);
            Err(NoMemory)
        }
    }
}

/// Each report is answered so, both as a text of its own and behind another.
pub fn tells(
    rt: &impl Abort,
    alloc: Global,
    desk: &Desk,
    table: &[(Ask, Told)],
) -> Result<(), NoMemory> {
    for (ask, told) in table {
        let kind = kind_of(alloc, *ask)?;
        is_told(rt, &domain_report(alloc, desk, &kind), *told);
        let mut out = List::from_slice(alloc, b"ok 2\n")?;
        let pushed = push_report(alloc, desk, &kind, &mut out);
        is_behind(rt, pushed, out.as_slice(), *told);
    }
    Ok(())
}

fn is_told(rt: &impl Abort, answer: &Result<List<u8>, ReportFault>, told: Told) {
    match (answer, told) {
        (Ok(text), Told::Text(wanted)) => {
            assert!(rt; text.as_slice() == wanted.as_bytes());
        }
        (Err(fault), Told::Fault(wanted)) => {
            assert_eq!(rt; *fault, wanted);
        }
        _ => {
            assert!(rt; false);
        }
    }
}

fn is_behind(rt: &impl Abort, pushed: Result<(), ReportFault>, out: &[u8], told: Told) {
    match (pushed, told) {
        (Ok(()), Told::Text(wanted)) => {
            assert!(rt; out.starts_with(b"ok 2\n"));
            assert!(rt; out.ends_with(wanted.as_bytes()));
            assert_eq!(rt; out.len(), 5 + wanted.len());
        }
        (Err(fault), Told::Fault(wanted)) => {
            assert_eq!(rt; fault, wanted);
            assert!(rt; out == b"ok 2\n".as_slice());
        }
        _ => {
            assert!(rt; false);
        }
    }
}
