ghost use Rattle.std.specs.Prelude.{◌≡◌, [], ◌∷◌, ◌++◌, Ok, Err, length, map, option_map, ◌≤◌, IfSome, IfOk, OnOk, string_bytes, codes};
ghost use Rattle.clap.specs.Words.{app_of, found_of, first_value};
ghost use Rattle.command_line.specs.CommandLine.{command_line, asked, budget_of, given};

use clap::error::ErrorKind;
use clap::{Arg, ArgAction, ArgMatches, Command};
use emh_base::{List, NoMemory};
use script_read::number_of;
use std::alloc::Global;

/// How many changes observers may add to a command where no budget is given.
const BUDGET: u32 = 1000;

/// The most changes that observers may add to a command.
const BUDGET_LIMIT: u32 = 100_000;

/// What the words of a command line ask for: to run the script of that name, where observers may add so many changes to
/// a command, at most 100,000.
#[derive(Debug, Drop)]
pub struct Asked {
    pub budget: u32,
    pub script: List<u8>,
}

/// What the words behind the program's name ask for, none where they are outside `[--budget N] SCRIPT`. N is 1 to 6
/// digits, at most 100,000; without it the budget is 1,000.
pub fn ask(alloc: Global, words: &[String]) -> Result<Option<Asked>, NoMemory>
    ensures asked { IfOk result (λ ask. ask ≡ asked (map string_bytes words.now)) }
    ensures budget { IfOk result (λ ask. IfSome ask (λ ask. ask.budget ≤ 100000)) }
{
    let words = with_program(alloc, words)?;
    match command(alloc)?.try_get_matches_from(words.as_slice()) {
        Ok(matches) => asked_by(alloc, &matches),
        Err(error) => match error.kind() {
            ErrorKind::OutOfMemory => Err(NoMemory),
            _ => Ok(None),
        },
    }
}

/// The command line: an option with a value, and one word.
fn command<'a>(alloc: Global) -> Result<Command<'a>, NoMemory>
    ensures { IfOk result (λ command. app_of command ≡ command_line) }
{
    let budget = Arg::new(alloc, "budget")
        .long("budget")
        .action(ArgAction::Set);
    let script = Arg::new(alloc, "script")
        .required(true)
        .action(ArgAction::Set);
    Ok(Command::new(alloc, "emhdb").arg(budget)?.arg(script)?)
}

/// The words with the program's name before them.
fn with_program<'a>(alloc: Global, words: &'a [String]) -> Result<Vec<&'a str>, NoMemory>
    ensures { IfOk result (λ all. map (λ word. word.now) all.items
        ≡ codes "emhdb" ∷ map string_bytes words.now) }
{
    let mut all = Vec::new(alloc);
    all.push("emhdb")?;
    for word in words {
        all.push(word.as_str())?;
    }
    Ok(all)
}

fn asked_by(alloc: Global, matches: &ArgMatches<'_>) -> Result<Option<Asked>, NoMemory>
    ensures budget { IfOk result (λ ask. IfSome ask (λ ask. ask.budget ≤ 100000)) }
    ensures asked { IfOk result (λ ask. ask ≡ given (first_value (found_of matches.now) (codes "script"))
        (first_value (found_of matches.now) (codes "budget"))) }
{
    let Some(script) = matches.get_str("script") else {
        return Ok(None);
    };
    match matches.get_str("budget") {
        None => Ok(Some(Asked {
            budget: BUDGET,
            script: List::from_slice(alloc, script.as_bytes())?,
        })),
        Some(text) => match budget_of(text.as_bytes()) {
            None => Ok(None),
            Some(budget) => Ok(Some(Asked {
                budget,
                script: List::from_slice(alloc, script.as_bytes())?,
            })),
        },
    }
}

/// The budget of a text: a number of at most 6 digits, up to 100,000.
fn budget_of(text: &[u8]) -> Option<u32>
    ensures value { result ≡ budget_of text.now }
    ensures limit { IfSome result (λ budget. budget ≤ 100000) }
{
    if text.len() > 6 {
        return None;
    }
    let budget = number_of(text)?;
    if budget <= BUDGET_LIMIT {
        Some(budget)
    } else {
        None
    }
}
