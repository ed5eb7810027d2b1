ghost use Rattle.std.specs.Prelude.{◌≡◌};
ghost use Rattle.emh_session.specs.Answers.{command_fault_of};
ghost use Rattle.emh_session.specs.inside.Running.{halted};

use desk::FirstFault;
use emh_base::{NoMemory, Refusal};

/// Why an observer stops before it has given all its edits.
#[derive(Clone, Copy, Debug, PartialEq, Eq)]
pub enum Halt {
    /// The budget was used up when an edit came that no rule refuses.
    BudgetSpent,
    NoMemory,
}

/// What a command comes to.
#[derive(Clone, Copy, Debug, PartialEq, Eq)]
pub struct Accepted {
    /// How many changes observers have made.
    pub observer_edits: u32,
}

/// Why a command isn't done.
#[derive(Clone, Copy, Debug, PartialEq, Eq)]
pub enum CommandFault {
    /// The user's edit breaks a rule: the first one that it breaks.
    Rule(Refusal),
    /// An edit of an observer that no rule refuses came when observers had made as many changes as
    /// the budget says.
    BudgetSpent { budget: u32 },
    NoMemory,
}

/// There is no state to go back to.
#[derive(Clone, Copy, Debug, PartialEq, Eq)]
pub struct NothingToUndo;

/// There is no state to go forth to.
#[derive(Clone, Copy, Debug, PartialEq, Eq)]
pub struct NothingToRedo;

/// No observer has the name.
#[derive(Clone, Copy, Debug, PartialEq, Eq)]
pub struct NoSuchObserver;

impl From<FirstFault> for CommandFault {
    ghost from_gives = { λ first fault. fault ≡ command_fault_of first };

    fn from(first: FirstFault) -> CommandFault {
        match first {
            FirstFault::Rule(refusal) => CommandFault::Rule(refusal),
            FirstFault::NoMemory => CommandFault::NoMemory,
        }
    }
}

impl From<NoMemory> for Halt {
    ghost use Rattle.emh_session.specs.declared.answers.Halt.TheVariants.{NoMemory as no_memory};

    ghost from_gives = { λ _ halt. halt ≡ no_memory };

    fn from(_: NoMemory) -> Halt {
        Halt::NoMemory
    }
}

/// What a command answers where an observer stopped.
pub fn halted(budget: u32, halt: Halt) -> CommandFault
    ensures { result ≡ halted budget halt }
{
    match halt {
        Halt::BudgetSpent => CommandFault::BudgetSpent { budget },
        Halt::NoMemory => CommandFault::NoMemory,
    }
}
