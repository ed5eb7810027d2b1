ghost use Rattle.std.specs.Prelude.{◌≡◌};
ghost use Rattle.desk.specs.Answers.{first_fault_of, denied_of};

use edit_rules::Judged;
use emh_base::{NoMemory, Refusal};
use std::alloc::AllocError;

/// Why the user's edit doesn't open a command.
#[derive(Clone, Copy, Debug, PartialEq, Eq)]
pub enum FirstFault {
    /// It breaks a rule: the first one that it breaks.
    Rule(Refusal),
    NoMemory,
}

/// Why an edit isn't done in the command that is open.
#[derive(Clone, Copy, Debug, PartialEq, Eq)]
pub enum Denied {
    /// It breaks a rule: the first one that it breaks.
    Rule(Refusal),
    /// It breaks no rule, and observers have made as many changes as the budget says.
    BudgetSpent { budget: u32 },
    NoMemory,
}

impl From<Judged> for FirstFault {
    ghost from_gives = { λ judged fault. fault ≡ first_fault_of judged };

    fn from(judged: Judged) -> FirstFault {
        match judged {
            Judged::Rule(refusal) => FirstFault::Rule(refusal),
            Judged::NoMemory => FirstFault::NoMemory,
        }
    }
}

impl From<NoMemory> for FirstFault {
    ghost use Rattle.desk.specs.declared.answers.FirstFault.TheVariants.{NoMemory as no_memory};

    ghost from_gives = { λ _ fault. fault ≡ no_memory };

    fn from(_: NoMemory) -> FirstFault {
        FirstFault::NoMemory
    }
}

impl From<AllocError> for FirstFault {
    ghost use Rattle.desk.specs.declared.answers.FirstFault.TheVariants.{NoMemory as no_memory};

    ghost from_gives = { λ _ fault. fault ≡ no_memory };

    fn from(_: AllocError) -> FirstFault {
        FirstFault::NoMemory
    }
}

impl From<Judged> for Denied {
    ghost from_gives = { λ judged denied. denied ≡ denied_of judged };

    fn from(judged: Judged) -> Denied {
        match judged {
            Judged::Rule(refusal) => Denied::Rule(refusal),
            Judged::NoMemory => Denied::NoMemory,
        }
    }
}

impl From<AllocError> for Denied {
    ghost use Rattle.desk.specs.declared.answers.Denied.TheVariants.{NoMemory as no_memory};

    ghost from_gives = { λ _ denied. denied ≡ no_memory };

    fn from(_: AllocError) -> Denied {
        Denied::NoMemory
    }
}
