use edit_rules::Judged;
use emh_base::{NoMemory, Refusal};

/// Why a report isn't made.
#[derive(Clone, Copy, Debug, PartialEq, Eq)]
pub enum ReportFault {
    /// A word names nothing.
    Rule(Refusal),
    NoMemory,
}

impl From<NoMemory> for ReportFault {
    ghost use Rattle.std.specs.Prelude.{◌≡◌};
    ghost use Rattle.reports.specs.declared.fault.ReportFault.TheVariants.{NoMemory as no_memory};

    ghost from_gives = { λ _ fault. fault ≡ no_memory };

    fn from(_: NoMemory) -> ReportFault {
        ReportFault::NoMemory
    }
}

impl From<Judged> for ReportFault {
    ghost use Rattle.std.specs.Prelude.{◌≡◌};
    ghost use Rattle.reports.specs.inside.Fault.{fault_of};

    ghost from_gives = { λ judged fault. fault ≡ fault_of judged };

    fn from(judged: Judged) -> ReportFault {
        match judged {
            Judged::Rule(refusal) => ReportFault::Rule(refusal),
            Judged::NoMemory => ReportFault::NoMemory,
        }
    }
}
