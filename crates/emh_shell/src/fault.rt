ghost use Rattle.std.specs.Prelude.{◌≡◌};

use edit_rules::OpenFault;
use emh_base::NoMemory;
use emh_io::PutFault;
use thiserror::Error;
use vlog_elab::ReadFault;

/// Why a file has no table.
#[derive(Debug, Drop)]
pub enum FileFault {
    /// It has more than 67,108,864 bytes.
    TooLong,
    /// It is no netlist over the library.
    Reading(ReadFault),
}

/// Why a file has no design at a top.
#[derive(Debug, Drop)]
pub enum DesignFault {
    /// It has no table.
    File(FileFault),
    /// Its table isn't opened at the top.
    Opening(OpenFault),
}

/// Why a run ends before its script does. The texts are never printed.
#[derive(Clone, Copy, Debug, PartialEq, Eq, Error)]
pub enum Halt {
    #[error("a file can't be had")]
    Fetch,
    #[error("a file can't be stored")]
    Store,
    #[error("the text can't be written")]
    Put,
    #[error("no memory")]
    NoMemory,
}

impl From<NoMemory> for Halt {
    ghost use Rattle.emh_shell.specs.declared.fault.Halt.TheVariants.{NoMemory as no_memory};

    ghost from_gives = { λ _ halt. halt ≡ no_memory };

    fn from(_: NoMemory) -> Halt {
        Halt::NoMemory
    }
}

impl From<PutFault> for Halt {
    ghost use Rattle.emh_shell.specs.inside.Halts.{halt_of_put};

    ghost from_gives = { λ fault halt. halt ≡ halt_of_put fault };

    fn from(fault: PutFault) -> Halt {
        match fault {
            PutFault::Failed => Halt::Put,
            PutFault::NoMemory => Halt::NoMemory,
        }
    }
}
