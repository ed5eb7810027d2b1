ghost use Rattle.std.specs.Prelude.{◌≡◌, ℕ, List, Option};

use emh_base::NoMemory;

/// Why a piece couldn't be written.
#[derive(Clone, Copy, Debug, PartialEq, Eq)]
pub enum PutFault {
    /// The sink couldn't take it. Its count of faults rose in this call.
    Failed,
    NoMemory,
}

impl From<NoMemory> for PutFault {
    ghost use Rattle.emh_io.specs.declared.sink.PutFault.TheVariants.{NoMemory as no_memory};

    ghost from_gives = { λ _ fault. fault ≡ no_memory };

    fn from(_: NoMemory) -> PutFault {
        PutFault::NoMemory
    }
}

/// Where text is written to.
pub trait Sink {
    ghost use Rattle.emh_io.specs.Put.{Puts, PutHasCause};
    ghost use Rattle.emh_io.specs.Told.{Printed};

    /// What it tells: what was written so far, or nothing of it, and how many puts failed, which stands still at its
    /// type's end.
    ghost told: { Self → Printed };

    /// Takes the first bytes of a piece, and answers how many: at least one of a piece that isn't empty.
    fn put(&mut self, piece: &[u8]) -> Result<u32, PutFault>
        ensures puts { Puts (told self.old).written (told self.new).written piece.now result }
        ensures cause { PutHasCause (told self.old).faults (told self.new).faults result };
}
