ghost use Rattle.std.specs.Prelude.{Some};
ghost use Rattle.vlog_elab.specs.inside.Walk.{Found};

use emh_base::{Name, NoMemory, TryCopy};
use vlog_read::At;

/// The rules of elaboration.
#[derive(Clone, Copy, Debug, PartialEq, Eq)]
pub enum ElabKind {
    /// A name that something else has.
    NameTaken,
    UnknownModule,
    UnknownPort,
    /// A header or an instance names a port twice.
    PortTwice,
    /// Connections by order and by name.
    Mixed,
    TooManyConnections,
    WidthMismatch,
    /// An index that a net hasn't, or one above 65,535.
    BadIndex,
    /// A port of the header without a direction.
    NoDirection,
    /// A direction and a wire declaration with different ranges.
    RangeDiffers,
    /// A declaration of a net after its use.
    LateDeclaration,
    /// A leaf with an instance, or with a wire that is no port.
    LeafBody,
    /// A range of more than 4,096 bits.
    TooWide,
    /// A module that holds an instance of itself, or of one that does in the end.
    Recursive,
    TooManyModules,
}

impl ElabKind {
    ghost use Rattle.std.specs.Prelude.{◌≡◌};
    ghost use Rattle.vlog_elab.specs.Code.{elab_code};

    /// The number by which the rule is told in print.
    pub fn code(self) -> u32
        ensures { result ≡ elab_code self }
    {
        match self {
            ElabKind::NameTaken => 60,
            ElabKind::UnknownModule => 61,
            ElabKind::UnknownPort => 62,
            ElabKind::PortTwice => 63,
            ElabKind::Mixed => 64,
            ElabKind::TooManyConnections => 65,
            ElabKind::WidthMismatch => 66,
            ElabKind::BadIndex => 67,
            ElabKind::NoDirection => 68,
            ElabKind::RangeDiffers => 69,
            ElabKind::LateDeclaration => 70,
            ElabKind::LeafBody => 71,
            ElabKind::TooWide => 72,
            ElabKind::Recursive => 73,
            ElabKind::TooManyModules => 74,
        }
    }
}

/// Why a tree has no table: the first rule that is broken, the place of the token that breaks it, counted from 0, and
/// what has that name there.
#[derive(Debug, Drop)]
pub enum ElabFault {
    Fault { kind: ElabKind, at: u32, name: Name },
    NoMemory,
}

impl From<NoMemory> for ElabFault {
    ghost use Rattle.std.specs.Prelude.{◌≡◌};
    ghost use Rattle.vlog_elab.specs.declared.fault.ElabFault.TheVariants.{NoMemory as no_memory};

    ghost from_gives = { λ _ fault. fault ≡ no_memory };

    fn from(_: NoMemory) -> ElabFault {
        ElabFault::NoMemory
    }
}

/// The fault of a rule at a place, with a name.
pub fn fault_at(kind: ElabKind, at: u32, name: &Name) -> ElabFault
    ensures { Found (Some (ElabFault.Fault kind at name.now)) result }
{
    match name.copy() {
        Ok(name) => ElabFault::Fault { kind, at, name },
        Err(_) => ElabFault::NoMemory,
    }
}

/// The fault of a rule at a token, with the token's name.
pub fn fault(kind: ElabKind, token: &At) -> ElabFault
    ensures { Found (Some (ElabFault.Fault kind token.now.at token.now.name)) result }
{
    fault_at(kind, token.at, &token.name)
}
