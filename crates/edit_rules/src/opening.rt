ghost use Rattle.std.specs.Prelude.{◌≡◌, false, Some, None, [], ◌∷◌, IfOk};
ghost use Rattle.flatten_rules.specs.Sound.{IsSound};
ghost use Rattle.flatten_rules.specs.Design.{IsGood, module_named};
ghost use Rattle.flatten_rules.specs.Check.{first_broken};
ghost use Rattle.edit_rules.specs.Opening.{top_rules, open_fault, open_code, FaultLooks, top_named};

use crate::reading::module_named;
use emh_base::{ModId, Name, NoMemory, PModule, Plain};
use flatten_rules::{has_too_many_bits, has_too_many_occurrences, is_too_deep};
use std::alloc::Global;

/// Why a table isn't opened as a design at a top.
#[derive(Clone, Copy, Debug, PartialEq, Eq)]
pub enum OpenFault {
    /// No module has the name.
    NoSuchModule,
    /// The module of the name is a leaf.
    IsCell,
    /// Some walk of instances, from whichever module, has more than 256.
    TooDeep,
    /// The module unfolds to more than 1,000,000 occurrences.
    TooManyOccurrences,
    /// The occurrences that are no leaves have more than 4,000,000 net bits together.
    TooManyBits,
    NoMemory,
}

impl From<NoMemory> for OpenFault {
    ghost use Rattle.edit_rules.specs.declared.opening.OpenFault.TheVariants.{NoMemory as no_memory};

    ghost from_gives = { λ _ fault. fault ≡ no_memory };

    fn from(_: NoMemory) -> OpenFault {
        OpenFault::NoMemory
    }
}

impl OpenFault {
    /// The number by which the fault is told in print; 0 for want of memory, which isn't.
    pub fn code(self) -> u32
        ensures { result ≡ open_code self }
    {
        match self {
            OpenFault::NoSuchModule => 1,
            OpenFault::IsCell => 10,
            OpenFault::TooDeep => 29,
            OpenFault::TooManyOccurrences => 17,
            OpenFault::TooManyBits => 30,
            OpenFault::NoMemory => 0,
        }
    }
}

/// The id of the module of a name in a sound table, which is a good design at it; or the first of the faults that it
/// has, in their order. Without memory no other fault is told.
pub fn fit(alloc: Global, plain: &Plain, top: &Name) -> Result<ModId, OpenFault>
    requires { IsSound plain.now }
    ensures looks { FaultLooks (open_fault plain.now (module_named plain.now top.now)) result }
    ensures named { IfOk result (λ id. top_named plain.now top.now ≡ Some id) }
    ensures good { IfOk result (λ id. IsGood plain.now id) }
{
    match module_named(plain, top.as_bytes()) {
        None => Err(OpenFault::NoSuchModule),
        Some(holder) => {
            look_top(alloc, plain, holder)?;
            Ok(holder.id)
        }
    }
}

/// Looks at a module that is to be the top.
fn look_top(alloc: Global, plain: &Plain, holder: &PModule) -> Result<(), OpenFault>
    requires { IsSound plain.now }
    ensures { FaultLooks (first_broken (top_rules plain.now holder.now)) result }
{
    keep(OpenFault::IsCell, holder.leaf)?;
    keep(OpenFault::TooDeep, is_too_deep(alloc, plain)?)?;
    let many = has_too_many_occurrences(alloc, plain, holder.id)?;
    keep(OpenFault::TooManyOccurrences, many)?;
    keep(
        OpenFault::TooManyBits,
        has_too_many_bits(alloc, plain, holder.id)?,
    )
}

/// Looks at one rule.
fn keep(fault: OpenFault, broken: bool) -> Result<(), OpenFault>
    ensures looks { FaultLooks (first_broken ((broken, fault) ∷ [])) result }
    ensures kept { IfOk result (λ _. broken ≡ false) }
{
    if broken { Err(fault) } else { Ok(()) }
}
