ghost use Rattle.std.specs.Prelude.{◌≡◌};
ghost use Rattle.word_table.specs.RuleNames.{rule_texts};

use crate::table::Words;
use crate::words;

/// The table of the 66 names with which a refused line tells its cause. Two causes with one name have one row.
///
/// The list is this project's own; `specs/RuleNames.antt` spells it out.
#[tactic(auto, unfolding(crate::specs::RuleNames::rule_texts))]
pub fn rule_names() -> Words<66>
    ensures { result ≡ rule_texts }
{
    const TABLE: &[&[u8]] = words![
        b"AlreadyOpen" b"BadBuffer" b"BadByte" b"BadGroup" b"BadIndex" b"BadLiteral" b"BadNumber"
        b"BadSizes" b"BitOutOfRange" b"BudgetSpent" b"Directive" b"EcoTooLong" b"FileTooLong"
        b"InTransaction" b"IsCell" b"IsFixed" b"IsTop" b"LateDeclaration" b"LeafBody" b"Locked"
        b"LongName" b"Mixed" b"ModuleInUse" b"NameTaken" b"NameTooLong" b"NetInUse" b"NetIsPort"
        b"NoDesign" b"NoDirection" b"NoRoom" b"NoSize" b"NoSuchInst" b"NoSuchModule" b"NoSuchNet"
        b"NoSuchObserver" b"NoSuchOccurrence" b"NoSuchPort" b"NoTransaction" b"NotLeaf" b"NotLegal"
        b"NotPlaced" b"NotShared" b"NothingToRedo" b"NothingToUndo" b"OpenAttribute" b"OpenComment"
        b"PortInUse" b"PortTwice" b"PortsDiffer" b"RangeDiffers" b"RangeTooWide" b"Recursive"
        b"SameLock" b"TooDeep" b"TooManyBits" b"TooManyConnections" b"TooManyModules"
        b"TooManyObjects" b"TooManyOccurrences" b"TooWide" b"TransactionFull" b"Unexpected"
        b"UnknownModule" b"UnknownPort" b"Unsupported" b"WidthMismatch"
    ];
    Words::new(TABLE)
}
