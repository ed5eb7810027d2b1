ghost use Rattle.std.specs.Prelude.{◌≡◌};
ghost use Rattle.word_table.specs.Causes.{causes, cause_name, pointed_to};

/// The causes for which a line is refused, by rising code, each with its name.
#[tactic(auto, unfolding(crate::specs::Causes::causes))]
fn causes() -> &'static [(u32, &'static [u8])]
    ensures { pointed_to result.now ≡ causes }
{
    const CAUSES: &[(u32, &[u8])] = &[
        (1, b"NoSuchModule"),
        (2, b"NoSuchNet"),
        (3, b"NoSuchInst"),
        (4, b"NoSuchPort"),
        (5, b"NameTaken"),
        (7, b"NetInUse"),
        (8, b"ModuleInUse"),
        (9, b"IsTop"),
        (10, b"IsCell"),
        (11, b"Recursive"),
        (12, b"WidthMismatch"),
        (13, b"BitOutOfRange"),
        (14, b"RangeTooWide"),
        (15, b"NetIsPort"),
        (16, b"PortInUse"),
        (17, b"TooManyOccurrences"),
        (18, b"NoSuchOccurrence"),
        (19, b"NotLeaf"),
        (20, b"PortsDiffer"),
        (21, b"IsFixed"),
        (22, b"AlreadyOpen"),
        (23, b"NotShared"),
        (24, b"Locked"),
        (25, b"BadBuffer"),
        (26, b"BadNumber"),
        (27, b"NoDesign"),
        (28, b"BudgetSpent"),
        (29, b"TooDeep"),
        (30, b"TooManyBits"),
        (31, b"TooManyObjects"),
        (32, b"NotPlaced"),
        (33, b"SameLock"),
        (34, b"NothingToUndo"),
        (35, b"NothingToRedo"),
        (36, b"NoSuchObserver"),
        (37, b"FileTooLong"),
        (38, b"NameTooLong"),
        (39, b"BadGroup"),
        (41, b"BadByte"),
        (42, b"OpenComment"),
        (43, b"OpenAttribute"),
        (44, b"BadLiteral"),
        (45, b"LongName"),
        (46, b"Directive"),
        (48, b"Unexpected"),
        (49, b"Unsupported"),
        (50, b"InTransaction"),
        (51, b"NoTransaction"),
        (52, b"TransactionFull"),
        (53, b"EcoTooLong"),
        (54, b"BadSizes"),
        (55, b"NotLegal"),
        (56, b"NoRoom"),
        (57, b"NoSize"),
        (60, b"NameTaken"),
        (61, b"UnknownModule"),
        (62, b"UnknownPort"),
        (63, b"PortTwice"),
        (64, b"Mixed"),
        (65, b"TooManyConnections"),
        (66, b"WidthMismatch"),
        (67, b"BadIndex"),
        (68, b"NoDirection"),
        (69, b"RangeDiffers"),
        (70, b"LateDeclaration"),
        (71, b"LeafBody"),
        (72, b"TooWide"),
        (73, b"Recursive"),
        (74, b"TooManyModules"),
    ];
    CAUSES
}

/// The name with which a refused line tells its cause, by the cause's code; no bytes for a number that is no code.
///
/// The list is this project's own; `specs/Causes.antt` spells it out.
pub fn cause_name(code: u32) -> &'static [u8]
    ensures { result.now ≡ cause_name code }
{
    for (number, name) in causes() {
        if *number == code {
            return name;
        }
    }
    b""
}
