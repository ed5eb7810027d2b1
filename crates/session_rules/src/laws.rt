ghost use Rattle.session_rules.specs.Law.{CommandsLead, CommandsStayGood, EachEntryTold, JournalsStayGood, ReactionsLead, SurvivorsStayPlaced};

/// The law of journals: that of a reaction leads from the state at the command's begin to the state
/// that stands then, and has no more entries than the budget allows. The contract is what this is
/// for.
pub fn journals_lead()
    ensures command { CommandsLead }
    ensures any { ReactionsLead }
{}

/// A good state stays good along a journal, and so through a command and what observers make of it.
/// The contract is what this is for.
pub fn reactions_stay_good()
    ensures journal { JournalsStayGood }
    ensures command { CommandsStayGood }
{}

/// The law of placements: a block instance that survives each entry of a journal keeps its
/// placement, unless an entry sets it or takes it out. The contract is what this is for.
pub fn survivors_stay_placed()
    ensures { SurvivorsStayPlaced }
{}

/// Each entry of a journal is told: to go on for more entries than the budget allows changes
/// nothing. The contract is what this is for.
pub fn each_entry_is_told()
    ensures { EachEntryTold }
{}
