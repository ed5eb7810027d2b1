ghost use Rattle.edit_rules.specs.Examples.{LocksBeforeNames, SourcesBeforeWidths, EachInstanceGetsThePort, ModulesAreRead, NamesAreRead, UsesAreRead, PortsAreRead, InstancesAreRead, UnfoldingIsRead};
ghost use Rattle.edit_rules.specs.Law.{StaysGood, StaysGoodInOrder, SurvivorsStayPlaced, OnlySurvivorsArePlaced, SurvivorsStayPlacedInOrder};

/// The definitions tried on edits of the worked example.
pub fn worked_edits()
    ensures locks { LocksBeforeNames }
    ensures sources { SourcesBeforeWidths }
    ensures ports { EachInstanceGetsThePort }
{}

/// What is read of a design, tried on the worked example with a bus.
pub fn worked_readers()
    ensures modules { ModulesAreRead }
    ensures names { NamesAreRead }
    ensures uses { UsesAreRead }
    ensures ports { PortsAreRead }
    ensures instances { InstancesAreRead }
    ensures unfolding { UnfoldingIsRead }
{}

/// The law of good states: an edit that no rule refuses leads from a good state to a good one, and so do edits in
/// order. The contract is what this is for.
pub fn each_edit_stays_good()
    ensures one { StaysGood }
    ensures all { StaysGoodInOrder }
{}

/// The law of placements: what survives an edit, or edits in order, keeps its placement where none of them sets it or
/// takes it out, and nothing else is placed. The contract is what this is for.
pub fn survivors_stay_placed()
    ensures one { SurvivorsStayPlaced }
    ensures only { OnlySurvivorsArePlaced }
    ensures all { SurvivorsStayPlacedInOrder }
{}
