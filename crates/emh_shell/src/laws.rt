ghost use Rattle.emh_shell.specs.Law.{EachSessionOnce, EachEditKeepsPlacements, EachTurnKeepsPlacements};

/// The law of sessions: over the same files the same words have at most one text, one set of files after it, and one
/// status, so that what `run` prints and stores is told whole. The contract is what this is for.
pub fn each_session_once()
    ensures { EachSessionOnce }
{}

/// The law of placements: a block instance that survives a line's edit, and what observers made of
/// it, keeps its placement unless one of these changes sets it. So it is with each turn of drawn
/// edits. The contract is what this is for.
pub fn each_edit_keeps_placements()
    ensures lines { EachEditKeepsPlacements }
    ensures turns { EachTurnKeepsPlacements }
{}
