ghost use Rattle.flatten_rules.specs.Domains.{EachBlockNet};
ghost use Rattle.flatten_rules.specs.ByPath.{EachPathInOrder};
ghost use Rattle.flatten_rules.specs.Texts.{EachTextOnce};
ghost use Rattle.flatten_rules.specs.TwoLevel.{TwoLevelUnfolds};
ghost use Rattle.flatten_rules.specs.Walk.{EachWalkOnce};
ghost use Rattle.flatten_rules.specs.Limits.{IsWithinByTests};
ghost use Rattle.flatten_rules.specs.Counting.{CountsOccurrences};

/// The definitions tried on the worked example.
pub fn two_level_unfolds()
    ensures { TwoLevelUnfolds }
{}

/// The law of texts: in a sound table each text of a path, a net bit or a pin is of one of them only, and no tie's. The
/// contract is what this is for.
pub fn each_text_once()
    ensures { EachTextOnce }
{}

/// The law of walks: where walks are not too long, the unfolding of a top has each path that leads to a module exactly
/// once, with the id of that module. The contract is what this is for.
pub fn each_walk_once()
    ensures { EachWalkOnce }
{}

/// The law of block nets: the list of them has exactly the net bits that lead no further up. The contract is what
/// this is for.
pub fn each_block_net()
    ensures { EachBlockNet }
{}

/// The law of paths: where instances have rising ids, the occurrences by path and the block instances by path have the
/// lists of them as their entries, in preorder. The contract is what this is for.
pub fn each_path_in_order()
    ensures { EachPathInOrder }
{}

/// The law of limits: a sound table is within them exactly where none is passed, and what is counted once a module is
/// the sum over the unfolding. The contract is what this is for.
pub fn each_limit_is_tested()
    ensures tests { IsWithinByTests }
    ensures counts { CountsOccurrences }
{}
