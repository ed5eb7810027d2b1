ghost use Rattle.emh_base.specs.Laws.{EachSpelledOnce};

/// The law of spelled texts: no two names have the same. The contract is what this is for.
pub fn each_spelled_once()
    ensures { EachSpelledOnce }
{}
