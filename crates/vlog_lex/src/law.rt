ghost use Rattle.vlog_lex.specs.Law.{EachHasOneAnswer};

/// The law of tokens: all bytes have one list of tokens or one fault, and never both. The contract is what this is for.
pub fn one_answer()
    ensures { EachHasOneAnswer }
{}
