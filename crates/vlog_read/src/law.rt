ghost use Rattle.vlog_read.specs.Law.{EachHasOneAnswer};
ghost use Rattle.vlog_read.specs.Words.{RowsHoldTheWords};

/// The law of the grammar: all tokens spell one tree or have one fault, and never both. The words that the grammar uses
/// stand in the rows by which it names them. The contract is what this is for.
pub fn one_sentence()
    ensures law { EachHasOneAnswer }
    ensures words { RowsHoldTheWords }
{}
