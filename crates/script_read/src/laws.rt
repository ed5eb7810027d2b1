ghost use Rattle.script_read.specs.Law.{EachWordReads, EachCommandReads, EachLineReads, EachLineAsksOnce, FirstWordsAreKnown};

/// The word that is written for a value says that value. The contract is what this is for.
pub fn each_word_reads()
    ensures { EachWordReads }
{}

/// The words that are written for a command that a line asks for ask for it. The contract is what this is for.
pub fn each_command_reads()
    ensures { EachCommandReads }
{}

/// The line that is written for a command that a line asks for asks for it. The contract is what this is for.
pub fn each_line_reads()
    ensures { EachLineReads }
{}

/// A line asks for one command at most. The contract is what this is for.
pub fn each_line_asks_once()
    ensures { EachLineAsksOnce }
{}

/// The first words of the lines that are read stand among those that `word_table` lists for all lines, those to come
/// too. The contract is what this is for.
pub fn first_words_are_known()
    ensures { FirstWordsAreKnown }
{}
