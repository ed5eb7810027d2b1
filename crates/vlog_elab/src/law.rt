ghost use Rattle.vlog_elab.specs.Law.{EachHasAtMostOneAnswer, EachHasSomeAnswer, PlacesDoNotMatter, StaysSound};
ghost use Rattle.vlog_elab.specs.Reads.{EachHasAtMostOneReading, EachHasSomeReading, EachReadingStaysSound};

/// The laws of elaboration: over a sound table a tree gives a table or has a fault, and over no table two tables, or
/// two faults, or a table and a fault; from a sound table the result is sound; and the places of a tree tell where its
/// fault is, and nothing else. The contract is what this is for.
pub fn one_elaboration()
    ensures some { EachHasSomeAnswer }
    ensures one { EachHasAtMostOneAnswer }
    ensures sound { StaysSound }
    ensures places { PlacesDoNotMatter }
{}

/// The law of reading: over a sound library bytes give a table or have a fault, and over no library two tables, or two
/// faults, or a table and a fault; the table is sound, where there are no more bytes than ids. The contract is what
/// this is for.
pub fn one_reading()
    ensures some { EachHasSomeReading }
    ensures one { EachHasAtMostOneReading }
    ensures sound { EachReadingStaysSound }
{}
