ghost use Rattle.gen_design.specs.Examples.{DrawsFromFive, DrawsFromZero, FirstHasInverters, NoneInAnEmptyTable, ThirdHasTwo, TurnsByTheirDraws};
ghost use Rattle.gen_design.specs.Law.{MadeIsSound};

/// The definitions tried by hand.
pub fn worked_designs()
    ensures draws { DrawsFromFive }
    ensures zero { DrawsFromZero }
    ensures first { FirstHasInverters }
    ensures third { ThirdHasTwo }
    ensures turns { TurnsByTheirDraws }
    ensures empty { NoneInAnEmptyTable }
{}

/// The law of made designs: the table is sound, and its top is the last module. The contract is
/// what this is for.
pub fn each_made_table_is_sound()
    ensures { MadeIsSound }
{}
