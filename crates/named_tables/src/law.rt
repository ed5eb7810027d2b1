ghost use Rattle.named_tables.specs.Law.{EachCycleByNames, EachFlatNetlistByNames};

/// The law of flat netlists: two sound tables that are the same by names have the same flat netlist, at tops of one
/// name. The contract is what this is for.
pub fn each_flat_netlist_by_names()
    ensures { EachFlatNetlistByNames }
{}

/// The law of cycles: of two tables that are the same by names, where a module of the one is on a cycle, the module of
/// that name of the other is on one too. The contract is what this is for.
pub fn each_cycle_by_names()
    ensures { EachCycleByNames }
{}
