ghost use Rattle.flatten_rules.specs.Sound.{IsSound};
ghost use Rattle.read_back.specs.Law.{EachTableReadsBack, ReadsBack};

use emh_base::Plain;
use vlog_write::{each_table_is_spelled, table_is_spelled};

/// The law of reading back: what is written of a sound table has exactly one reading, and it is the same table by
/// names, with the same flat netlist. The contract is what this is for.
pub fn each_table_reads_back()
    ensures { EachTableReadsBack }
{
    each_table_is_spelled();
}

/// What is written of this table has exactly one reading, and it is the same table by names, with the same flat
/// netlist. The contract is what this is for.
pub fn table_reads_back(plain: &Plain)
    requires { IsSound plain.now }
    ensures { ReadsBack plain.now }
{
    each_table_reads_back();
    table_is_spelled(plain);
}
