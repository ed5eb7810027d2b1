ghost use Rattle.std.specs.Prelude.{◌≡◌, ◌≤◌, length, IfOk, IfErr, MatchResult};
ghost use Rattle.emh_base.specs.declared.plain.Plain.{Plain};
ghost use Rattle.flatten_rules.specs.Sound.{IsSound};
ghost use Rattle.emh_base.specs.declared.file.TheConstants.{FILE_LIMIT};
ghost use Rattle.vlog_read.specs.HasTree.{HasTree};
ghost use Rattle.vlog_elab.specs.declared.reads.ReadFault.{ReadFault};
ghost use Rattle.vlog_elab.specs.Reads.{Reads, HasTreeFault, HasReadFault, UnlessNoMemory};

use crate::elaborate::elab;
use crate::fault::ElabFault;
use emh_base::Plain;
use std::alloc::Global;
use vlog_lex::{LexFault, tokens};
use vlog_read::{ParseFault, Tree, parse};

/// Why the bytes of a file have no table: the fault of their tokens, of the tree that these spell, or of the table that
/// the tree gives.
#[derive(Debug, Drop)]
pub enum ReadFault {
    Lex(LexFault),
    Parse(ParseFault),
    Elab(ElabFault),
}

impl From<LexFault> for ReadFault {
    ghost use Rattle.vlog_elab.specs.declared.reads.ReadFault.TheVariants.{Lex};

    ghost from_gives = { λ fault it. it ≡ Lex fault };

    fn from(fault: LexFault) -> ReadFault {
        ReadFault::Lex(fault)
    }
}

impl From<ParseFault> for ReadFault {
    ghost use Rattle.vlog_elab.specs.declared.reads.ReadFault.TheVariants.{Parse};

    ghost from_gives = { λ fault it. it ≡ Parse fault };

    fn from(fault: ParseFault) -> ReadFault {
        ReadFault::Parse(fault)
    }
}

impl From<ElabFault> for ReadFault {
    ghost use Rattle.vlog_elab.specs.declared.reads.ReadFault.TheVariants.{Elab};

    ghost from_gives = { λ fault it. it ≡ Elab fault };

    fn from(fault: ElabFault) -> ReadFault {
        ReadFault::Elab(fault)
    }
}

/// A library with the modules of a file after it, or why there is no such table: the fault of the first step that
/// fails. All modules of the file are leaves where `all_leaf` is true, and else those that are marked as cells. The
/// file has at most 67,108,864 bytes. It takes time n log n.
pub fn read_netlist(
    alloc: Global,
    library: &Plain,
    bytes: &[u8],
    all_leaf: bool,
) -> Result<Plain, ReadFault>
    requires sound { IsSound library.now }
    requires size { length bytes.now ≤ FILE_LIMIT }
    ensures table { IfOk result (Reads library.now all_leaf bytes.now) }
    ensures fault { IfErr result (UnlessNoMemory (HasReadFault library.now all_leaf bytes.now)) }
    ensures sound { IfOk result IsSound }

    // Bytes that give a table give it, and bytes that have a fault give it, unless memory is wanting.
    ensures each_table { (made : Plain) → Reads library.now all_leaf bytes.now made
        → MatchResult result (λ it. it ≡ made) (UnlessNoMemory (λ _. ⊥)) }
    ensures each_fault { (fault : ReadFault) → HasReadFault library.now all_leaf bytes.now fault
        → MatchResult result (λ _. ⊥) (UnlessNoMemory (λ it. it ≡ fault)) }
{
    read_over(alloc, library, bytes, all_leaf)
}

/// The three steps, one after the other.
fn read_over(
    alloc: Global,
    library: &Plain,
    bytes: &[u8],
    all_leaf: bool,
) -> Result<Plain, ReadFault>
    requires sound { IsSound library.now }
    requires size { length bytes.now ≤ FILE_LIMIT }
    ensures table { IfOk result (Reads library.now all_leaf bytes.now) }
    ensures fault { IfErr result (UnlessNoMemory (HasReadFault library.now all_leaf bytes.now)) }
    ensures sound { IfOk result IsSound }
{
    let tree = read_tree(alloc, bytes)?;
    Ok(elab(alloc, library, &tree, all_leaf)?)
}

/// The tree that the bytes of a file spell.
fn read_tree(alloc: Global, bytes: &[u8]) -> Result<Tree, ReadFault>
    requires { length bytes.now ≤ FILE_LIMIT }
    ensures tree { IfOk result (HasTree bytes.now) }
    ensures fault { IfErr result (UnlessNoMemory (HasTreeFault bytes.now)) }
{
    let read = tokens(alloc, bytes)?;
    Ok(parse(alloc, &read)?)
}
