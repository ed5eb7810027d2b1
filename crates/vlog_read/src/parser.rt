ghost use Rattle.std.specs.Prelude.{◌≡◌, IfOk, IfErr, MatchResult};
ghost use Rattle.vlog_read.specs.declared.tree.Tree.{Tree};
ghost use Rattle.vlog_read.specs.declared.fault.ParseFault.{ParseFault};
ghost use Rattle.vlog_read.specs.Sentence.{Spells, HasFault};
ghost use Rattle.vlog_read.specs.Found.{UnlessNoMemory};

use crate::fault::ParseFault;
use crate::reader::Reader;
use crate::tree::Tree;
use std::alloc::Global;
use vlog_lex::Tokens;

/// The tree of a file's tokens, or the fault at the first of them that no sentence has there. Each token is looked at a
/// bounded number of times, and the stack that it takes is the same for all files.
pub fn parse(alloc: Global, tokens: &Tokens<'_>) -> Result<Tree, ParseFault>
    ensures tree { IfOk result (λ tree. Spells tree tokens.now.items) }
    ensures fault { IfErr result (UnlessNoMemory (HasFault tokens.now.len tokens.now.items)) }

    // Tokens that spell a tree give it, and tokens that have a fault give it, unless memory is wanting.
    ensures each_tree { (tree : Tree) → Spells tree tokens.now.items
        → MatchResult result (λ read. read ≡ tree) (UnlessNoMemory (λ _. ⊥)) }
    ensures each_fault { (fault : ParseFault) → HasFault tokens.now.len tokens.now.items fault
        → MatchResult result (λ _. ⊥) (UnlessNoMemory (λ it. it ≡ fault)) }
{
    let mut reader = Reader {
        alloc,
        rest: tokens.items.as_slice(),
        len: tokens.len,
    };
    reader.modules()
}
