ghost use Rattle.std.specs.Prelude.{◌≡◌, false, [], ◌∷◌, IfOk};
ghost use Rattle.edit_rules.specs.Check.{check};
ghost use Rattle.edit_rules.specs.Good.{IsGoodState};
ghost use Rattle.edit_rules.specs.Judged.{Looks};
ghost use Rattle.edit_rules.specs.Apply.{checks};

use crate::facts::Facts;
use crate::judging::look;
use emh_base::{Edit, Need, NoMemory, Object, Refusal, Rule};
use std::alloc::Global;

/// Why an edit isn't done.
#[derive(Clone, Copy, Debug, PartialEq, Eq)]
pub enum Judged {
    /// It breaks a rule: the first one that it breaks.
    Rule(Refusal),
    NoMemory,
}

impl From<NoMemory> for Judged {
    ghost use Rattle.edit_rules.specs.declared.judged.Judged.TheVariants.{NoMemory as no_memory};

    ghost from_gives = { λ _ judged. judged ≡ no_memory };

    fn from(_: NoMemory) -> Judged {
        Judged::NoMemory
    }
}

/// Looks at one rule.
pub fn keep(rule: Rule, object: Object, broken: bool) -> Result<(), Judged>
    ensures looks { Looks (check rule object broken ∷ []) result }
    ensures kept { IfOk result (λ _. broken ≡ false) }
{
    if broken {
        return Err(Judged::Rule(Refusal { rule, object }));
    }
    Ok(())
}

/// Judges an edit of a good state by what is read of the state: the first rule that the edit breaks, or what it needs.
/// The two numbers of the need are 0 for now.
pub fn judge<F: Facts>(alloc: Global, facts: &F, edit: &Edit) -> Result<Need, Judged>
    requires { IsGoodState (F.state facts.now) }
    ensures { Looks (checks (F.state facts.now) edit.now) result }
{
    look(alloc, facts, edit)?;
    Ok(Need { rows: 0, writes: 0 })
}
