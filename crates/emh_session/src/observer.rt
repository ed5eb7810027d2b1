ghost use Rattle.std.specs.Prelude.{◌≡◌, ◌<◌, ℕ, List, [], ◌∷◌, length, IsSome};
ghost use Rattle.emh_base.specs.declared.state.State.{State};
ghost use Rattle.emh_base.specs.declared.edit.Change.{Change};
ghost use Rattle.emh_base.specs.declared.edit.Edit.{Edit};
ghost use Rattle.emh_session.specs.Observing.{AnswersEntry, AnswersChange};

use crate::answers::Halt;
use desk::{Denied, Desk};
use emh_base::{Edit, TryCopy};

/// Who is told of each change of a command, and may answer it with edits.
pub trait Observer: Drop {
    ghost called: { Self → List ℕ };

    ghost wants: { Self → State → Change → List Edit };

    /// The name by which it is enabled. It is fit for a `Name`.
    fn name(&self) -> &[u8]
        ensures { result.now ≡ called self.now };

    /// Is told of an entry of the open command's journal. It gives the edits that it wants, as the
    /// state is when it is told, to the desk one by one, and passes over those that a rule refuses.
    /// It stops where the budget is used up or memory is missing.
    fn changed(&self, desk: &mut Desk, entry: u32) -> Result<(), Halt>
        requires open { IsSome desk.old.base }
        requires there { entry < length desk.old.journal }
        ensures { AnswersEntry (wants self.now) entry desk.old result desk.new };
}

/// Gives edits to a desk in order; those that a rule refuses are passed over.
pub fn give_all(desk: &mut Desk, edits: &[Edit]) -> Result<(), Halt>
    requires { IsSome desk.old.base }
    ensures { AnswersChange edits.now desk.old result desk.new }
{
    for edit in edits {
        give(desk, edit.copy()?)?;
    }
    Ok(())
}

/// Gives an edit to a desk; one that a rule refuses is passed over.
pub fn give(desk: &mut Desk, edit: Edit) -> Result<(), Halt>
    requires { IsSome desk.old.base }
    ensures { AnswersChange (edit ∷ []) desk.old result desk.new }
{
    match desk.apply(edit) {
        Ok(()) => Ok(()),
        Err(Denied::Rule(_)) => Ok(()),
        Err(Denied::BudgetSpent { .. }) => Err(Halt::BudgetSpent),
        Err(Denied::NoMemory) => Err(Halt::NoMemory),
    }
}
