ghost use Rattle.std.specs.Prelude.{◌≡◌, ◌≤◌, ◌↔◌, None, length, IsSome, IsTrue, OnOk};
ghost use Rattle.edit_rules.specs.Apply.{apply};
ghost use Rattle.desk.specs.Desk.{IsClosed, closed, room_of};
ghost use Rattle.desk.specs.Answers.{AnswersFirst, AnswersApply, Keeps, Drops};

use crate::answers::{Denied, FirstFault};
use crate::desk::Desk;
use edit_rules::{apply_plain, judge};
use emh_base::{By, Edit, TryCopy};

impl Desk {
    /// Opens a command by an edit of the user. `budget` is how many changes observers may add, at
    /// most 100,000. The room for what ends the command, and for undo and redo after it, is taken
    /// here. After a refusal no command is open, and all is as before.
    pub fn first(&mut self, edit: Edit, budget: u32) -> Result<(), FirstFault>
        requires closed { IsClosed self.old }
        requires budget { budget ≤ 100000 }
        ensures answers { let effect = apply self.old.state By.User edit in
            AnswersFirst effect budget self.old result self.new }
        ensures open { OnOk result (IsSome self.new.base) }
    {
        self.past.reserve(self.future.len() + 1)?;
        self.future.reserve(self.past.len() + 1)?;
        self.journal.reserve(1)?;
        let base = self.state.copy()?;
        let change = apply_plain(self.state.plain.modules.alloc(), &mut self.state, &edit)?;
        self.journal.push_reserved(change);
        self.base = Some(base);
        self.asked = 1;
        self.budget = budget;
        self.speaker = By::User;
        Ok(())
    }

    /// From now on changes are asked for by the observer at this place of those that were handed
    /// in, counted from 0.
    pub fn speak(&mut self, who: u32)
        requires open { IsSome self.old.base }
        ensures { self.new ≡ record self.old { speaker = By.Watch who } }
    {
        self.speaker = By::Watch(who);
    }

    /// Does an edit in the open command. A rule that it breaks is told before the budget is looked
    /// at. After a refusal all is as before.
    pub fn apply(&mut self, edit: Edit) -> Result<(), Denied>
        requires open { IsSome self.old.base }
        ensures answers { let effect = apply self.old.state self.old.speaker edit in
            AnswersApply effect self.old result self.new }
        ensures base { self.new.base ≡ self.old.base }
    {
        if self.is_full() {
            judge(self.state.plain.modules.alloc(), &self.state, &edit)?;
            return Err(Denied::BudgetSpent {
                budget: self.budget,
            });
        }
        self.journal.reserve(1)?;
        let mut change = apply_plain(self.state.plain.modules.alloc(), &mut self.state, &edit)?;
        change.by = self.speaker;
        self.journal.push_reserved(change);
        Ok(())
    }

    /// Ends the open command: the state before it is the newest of those that undo goes to, and
    /// redo has none.
    pub fn keep(&mut self)
        requires open { IsSome self.old.base }
        ensures { Keeps self.old self.new }
    {
        let base = self.base.take().unwrap();
        self.past.push_reserved(base);
        self.future.clear();
        self.close();
    }

    /// Whether the journal has as many changes as it may have.
    fn is_full(&self) -> bool
        ensures { IsTrue result ↔ (length self.now.journal ≡ room_of self.now) }
    {
        self.journal.len() == self.budget as usize + self.asked as usize
    }

    /// No command is open any more.
    fn close(&mut self)
        requires { self.old.base ≡ None }
        ensures { self.new ≡ closed self.old }
    {
        self.journal.clear();
        self.asked = 0;
        self.budget = 0;
        self.speaker = By::User;
    }

    /// Drops the open command: all is as it was before it.
    pub fn drop_command(&mut self)
        requires open { IsSome self.old.base }
        ensures { Drops self.old self.new }
    {
        self.state = self.base.take().unwrap();
        self.close();
    }
}
