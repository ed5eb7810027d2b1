ghost use Rattle.std.specs.Prelude.{◌<◌, length};
ghost use Rattle.desk.specs.Desk.{IsClosed};
ghost use Rattle.desk.specs.Answers.{GoesBack, GoesForth};

use crate::desk::Desk;
use std::mem;

impl Desk {
    /// Goes back to the newest of the states before. It takes no memory.
    pub fn undo(&mut self)
        requires closed { IsClosed self.old }
        requires some { 0 < length self.old.past }
        ensures { GoesBack self.old self.new }
    {
        let before = self.past.take_last();
        let now = mem::replace(&mut self.state, before);
        self.future.push_reserved(now);
    }

    /// Goes forth to the state that was gone back from last. It takes no memory.
    pub fn redo(&mut self)
        requires closed { IsClosed self.old }
        requires some { 0 < length self.old.future }
        ensures { GoesForth self.old self.new }
    {
        let after = self.future.take_last();
        let now = mem::replace(&mut self.state, after);
        self.past.push_reserved(now);
    }
}
