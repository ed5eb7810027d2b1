ghost use Rattle.std.specs.Prelude.{◌≡◌, ◌≢◌, ◌<◌, ◌≤◌, true, false, [], replicate, length, map, slice_get, Some, OnOk, OnErr, IfOk};
ghost use Rattle.session_rules.specs.React.{react};
ghost use Rattle.session_rules.specs.Session.{Undoes, Redoes};
ghost use Rattle.desk.specs.Desk.{IsClosed};
ghost use Rattle.emh_session.specs.Answers.{AnswersCommand, AnswersMark, StaysPlaced};

use crate::answers::{Accepted, CommandFault, NoSuchObserver, NothingToRedo, NothingToUndo};
use crate::marking::mark_named;
use crate::observer::Observer;
use crate::telling::run_command;
use desk::Desk;
use emh_base::{Edit, NoMemory};
use std::alloc::Global;
use std::marker::Model;

/// A design that is open, with the commands on it. Contracts see it as the plain session: the
/// states before, the present one, those to go forth to, a mark for each observer and the budget.
/// The observers themselves are handed to each call that tells them, always the same ones in the
/// same order.
#[derive(Drop)]
pub struct Session {
    desk: Desk,
    budget: u32,
    enabled: Vec<bool>,
}

impl Model for Session {
    ghost use Rattle.std.specs.Prelude.{◌≤◌, vec_len};
    ghost use Rattle.std.specs.Coded.{codes};
    ghost use Rattle.session_rules.specs.Session.{PlainSession};
    ghost use Rattle.desk.specs.Desk.{IsClosed};
    ghost use Rattle.emh_base.specs.Places.{places_code};

    ghost Value = { PlainSession };

    ghost coded = { Prim.hlevel (codes, places_code) };

    ghost view = { λ s. record {
      past = s.desk.past;
      now = s.desk.state;
      future = s.desk.future;
      enabled = s.enabled.items;
      budget = s.budget;
    } };

    ghost invariant = { λ s. record {
      closed : IsClosed s.desk;
      budget : s.budget ≤ 100000;
      few : vec_len s.enabled ≤ 64;
    } };
}

impl Session {
    /// A session on a desk on which nothing was done yet. Observers may add `budget` changes to a
    /// command, at most 100,000. There are `watchers` observers, at most 64, of which none is
    /// enabled.
    pub fn open(alloc: Global, desk: Desk, budget: u32, watchers: u32) -> Result<Session, NoMemory>
        requires closed { IsClosed desk }
        requires past { desk.past ≡ [] }
        requires future { desk.future ≡ [] }
        requires budget { budget ≤ 100000 }
        requires watchers { watchers ≤ 64 }
        ensures session { IfOk result (λ session. session ≡ record {
          past = [];
          now = desk.state;
          future = [];
          enabled = replicate watchers false;
          budget = budget;
        }) }
        ensures watchers { IfOk result (λ session. length session.enabled ≡ watchers) }
    {
        let mut enabled = Vec::new(alloc);
        enabled.resize(watchers as usize, false)?;
        Ok(Session {
            desk,
            budget,
            enabled,
        })
    }

    /// Does an edit of the user and tells the observers of it, who may answer with edits, and so on
    /// until all are told. After each refusal all is as before.
    pub fn command(
        &mut self,
        edit: Edit,
        watch: &[Box<dyn Observer>],
    ) -> Result<Accepted, CommandFault>
        requires { length watch.now ≡ length self.old.enabled }
        ensures answers { let wanted = map (λ b. wants b) watch.now in
            AnswersCommand (react wanted self.old.enabled self.old.budget self.old.now edit)
            self.old result self.new }
        ensures placed { let wanted = map (λ b. wants b) watch.now in
            StaysPlaced (react wanted self.old.enabled self.old.budget self.old.now edit)
            self.old.now self.new.now }
        ensures marks { self.new.enabled ≡ self.old.enabled }
    {
        run_command(
            &mut self.desk,
            self.budget,
            edit,
            self.enabled.as_slice(),
            watch,
        )
    }

    /// Goes back to the state before the last command. Observers aren't told.
    pub fn undo(&mut self) -> Result<(), NothingToUndo>
        ensures ok { OnOk result (Undoes self.old self.new) }
        ensures none { OnErr result ((self.old.past ≡ []) × (self.new ≡ self.old)) }
        ensures marks { self.new.enabled ≡ self.old.enabled }
    {
        if self.desk.past_len() == 0 {
            return Err(NothingToUndo);
        }
        self.desk.undo();
        Ok(())
    }

    /// Goes forth to the state that was gone back from last. Observers aren't told.
    pub fn redo(&mut self) -> Result<(), NothingToRedo>
        ensures ok { OnOk result (Redoes self.old self.new) }
        ensures none { OnErr result ((self.old.future ≡ []) × (self.new ≡ self.old)) }
        ensures marks { self.new.enabled ≡ self.old.enabled }
    {
        if self.desk.future_len() == 0 {
            return Err(NothingToRedo);
        }
        self.desk.redo();
        Ok(())
    }

    /// Enables every observer of a name.
    pub fn observe(
        &mut self,
        name: &[u8],
        watch: &[Box<dyn Observer>],
    ) -> Result<(), NoSuchObserver>
        requires { length watch.now ≡ length self.old.enabled }
        ensures answers { let names = map (λ b. called b) watch.now in
            AnswersMark name.now true names self.old result self.new }
        ensures as_many { length self.new.enabled ≡ length self.old.enabled }
    {
        self.set_marks(name, true, watch)
    }

    /// No observer of a name is told any more.
    pub fn ignore(&mut self, name: &[u8], watch: &[Box<dyn Observer>]) -> Result<(), NoSuchObserver>
        requires { length watch.now ≡ length self.old.enabled }
        ensures answers { let names = map (λ b. called b) watch.now in
            AnswersMark name.now false names self.old result self.new }
        ensures as_many { length self.new.enabled ≡ length self.old.enabled }
    {
        self.set_marks(name, false, watch)
    }

    fn set_marks(
        &mut self,
        name: &[u8],
        on: bool,
        watch: &[Box<dyn Observer>],
    ) -> Result<(), NoSuchObserver>
        requires { length watch.now ≡ length self.old.enabled }
        ensures answers { let names = map (λ b. called b) watch.now in
            AnswersMark name.now on names self.old result self.new }
        ensures as_many { length self.new.enabled ≡ length self.old.enabled }
    {
        if mark_named(self.enabled.as_mut_slice(), name, on, watch) {
            return Ok(());
        }
        Err(NoSuchObserver)
    }

    /// The desk, on which no command is open.
    pub fn desk(&self) -> &Desk
        ensures closed { IsClosed result.now }
        ensures past { result.now.past ≡ self.now.past }
        ensures now { result.now.state ≡ self.now.now }
        ensures future { result.now.future ≡ self.now.future }
    {
        &self.desk
    }

    /// Whether the observer at a place, counted from 0, is enabled.
    pub fn is_enabled(&self, k: u32) -> bool
        requires { k < length self.now.enabled }
        ensures { slice_get self.now.enabled k ≡ Some result }
    {
        self.enabled[k as usize]
    }
}
