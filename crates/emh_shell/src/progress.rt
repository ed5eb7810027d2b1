ghost use Rattle.std.specs.Prelude.{◌≡◌, ◌≤◌, OnOk};
ghost use Rattle.std.specs.Option.{option_copied};
ghost use Rattle.flatten_rules.specs.Sound.{IsSound};
ghost use Rattle.emh_shell.specs.Progress.{at_first, refusing, opening};
ghost use Rattle.emh_shell.specs.inside.Replies.{IsFresh};

use desk::Desk;
use emh_base::{List, NoMemory, Plain};
use emh_session::Session;
use std::alloc::Global;
use std::marker::Model;

/// Where a script stands between two lines: the modules over which netlists are read, the session of the open design,
/// and whether a line was refused so far; and what sessions are begun with.
#[derive(Drop)]
pub struct Progress {
    pub(crate) library: Plain,
    pub(crate) session: Option<Session>,
    pub(crate) has_refused: bool,
    /// How many changes observers may add to a command.
    pub(crate) budget: u32,
    /// How many observers there are.
    pub(crate) watchers: u32,
}

impl Model for Progress {
    ghost use Rattle.std.specs.Prelude.{◌≡◌, ◌≤◌, length, IfSome};
    ghost use Rattle.std.specs.Coded.{codes};
    ghost use Rattle.flatten_rules.specs.Sound.{IsSound};
    ghost use Rattle.emh_base.specs.Places.{places_code};
    ghost use Rattle.emh_shell.specs.Progress as seen;

    ghost Value = { seen.Progress };

    ghost coded = { Prim.hlevel (codes, places_code) };

    ghost view = { λ s. record {
      library = s.library;
      session = s.session;
      has_refused = s.has_refused;
      budget = s.budget;
      watchers = s.watchers;
    } };

    ghost invariant = { λ s. record {
      library : IsSound s.library;
      marks : IfSome s.session (λ session. length session.enabled ≡ s.watchers);
      budget : s.budget ≤ 100000;
      watchers : s.watchers ≤ 64;
    } };
}

impl Progress {
    /// Before the first line: no modules, and no design. Observers may add `budget` changes to a command, at most
    /// 100,000, and there are `watchers` of them, at most 64.
    pub fn new(alloc: Global, budget: u32, watchers: u32) -> Progress
        requires budget { budget ≤ 100000 }
        requires watchers { watchers ≤ 64 }
        ensures { result ≡ at_first budget watchers }
    {
        Progress {
            library: Plain {
                modules: List::new(alloc),
                next_module: 0,
            },
            session: None,
            has_refused: false,
            budget,
            watchers,
        }
    }

    /// The modules over which netlists are read.
    pub fn library(&self) -> &Plain
        ensures value { result.now ≡ self.now.library }
        ensures sound { IsSound self.now.library }
    {
        &self.library
    }

    /// The session of the open design, if there is one.
    pub fn session(&self) -> Option<&Session>
        ensures { option_copied result ≡ self.now.session }
    {
        self.session.as_ref()
    }

    /// Whether a line was refused so far.
    pub fn has_refused(&self) -> bool
        ensures { result ≡ self.now.has_refused }
    {
        self.has_refused
    }

    /// Notes that a line was refused.
    pub fn refuse(&mut self)
        ensures { self.new ≡ refusing self.old }
    {
        self.has_refused = true;
    }

    /// Takes a library in place of the one that was there.
    pub fn set_library(&mut self, library: Plain)
        requires { IsSound library }
        ensures { self.new ≡ record self.old { library = library } }
    {
        self.library = library;
    }

    /// Begins a session on a design, on which nothing was done yet, in place of the one that was open.
    pub(crate) fn open(&mut self, alloc: Global, desk: Desk) -> Result<(), NoMemory>
        requires { IsFresh desk }
        ensures ok { OnOk result (self.new ≡ opening self.old desk.state) }
        ensures watchers { self.new.watchers ≡ self.old.watchers }
    {
        self.session = Some(Session::open(alloc, desk, self.budget, self.watchers)?);
        Ok(())
    }
}
