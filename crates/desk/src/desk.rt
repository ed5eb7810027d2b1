ghost use Rattle.std.specs.Prelude.{[], ◌≡◌, ◌<◌, ◌≤◌, ◌+◌, Some, IfOk, length, slice_get, option_map, IsSome, IsTrue, ◌↔◌};
ghost use Rattle.flatten_rules.specs.Sound.{IsSound};
ghost use Rattle.flatten_rules.specs.Design.{module_named};
ghost use Rattle.edit_rules.specs.Good.{IsGoodState};
ghost use Rattle.edit_rules.specs.Opening.{open_fault, FaultLooks, top_named};
ghost use Rattle.desk.specs.Desk.{IsClosed, room_of, opened};

use edit_rules::{OpenFault, fit};
use emh_base::{By, Change, ModId, Name, NoMemory, Places, Plain, Settings, State, TryCopy};
use std::marker::Model;

/// A design that is open. Its state is good at every moment. While a command is open, it has the
/// journal of the changes that the command has made, and the state from before them. The states
/// that undo and redo go to are kept whole.
#[derive(Drop)]
pub struct Desk {
    pub(crate) state: State,
    pub(crate) past: Vec<State>,
    pub(crate) future: Vec<State>,
    pub(crate) base: Option<State>,
    pub(crate) journal: Vec<Change>,
    pub(crate) asked: u32,
    pub(crate) budget: u32,
    pub(crate) speaker: By,
}

impl Model for Desk {
    ghost use Rattle.std.specs.Prelude.{◌≡◌, None, vec_len, vec_capacity};
    ghost use Rattle.desk.specs.Desk.{DeskView, IsClosed};
    ghost use Rattle.desk.specs.inside.Room.{AreGood, HasRoom, IsWithin, more};
    ghost use Rattle.std.specs.Coded.{codes};
    ghost use Rattle.emh_base.specs.Places.{places_code};

    ghost Value = { DeskView };

    ghost coded = { Prim.hlevel (codes, places_code) };

    ghost view = { λ d. record {
      state = d.state;
      past = d.past.items;
      future = d.future.items;
      base = d.base;
      journal = d.journal.items;
      asked = d.asked;
      budget = d.budget;
      speaker = d.speaker;
    } };

    ghost invariant = { λ d. record {
      good : AreGood d.state d.past.items d.future.items d.base;
      room : HasRoom (vec_len d.past) (vec_len d.future) (more d.base)
          (vec_capacity d.past) (vec_capacity d.future);
      within : IsWithin (vec_len d.journal) d.asked d.budget;
    } };
}

impl Desk {
    /// Opens a sound table at the module of a name, where nothing refuses it as a top. Nothing is
    /// placed, set or remembered then, and no command is open.
    pub fn open(plain: Plain, top: &Name) -> Result<Desk, OpenFault>
        requires { IsSound plain }
        ensures looks { FaultLooks (open_fault plain (module_named plain top.now)) result }
        ensures ok { IfOk result (λ desk.
            option_map (opened plain) (top_named plain top.now) ≡ Some desk) }
        ensures closed { IfOk result IsClosed }
        ensures past { IfOk result (λ desk. desk.past ≡ []) }
        ensures future { IfOk result (λ desk. desk.future ≡ []) }
    {
        let alloc = plain.modules.alloc();
        let id = fit(alloc, &plain, top)?;
        Ok(Desk {
            state: State {
                plain,
                top: id,
                places: Places::new(alloc),
                settings: Settings {
                    fanout: None,
                    grid: None,
                },
            },
            past: Vec::new(alloc),
            future: Vec::new(alloc),
            base: None,
            journal: Vec::new(alloc),
            asked: 0,
            budget: 0,
            speaker: By::User,
        })
    }

    /// The state.
    pub fn state(&self) -> &State
        ensures value { result.now ≡ self.now.state }
        ensures good { IsGoodState self.now.state }
    {
        &self.state
    }

    /// The module table, copied.
    pub fn plain(&self) -> Result<Plain, NoMemory>
        ensures { IfOk result (λ plain. plain ≡ self.now.state.plain) }
    {
        self.state.plain.copy()
    }

    /// The id of the module at the top.
    pub fn top(&self) -> ModId
        ensures { result ≡ self.now.state.top }
    {
        self.state.top
    }

    pub fn settings(&self) -> Settings
        ensures { result ≡ self.now.state.settings }
    {
        self.state.settings
    }

    /// How many changes the open command has made so far; 0 where none is open.
    pub fn journal_len(&self) -> u32
        ensures value { result ≡ length self.now.journal }
        ensures within { result ≤ room_of self.now }
    {
        self.journal.len() as u32
    }

    /// A change that the open command has made, counted from 0.
    pub fn change(&self, entry: u32) -> &Change
        requires { entry < length self.now.journal }
        ensures { slice_get self.now.journal entry ≡ Some result.now }
    {
        &self.journal[entry as usize]
    }

    /// How many states can be gone back to.
    pub fn past_len(&self) -> usize
        ensures { result ≡ length self.now.past }
    {
        self.past.len()
    }

    /// How many states can be gone forth to.
    pub fn future_len(&self) -> usize
        ensures { result ≡ length self.now.future }
    {
        self.future.len()
    }
}
