//! A run that was started. It is made in the first turn that advances it.

ghost use Rattle.std.specs.Prelude.{◌≡◌, ℕ, ◌+◌, ◌≤◌, true, false, IfOk, OnOk, OnErr};
ghost use Rattle.cdcl_defs.specs.Run.{after};
ghost use Rattle.horizon_run.specs.Run.{choice_in, moved_to, AddsUp, IsMoved, IsReached, Stays};

use crate::held::{Held, take};
use crate::{AheadRun, HorizonRun, Unmade};
use containers::let_go;
use containers::memory::Memory;
use std::alloc::Global;
use std::marker::Model;

/// A run that was started: one that is made, or one that is made by whoever advances it first.
pub struct Started {
    pub(crate) held: Held,
    // How many conflicts its solver may be ahead once it is made.
    most: u32,
    pub(crate) horizon: u32,
    alloc: Global,
}

impl Model for Started {
    ghost use Rattle.std.specs.Prelude.{◌≡◌};
    ghost use Rattle.horizon_run.specs.Run.{RunView};
    ghost use Rattle.horizon_run.specs.own.Held.{run_in, HasLaws};

    ghost Value = { RunView };

    ghost view = { λ s. run_in s.held };

    ghost invariant = { λ s. (s.horizon ≡ (run_in s.held).formula.name) × HasLaws s.held };
}

/// All parts are let go in one call, so that a proof has one step for it and not one for each part.
impl Drop for Started {
    fn drop(self) {
        let_go!(self: Started { held, most, horizon, alloc });
    }
}

impl Started {
    /// A run that is not made yet. It may use the tables of a run that ended.
    pub fn unmade(alloc: Global, run: Unmade, old: Option<HorizonRun>) -> Started
        ensures { result ≡ run }
    {
        let horizon = run.horizon();
        Started {
            held: Held::Unmade { run, old },
            most: 0,
            horizon,
            alloc,
        }
    }

    /// A run that is made.
    pub fn of(alloc: Global, run: AheadRun) -> Started
        ensures { result ≡ run }
    {
        let horizon = run.horizon();
        Started {
            held: Held::Made(run),
            most: 0,
            horizon,
            alloc,
        }
    }

    /// The run, whose solver may be so many conflicts ahead from now on.
    pub fn allowed(self, most: u32) -> Started
        ensures { result ≡ self }
    {
        let Started {
            held,
            most: _,
            horizon,
            alloc,
        } = self;
        Started {
            held: held.allowed(most),
            most,
            horizon,
            alloc,
        }
    }

    /// The run, made.
    pub fn made(self) -> Result<AheadRun, Memory>
        ensures { IfOk result (λ run. run ≡ self) }
    {
        let Started {
            held,
            most,
            horizon: _,
            alloc,
        } = self;
        held.made(alloc, most)
    }

    /// What holds of every run, wherever it is.
    pub fn keeps_laws(&self)
        ensures moved { self.now.spoilt ≡ false → IsMoved self.now }
        ensures reached { (k : ℕ) → IsReached (choice_in self.now) self.now.formula k }
        ensures settled { Stays (choice_in self.now) self.now.formula }
    {
        self.held.keeps_laws();
    }

    /// Goes on until it is settled or has handled so many more conflicts, made first where it is not. After want of memory it is
    /// spoilt: it then answers `Memory` and stays as it is.
    pub(crate) fn go_on(&mut self, conflicts: u32) -> Result<(), Memory>
        requires { self.old.granted + conflicts ≤ 1073741824 }
        ensures moved { OnOk result (self.new ≡ moved_to self.old (self.old.granted + conflicts)) }
        ensures after { OnOk result (self.new.state ≡ after (choice_in self.old) self.old.state conflicts) }
        ensures adds_up { OnOk result (AddsUp (choice_in self.old) self.old.formula) }
        ensures sane { OnOk result (self.old.spoilt ≡ false) }
        ensures spoilt { OnErr result (self.new.spoilt ≡ true) }
        ensures granted { OnErr result (self.new.granted ≡ self.old.granted) }
        ensures formula { self.new.formula ≡ self.old.formula }
        ensures means { self.new.means ≡ self.old.means }
        ensures stays { self.old.spoilt ≡ true → self.new ≡ self.old }
    {
        self.keeps_laws();
        let held = take(&mut self.held);
        let mut run = held.made(self.alloc, self.most)?;
        let gone = run.go_on(conflicts);
        self.held = Held::Made(run);
        gone
    }
}
