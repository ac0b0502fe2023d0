//! The run of a horizon whose solver may be ahead of what was granted: while others of its round are at work, its worker goes on
//! with it. Its clients see it where its grants have it, and no further; so what it tells is the same for every number of workers.
//! The log of a solver that refuted its formula is checked by the call that had it go so far. A run that was started (`Started`) is
//! made in the first turn that advances it, by the worker whose turn that is.
//!
//! ```text
//! let mut run = AheadRun::of(alloc, HorizonRun::new(alloc, task, form, 5)?).allowed(50);
//! run.go_on(50)?;         // 50 conflicts are granted
//! run.work_ahead();       // its solver handles one more, and `conflicts` still tells 50 at most
//! run.go_on(50)?;         // its solver handles 49
//! ```
ghost use Rattle.std.specs.Prelude.{◌≡◌, ℕ, ◌+◌, ◌≤◌, true, false, OnOk, OnErr, IfSome};
ghost use Rattle.cdcl_defs.specs.Run.{after};
ghost use Rattle.horizon_run.specs.Run.{choice_in, moved_to, AddsUp, IsMoved, IsReached, Stays};
ghost use Rattle.horizon_run.specs.own.Resume.{origin};
ghost use Rattle.horizon_run.specs.own.Seen.{IsMarkOf};

use crate::HorizonRun;
use cdcl_defs::standing::Standing;
use containers::let_go;
use containers::memory::Memory;
use rup_check::check::Checked;
use solver_pool::Resume;
use std::alloc::Global;
use std::marker::Model;

// How many conflicts a run may be granted in all.
const MOST_GRANTED: u64 = 1073741824;

/// The run of a horizon, whose solver may have handled more conflicts than were granted. Its clients see it where the granted ones
/// have it.
pub struct AheadRun {
    pub(crate) run: HorizonRun,
    pub(crate) granted: u64,
    // How many conflicts its solver may be ahead.
    pub(crate) most: u32,
    // The mark of its solver's log, once that refuted the formula and there was memory to check it.
    pub(crate) mark: Option<Checked>,
    alloc: Global,
}

impl Model for AheadRun {
    ghost use Rattle.horizon_run.specs.Run.{RunView};
    ghost use Rattle.horizon_run.specs.own.Seen.{seen_of, IsAhead};

    ghost Value = { RunView };

    ghost view = { λ a. seen_of a.run a.granted };

    ghost invariant = { λ a. IsAhead a.run a.granted a.mark };
}

/// All parts are let go in one call, so that a proof has one step for it and not one for each part.
impl Drop for AheadRun {
    fn drop(self) {
        let_go!(self: AheadRun { run, granted, most, mark, alloc });
    }
}

/// The mark of a solver's log, where that refuted its formula. There is none where memory to check it is wanting.
fn mark_of(alloc: Global, run: &HorizonRun) -> Option<Checked>
    ensures { IsMarkOf run.now result }
{
    match run.standing() {
        Standing::Refuted => run.certify(alloc).ok(),
        _ => None,
    }
}

/// Has a solver handle so many conflicts in all, where it has not yet. Its log is checked once it refuted its formula.
fn catch_up(
    alloc: Global,
    run: &mut HorizonRun,
    mark: &mut Option<Checked>,
    target: u64,
) -> Result<(), Memory>
    requires few { target ≤ 1073741824 }
    requires marked { IsMarkOf run.old mark.old }
    ensures marked { IsMarkOf run.new mark.new }
    ensures there { OnOk result (target ≤ run.new.granted) }
    ensures sane { OnOk result (run.old.spoilt ≡ false) }
    ensures sound { OnOk result (run.new.spoilt ≡ false) }
    ensures spoilt { OnErr result (run.new.spoilt ≡ true) }
    ensures rises { run.old.granted ≤ run.new.granted }
    ensures formula { run.new.formula ≡ run.old.formula }
    ensures means { run.new.means ≡ run.old.means }
    ensures stays { run.old.spoilt ≡ true → run.new ≡ run.old }
{
    // For the proof: a refuted run stays where it is.
    let _settled = run.standing();
    if run.spoilt() {
        return Err(Memory);
    }
    let granted = run.granted();
    if target <= granted {
        return Ok(());
    }
    if run.go_on((target - granted) as u32).is_err() {
        *mark = None;
        return Err(Memory);
    }
    if mark.is_none() {
        *mark = mark_of(alloc, run);
    }
    Ok(())
}

impl AheadRun {
    /// A run whose solver is not ahead.
    pub fn of(alloc: Global, run: HorizonRun) -> AheadRun
        ensures { result ≡ run }
    {
        // For the proof: a run that is not spoilt is where its grants have it.
        let _moved = run.standing();
        let granted = run.granted();
        AheadRun {
            run,
            granted,
            most: 0,
            mark: None,
            alloc,
        }
    }

    /// The run, whose solver may be so many conflicts ahead from now on.
    pub fn allowed(self, most: u32) -> AheadRun
        ensures { result ≡ self }
    {
        let mut run = self;
        run.most = most;
        run
    }

    /// The run of its solver, once it is done with: the next run may use its tables.
    pub fn into_run(self) -> HorizonRun {
        let AheadRun {
            run,
            granted: _,
            most: _,
            mark: _,
            alloc: _,
        } = self;
        run
    }

    /// What holds of every run, wherever it is.
    pub(crate) fn keeps_laws(&self)
        ensures moved { self.now.spoilt ≡ false → IsMoved self.now }
        ensures reached { (k : ℕ) → IsReached (choice_in self.now) self.now.formula k }
        ensures settled { Stays (choice_in self.now) self.now.formula }
        ensures adds_up { AddsUp (choice_in self.now) self.now.formula }
    {
        // For the proof: what holds of its solver's run.
        let _laws = self.run.standing();
    }

    /// Goes on until it is settled or has handled so many more conflicts. After want of memory it is spoilt: it then answers
    /// `Memory` and stays as it is.
    pub fn go_on(&mut self, conflicts: u32) -> Result<(), Memory>
        requires { self.old.granted + conflicts ≤ 1073741824 }
        ensures moved { OnOk result (self.new ≡ moved_to self.old (self.old.granted + conflicts)) }
        ensures after { OnOk result (self.new.state ≡ after (choice_in self.old) self.old.state conflicts) }
        ensures sane { OnOk result (self.old.spoilt ≡ false) }
        ensures spoilt { OnErr result (self.new.spoilt ≡ true) }
        ensures granted { OnErr result (self.new.granted ≡ self.old.granted) }
        ensures formula { self.new.formula ≡ self.old.formula }
        ensures means { self.new.means ≡ self.old.means }
        ensures stays { self.old.spoilt ≡ true → self.new ≡ self.old }
        ensures was { self.old.spoilt ≡ false → IsMoved self.old }
        ensures adds_up { AddsUp (choice_in self.old) self.old.formula }
    {
        self.keeps_laws();
        let granted = self.granted + u64::from(conflicts);
        match catch_up(self.alloc, &mut self.run, &mut self.mark, granted) {
            Ok(()) => {
                self.granted = granted;
                Ok(())
            }
            Err(_) => Err(Memory),
        }
    }

    /// How many conflicts the solver has handled once it is one further ahead, where it may be that far.
    fn next_ahead(&self) -> Option<u64>
        ensures { IfSome result (λ target. target ≤ 1073741824) }
    {
        let handled = self.run.granted();
        if handled >= MOST_GRANTED
            || handled - self.granted >= u64::from(self.most)
            || !self.run.unsettled()
        {
            return None;
        }
        Some(handled + 1)
    }

    /// Has the solver handle so many conflicts in all. Says whether there was memory for them.
    fn handle_ahead(&mut self, target: u64) -> bool
        requires { target ≤ 1073741824 }
        ensures formula { self.new.formula ≡ self.old.formula }
        ensures origin { origin self.new ≡ origin self.old }
        ensures granted { self.new.granted ≡ self.old.granted }
        ensures same { self.new.spoilt ≡ false → self.new ≡ self.old }
    {
        match catch_up(self.alloc, &mut self.run, &mut self.mark, target) {
            Ok(()) => true,
            Err(_) => false,
        }
    }

    /// Has the solver handle a conflict more, where it may be that far ahead. Says whether it did.
    pub(crate) fn go_ahead(&mut self) -> bool
        ensures formula { self.new.formula ≡ self.old.formula }
        ensures origin { origin self.new ≡ origin self.old }
        ensures granted { self.new.granted ≡ self.old.granted }
        ensures same { self.new.spoilt ≡ false → self.new ≡ self.old }
    {
        match self.next_ahead() {
            Some(target) => self.handle_ahead(target),
            None => false,
        }
    }
}
