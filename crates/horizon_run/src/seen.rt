// What clients see of a run.
ghost use Rattle.std.specs.Prelude.{◌≡◌, ℕ, ◌≤◌, true, false, IfOk};
ghost use Rattle.clause_base.specs.{Formula.IsModel, Derivation.IsRefutation};
ghost use Rattle.rup_check.specs.Certificate.{Certifies};
ghost use Rattle.horizon_run.specs.Run.{choice_in, truths_of, AddsUp, IsMoved, IsReached, Stays};
ghost use Rattle.horizon_run.specs.own.Seen.{seen_of, IsBehind};

use crate::{AheadRun, HorizonRun};
use cdcl_defs::standing::Standing;
use containers::memory::Memory;
use rup_check::check::Checked;
use solver_pool::Resume;
use std::alloc::Global;

/// Whether a solver has handled more conflicts than were granted. Then the granted ones lead to a state that goes on.
fn is_ahead(run: &HorizonRun, granted: u64) -> bool
    requires { granted ≤ run.now.granted }
    ensures behind { result ≡ true → IsBehind run.now granted }
    ensures caught_up { result ≡ false → (seen_of run.now granted).state ≡ run.now.state }
{
    // For the proof: where the granted conflicts lead.
    let _laws = run.standing();
    if run.spoilt() {
        return false;
    }
    run.conflicts() > granted
}

impl AheadRun {
    /// Its horizon.
    pub fn horizon(&self) -> u32
        ensures { result ≡ self.now.formula.name }
    {
        self.run.horizon()
    }

    /// Whether it found no memory once.
    pub fn spoilt(&self) -> bool
        ensures { result ≡ self.now.spoilt }
    {
        self.run.spoilt()
    }

    /// How many conflicts it was granted.
    pub fn granted(&self) -> u64
        ensures { result ≡ self.now.granted }
    {
        self.granted
    }

    /// How far it is.
    pub fn standing(&self) -> Standing
        ensures value { result ≡ self.now.state.standing }
        ensures spoilt { self.now.spoilt ≡ true → result ≡ Standing.Going }
        ensures moved { self.now.spoilt ≡ false → IsMoved self.now }
        ensures reached { (k : ℕ) → IsReached (choice_in self.now) self.now.formula k }
        ensures settled { Stays (choice_in self.now) self.now.formula }
        ensures adds_up { AddsUp (choice_in self.now) self.now.formula }
    {
        self.keeps_laws();
        if is_ahead(&self.run, self.granted) {
            return Standing::Going;
        }
        self.run.standing()
    }

    /// How many conflicts it has handled.
    pub fn conflicts(&self) -> u64
        ensures value { result ≡ self.now.state.conflicts }
        ensures few { result ≤ 1073741824 }
    {
        if is_ahead(&self.run, self.granted) {
            return self.granted;
        }
        self.run.conflicts()
    }

    /// Its solver's run, which is no further than the grants have it.
    fn settled_run(&self) -> &HorizonRun
        requires { self.now.state.standing ≡ Standing.Going → ⊥ }
        ensures state { result.now.state ≡ self.now.state }
        ensures formula { result.now.formula ≡ self.now.formula }
    {
        // For the proof: a run whose solver is ahead goes on.
        let _ahead = is_ahead(&self.run, self.granted);
        &self.run
    }

    /// The values of a found run, variable by variable.
    pub fn values(&self, alloc: Global) -> Result<Vec<bool>, Memory>
        requires { self.now.state.standing ≡ Standing.Found }
        ensures values { IfOk result (λ values. values.items ≡ truths_of self.now.formula self.now.state) }
        ensures model { IsModel self.now.formula (truths_of self.now.formula self.now.state) }
    {
        self.settled_run().values(alloc)
    }

    /// The mark of a refuted run: its log, checked, by the worker that advanced it where there was memory. The marked formula has
    /// no model.
    pub fn certify(self, alloc: Global) -> Result<Checked, Memory>
        requires { self.state.standing ≡ Standing.Refuted }
        ensures certified { IfOk result (λ checked. Certifies checked self.formula self.state.log) }
        ensures refutation { IsRefutation self.formula.variables self.formula.clauses self.state.log }
    {
        let mut run = self;
        run.take_mark(alloc)
    }

    /// The mark of a refuted run, as `certify` gives it. The run stays.
    pub fn take_mark(&mut self, alloc: Global) -> Result<Checked, Memory>
        requires { self.old.state.standing ≡ Standing.Refuted }
        ensures certified { IfOk result (λ checked. Certifies checked self.old.formula self.old.state.log) }
        ensures refutation { IsRefutation self.old.formula.variables self.old.formula.clauses self.old.state.log }
        ensures same { self.new ≡ self.old }
    {
        // For the proof: a run whose solver is ahead goes on, so this one's is not.
        let _ahead = is_ahead(&self.run, self.granted);
        match self.mark.take() {
            Some(mark) => Ok(mark),
            None => self.run.certify(alloc),
        }
    }
}
