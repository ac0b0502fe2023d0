ghost use Rattle.std.specs.Prelude.{◌≡◌, ℕ, ◌+◌, ◌≤◌, ◌<◌, true, false, IfOk, OnOk, OnErr};
ghost use Rattle.clause_base.specs.{Formula.IsModel, Derivation.IsRefutation, Derivation.IsDerivation};
ghost use Rattle.cdcl_defs.specs.State.{value_of};
ghost use Rattle.cdcl_defs.specs.Run.{after};
ghost use Rattle.cdcl_defs.specs.Sound.{made_true};
ghost use Rattle.rup_check.specs.Certificate.{Certifies};
ghost use Rattle.step_encoding.specs.{Limits.planner_literals, Numbers.literals_of};
ghost use Rattle.horizon_run.specs.Run.{choice_in, choice_of, moved_to, truths_of, IsMoved, IsNew, IsReached, AddsUp, Stays};
ghost use Rattle.horizon_rates.specs.Limits.{last_horizon};

use crate::unmade::Unmade;
use cdcl_core::solver::Solver;
use cdcl_defs::sound_runs::runs_are_sound;
use cdcl_defs::standing::Standing;
use containers::let_go;
use containers::memory::Memory;
use goal_choice::{GoalChooser, Supporters};
use gt_core::task::Task;
use proof_log::log::Log;
use rup_check::check::{CheckError, Checked, check};
use std::alloc::Global;
use std::marker::Model;
use step_encoding::form::StepForm;

/// A solver over the formula of a horizon, and how many conflicts it was granted.
pub struct HorizonRun {
    pub(crate) solver: Solver<GoalChooser>,
    pub(crate) granted: u64,
}

impl Model for HorizonRun {
    ghost use Rattle.goal_choice.specs.Choice.{choice_by};
    ghost use Rattle.horizon_run.specs.Run.{RunView, IsRun};

    ghost Value = { RunView };

    ghost view = { λ r. record {
      formula = r.solver.formula;
      means = r.solver.chooser;
      state = r.solver.state;
      granted = r.granted;
      spoilt = r.solver.spoilt;
    } };

    ghost invariant = { λ r. IsRun (choice_by r.solver.chooser) r.solver.formula r.solver.state r.granted r.solver.spoilt };
}

/// All parts are let go in one call, so that a proof has one step for it and not one for each part.
impl Drop for HorizonRun {
    fn drop(self) {
        let_go!(self: HorizonRun { solver, granted });
    }
}

impl HorizonRun {
    /// The run of a horizon before its first conflict.
    pub fn new<F: StepForm>(
        alloc: Global,
        task: &Task,
        form: &F,
        n: u32,
    ) -> Result<HorizonRun, Memory>
        requires form_of { F.task form.now ≡ task.now }
        requires horizon { n ≤ last_horizon }
        requires size { literals_of (F.formula_of form.now n) ≤ planner_literals }
        ensures start { IfOk result (λ run. IsNew run) }
        ensures formula { IfOk result (λ run. run.formula ≡ F.formula_of form.now n) }
        ensures choice { IfOk result (λ run. choice_in run ≡ choice_of task.now (F.layout_of form.now n)) }
    {
        let supporters = Supporters::new(alloc, task)?;
        Unmade::sharing(alloc, &supporters, form, n)?.made(alloc, None)
    }

    /// Its solver, whose tables the next run may use.
    pub(crate) fn into_solver(self) -> Solver<GoalChooser> {
        let HorizonRun { solver, granted: _ } = self;
        solver
    }

    /// What holds of every run, wherever it is.
    fn keeps_laws(&self)
        ensures moved { self.now.spoilt ≡ false → IsMoved self.now }
        ensures reached { (k : ℕ) → IsReached (choice_in self.now) self.now.formula k }
        ensures adds_up { AddsUp (choice_in self.now) self.now.formula }
        ensures stays { Stays (choice_in self.now) self.now.formula }
    {
        let _ = &self.solver;
        runs_are_sound();
    }

    /// Goes on until it is settled or has handled so many more conflicts. After want of memory it is spoilt: it then answers
    /// `Memory` and stays as it is.
    pub fn go_on(&mut self, conflicts: u32) -> Result<(), Memory>
        requires { self.old.granted + conflicts ≤ 1073741824 }
        ensures moved { OnOk result (self.new ≡ moved_to self.old (self.old.granted + conflicts)) }
        ensures after { OnOk result (self.new.state ≡ after (choice_in self.old) self.old.state conflicts) }
        ensures sane { OnOk result (self.old.spoilt ≡ false) }
        ensures rises { OnOk result (self.old.state.conflicts ≤ self.new.state.conflicts) }
        ensures within { OnOk result (self.new.state.conflicts ≤ self.old.state.conflicts + conflicts) }
        ensures spoilt { OnErr result (self.new.spoilt ≡ true) }
        ensures granted { OnErr result (self.new.granted ≡ self.old.granted) }
        ensures formula { self.new.formula ≡ self.old.formula }
        ensures means { self.new.means ≡ self.old.means }
        ensures stays { self.old.spoilt ≡ true → self.new ≡ self.old }
        ensures adds_up { AddsUp (choice_in self.old) self.old.formula }
    {
        self.keeps_laws();
        if self.solver.is_spoilt() {
            return Err(Memory);
        }
        self.solver.advance(conflicts)?;
        self.granted += u64::from(conflicts);
        Ok(())
    }

    /// How far it is.
    pub fn standing(&self) -> Standing
        ensures value { result ≡ self.now.state.standing }
        ensures spoilt { self.now.spoilt ≡ true → result ≡ Standing.Going }
        ensures moved { self.now.spoilt ≡ false → IsMoved self.now }
        ensures reached { (k : ℕ) → IsReached (choice_in self.now) self.now.formula k }
        ensures settled { Stays (choice_in self.now) self.now.formula }
        ensures adds_up { AddsUp (choice_in self.now) self.now.formula }
    {
        self.keeps_laws();
        self.solver.standing()
    }

    /// How many conflicts it has handled. Its log is a derivation, of a spoilt run too.
    pub fn conflicts(&self) -> u64
        ensures value { result ≡ self.now.state.conflicts }
        ensures few { result ≤ 1073741824 }
        ensures derivation { IsDerivation self.now.formula.variables self.now.formula.clauses self.now.state.log }
    {
        // For the proof: the log is a derivation, with at most two entries for a conflict.
        let _log = self.solver.log();
        self.solver.conflicts()
    }

    /// What its solver learned and dropped so far, in order: a derivation, of a spoilt run too. It takes no memory.
    pub fn log(&self) -> &Log
        ensures value { result.now ≡ self.now.state.log }
        ensures derivation { IsDerivation self.now.formula.variables self.now.formula.clauses self.now.state.log }
    {
        self.solver.log()
    }

    /// The value of a variable, if it has one.
    pub fn value(&self, v: u32) -> Option<bool>
        requires { v < self.now.formula.variables }
        ensures { result ≡ value_of self.now.state.trail v }
    {
        self.solver.value(v)
    }

    /// Whether a variable is true.
    fn is_true(&self, v: u32) -> bool
        requires { v < self.now.formula.variables }
        ensures { result ≡ made_true self.now.state.trail v }
    {
        matches!(self.solver.value(v), Some(true))
    }

    /// The values of a found run, variable by variable.
    pub fn values(&self, alloc: Global) -> Result<Vec<bool>, Memory>
        requires { self.now.state.standing ≡ Standing.Found }
        ensures values { IfOk result (λ values. values.items ≡ truths_of self.now.formula self.now.state) }
        ensures model { IsModel self.now.formula (truths_of self.now.formula self.now.state) }
    {
        // For the proof: a found state satisfies the formula.
        let _found = self.solver.standing();
        // For the proof: the formula's literals are of its variables.
        let _variables = self.solver.formula().variables();
        let mut values = Vec::new(alloc);
        for v in 0..self.solver.formula().variables() {
            values.push(self.is_true(v))?;
        }
        Ok(values)
    }

    /// The mark of a refuted run: its log, checked. The marked formula has no model.
    pub fn certify(&self, alloc: Global) -> Result<Checked, Memory>
        requires { self.now.state.standing ≡ Standing.Refuted }
        ensures certified { IfOk result (λ checked. Certifies checked self.now.formula self.now.state.log) }
        ensures refutation { IsRefutation self.now.formula.variables self.now.formula.clauses self.now.state.log }
    {
        // For the proof: the log of a refuted run ends with the empty clause.
        let _refuted = self.solver.standing();
        // For the proof: as many clauses were learned as there were conflicts.
        let _counted = self.solver.conflicts();
        let formula = self.solver.formula();
        // For the proof: a formula has at most 1,073,741,824 clauses.
        let _few = formula.count();
        match check(alloc, formula, self.solver.log()) {
            Ok(checked) => Ok(checked),
            Err(CheckError::Memory) => Err(Memory),
            Err(_) => unreachable!(),
        }
    }
}
