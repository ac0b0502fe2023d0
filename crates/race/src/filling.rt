//! A race between two rounds in which horizons start. Their runs need not be made.

ghost use Rattle.std.specs.Prelude.{◌≡◌, ◌≤◌, ◌<◌, length, nat_lt, if◌then◌else◌, None, Some, IfSome, IfOk, OnOk};
ghost use Rattle.horizon_rates.specs.Horizons.{listed};
ghost use Rattle.goal_choice.specs.Means.{gathered_of};
ghost use Rattle.step_encoding.specs.{Limits.planner_literals, Numbers.literals_of};
ghost use Rattle.horizon_run.specs.Run.{choice_of};
ghost use Rattle.race.specs.Begun.{IsGranted};
ghost use Rattle.race.specs.own.Fresh.{IsFreshOf};
ghost use Rattle.race.specs.Input.{RaceInput};
ghost use Rattle.race.specs.Runs.{conflicts_of, AreLow, MayAdvance};
ghost use Rattle.race.specs.own.Filling.{racing_of, IsSame};
ghost use Rattle.race.specs.Starts.{started, fitting, filled, too_large};
ghost use Rattle.race.specs.Tied.{race_state, IsTied, KeepsBooks};
ghost use Rattle.horizon_rates.specs.Limits.{last_horizon};

use crate::begun::{Begun, Opening};
use crate::fresh::fresh_run;
use crate::grant::grant_all;
use crate::racing::Racing;
use crate::work::started_all;
use containers::memory::Memory;
use goal_choice::Supporters;
use gt_core::task::Task;
use horizon_rates::{Ledger, Rates, Window};
use horizon_run::{HorizonRun, Started};
use race_outcome::Line;
use std::alloc::Global;
use step_encoding::form::StepForm;
use step_encoding::limits::PLANNER_LITERALS;

/// A race between two rounds, as `Racing` has it, with runs that need not be made.
#[derive(Drop)]
pub(crate) struct Filling {
    pub(crate) window: Window,
    pub(crate) ledger: Ledger,
    pub(crate) last: u32,
    pub(crate) runs: Vec<Started>,
    pub(crate) lines: Vec<Line>,
    pub(crate) rounds: u64,
    pub(crate) ended: Vec<HorizonRun>,
}

impl Filling {
    /// A race in which horizons are to start.
    pub(crate) fn of(alloc: Global, racing: Racing) -> Result<Filling, Memory>
        ensures { IfOk result (λ filling. IsSame racing (racing_of filling)) }
    {
        let Racing {
            window,
            ledger,
            last,
            runs,
            lines,
            rounds,
            ended,
        } = racing;
        Ok(Filling {
            window,
            ledger,
            last,
            runs: started_all(alloc, runs)?,
            lines,
            rounds,
            ended,
        })
    }

    /// The horizon that may start next: the next listed one, where there is a free place and its formula is not too large.
    fn startable<F: StepForm>(&self, form: &F, rates: &Rates) -> Option<u32>
        ghost input: { RaceInput }
        requires tied { IsTied input (racing_of self.now) }
        requires rates { input.rates ≡ rates.now }
        requires formula { input.formula ≡ F.formula_of form.now }
        ensures value { result ≡ (if nat_lt (length self.now.runs.items) input.rates.width then fitting input (listed input.rates self.now.window.next) else None) }
        ensures low { IfSome result (λ h. h ≤ last_horizon) }
        ensures small { IfSome result (λ h. literals_of (F.formula_of form.now h) ≤ planner_literals) }
        ensures listed { IfSome result (λ h. listed self.now.window.rates self.now.window.next ≡ Some h) }
        ensures narrow { IfSome result (λ h. length self.now.window.live < self.now.window.rates.width) }
    {
        if self.window.count() >= rates.width {
            return None;
        }
        let horizon = self.window.next_listed()?;
        if form.size(horizon) > PLANNER_LITERALS {
            return None;
        }
        Some(horizon)
    }

    /// Starts the next listed horizon with its run.
    fn start<F: StepForm>(&mut self, form: &F, horizon: u32, run: Started) -> Result<(), Memory>
        ghost input: { RaceInput }
        requires tied { IsTied input (racing_of self.old) }
        requires low { AreLow self.old.runs.items }
        requires choose { input.choose ≡ (λ h. choice_of (F.task form.now) (F.layout_of form.now h)) }
        requires formula { input.formula ≡ F.formula_of form.now }
        requires run { IsFreshOf F.StepForm form.now horizon run }
        requires horizon { horizon ≤ last_horizon }
        requires small { literals_of (F.formula_of form.now horizon) ≤ planner_literals }
        requires listed { listed self.old.window.rates self.old.window.next ≡ Some horizon }
        requires narrow { length self.old.window.live < self.old.window.rates.width }
        ensures tied { OnOk result (IsTied input (racing_of self.new)) }
        ensures low { OnOk result (AreLow self.new.runs.items) }
        ensures started { OnOk result (race_state (racing_of self.new) ≡ started input horizon (race_state (racing_of self.old))) }
        ensures books { OnOk result (KeepsBooks (racing_of self.old) (racing_of self.new)) }
    {
        // For the proof: the run is that of a horizon of this form.
        let _form = form;
        // For the proof: the run is where so many conflicts have it.
        run.keeps_laws();
        self.window.take_next();
        self.runs.push(run)?;
        self.last = horizon;
        Ok(())
    }

    /// Starts horizons while there are free places.
    pub(crate) fn fill<F: StepForm>(
        &mut self,
        alloc: Global,
        task: &Task,
        supporters: Option<&Supporters>,
        form: &F,
        rates: &Rates,
    ) -> Result<(), Memory>
        ghost input: { RaceInput }
        requires tied { IsTied input (racing_of self.old) }
        requires low { AreLow self.old.runs.items }
        requires rates { input.rates ≡ rates.now }
        requires choose { input.choose ≡ (λ h. choice_of (F.task form.now) (F.layout_of form.now h)) }
        requires formula { input.formula ≡ F.formula_of form.now }
        requires form_of { F.task form.now ≡ task.now }
        requires supporters { IfSome supporters (λ s. s.now ≡ gathered_of (F.task form.now)) }
        ensures tied { OnOk result (IsTied input (racing_of self.new)) }
        ensures low { OnOk result (AreLow self.new.runs.items) }
        ensures filled { OnOk result (race_state (racing_of self.new) ≡ filled input (race_state (racing_of self.old))) }
        ensures books { OnOk result (KeepsBooks (racing_of self.old) (racing_of self.new)) }
    {
        while let Some(horizon) = self.startable(form, rates) {
            let old = self.ended.pop();
            let run = fresh_run(alloc, task, supporters, form, horizon, old)?;
            self.start(form, horizon, run)?;
        }
        Ok(())
    }

    /// The next listed horizon, where none is live.
    pub(crate) fn too_large(&self) -> Option<u32>
        ghost input: { RaceInput }
        requires { IsTied input (racing_of self.now) }
        ensures value { result ≡ too_large input (race_state (racing_of self.now)) }
        ensures low { IfSome result (λ h. h ≤ last_horizon) }
    {
        if !self.runs.is_empty() {
            return None;
        }
        self.window.next_listed()
    }

    /// Sets aside what each run may use. The runs have handled so many conflicts together.
    pub(crate) fn grant(self, alloc: Global, rates: &Rates, used: u64) -> Result<Opening, Memory>
        ghost input: { RaceInput }
        requires tied { IsTied input (racing_of self) }
        requires low { AreLow self.runs.items }
        requires rates { input.rates ≡ rates.now }
        requires used { used ≡ conflicts_of self.runs.items }
        ensures granted { IfOk result (λ o. IsGranted input (racing_of self) o.runs.items o.grants.items o.begun) }
        ensures out { IfOk result (λ o. MayAdvance o.runs.items o.grants.items) }
    {
        let Filling {
            window,
            mut ledger,
            last,
            runs,
            lines,
            rounds,
            // What no horizon that started uses is let go here.
            ended: _,
        } = self;
        let count = window.count();
        let left = ledger.left();
        let grants = grant_all(alloc, &mut ledger, rates, count)?;
        let granted = left - ledger.left();
        let begun = Begun {
            window,
            ledger,
            last,
            lines,
            rounds,
            granted,
            used,
        };
        Ok(Opening {
            begun,
            runs,
            grants,
        })
    }
}
