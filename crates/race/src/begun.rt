//! A round whose runs are advanced elsewhere: by workers, or by polls.

ghost use Rattle.std.specs.Prelude.{◌≡◌, ◌+◌, IfOk};
ghost use Rattle.race.specs.Begun.{race_after, HasRun, Comes};
ghost use Rattle.race.specs.Input.{RaceInput, input_of};
ghost use Rattle.race.specs.Race.{judged};
ghost use Rattle.race.specs.Tied.{race_state, IsTied, Stands, SpendsMore, HasEnded};

use crate::grant::book;
use crate::racing::{Racing, Step};
use crate::work::conflicts_of;
use containers::memory::Memory;
use horizon_rates::{Ledger, Settings, Window};
use horizon_run::{AheadRun, Started};
use race_outcome::Line;
use std::alloc::Global;
use step_encoding::form::StepForm;

/// A race within a round: its runs are out, and what they may use is set aside.
#[derive(Drop)]
pub struct Begun {
    /// The live horizons.
    pub window: Window,
    /// The budget, what of it is spent, and what is set aside.
    pub ledger: Ledger,
    /// The horizon that was started last.
    pub last: u32,
    /// The lines of the horizons that are live no more, rising.
    pub lines: Vec<Line>,
    /// How many rounds ended.
    pub rounds: u64,
    /// How many conflicts the round grants in all.
    pub granted: u64,
    /// How many conflicts its runs had handled together when it began.
    pub used: u64,
}

/// A round as it begins: each run is to be advanced by the grant at its place.
#[derive(Drop)]
pub struct Opening {
    /// The rest of the race.
    pub begun: Begun,
    /// The runs of the live horizons, rising. Those of the horizons that start are made in the first turn that advances them.
    pub runs: Vec<Started>,
    /// How many conflicts each run is granted.
    pub grants: Vec<u32>,
}

impl Begun {
    /// How many conflicts a run may be ahead of its grants: what the next round may grant it.
    pub(crate) fn ahead(&self, settings: &Settings) -> u32 {
        let quota = settings.rates.quota;
        let left = self.ledger.left();
        if left < u64::from(quota) {
            left as u32
        } else {
            quota
        }
    }

    /// The race once its runs are back. What the round used is booked.
    fn close(self, alloc: Global, runs: Vec<AheadRun>) -> Racing
        ghost input: { RaceInput }
        requires { HasRun input self runs.items }
        ensures tied { IsTied input result }
        ensures state { race_state result ≡ race_after self runs.items }
        ensures runs { result.runs.items ≡ runs.items }
        ensures rounds { result.rounds ≡ self.rounds + 1 }
    {
        let Begun {
            window,
            mut ledger,
            last,
            lines,
            rounds,
            granted,
            used,
        } = self;
        let now_used = conflicts_of(runs.as_slice());
        book(&mut ledger, granted, used, now_used);
        Racing {
            window,
            ledger,
            last,
            runs,
            lines,
            rounds: rounds + 1,
            ended: Vec::new(alloc),
        }
    }

    /// What a round comes to, by a race's input.
    fn judge<F: StepForm>(
        self,
        alloc: Global,
        form: &F,
        settings: &Settings,
        runs: Vec<AheadRun>,
    ) -> Result<Step, Memory>
        ghost input: { RaceInput }
        requires run { HasRun input self runs.items }
        requires budget { input.budget ≡ settings.now.budget }
        requires formula { input.formula ≡ F.formula_of form.now }
        requires steps { input.steps ≡ F.stands_for form.now }
        ensures stands { IfOk result (λ step. Stands input step (judged input (race_after self runs.items))) }
        ensures spends { IfOk result (SpendsMore self.ledger.spent) }
        ensures rounds { IfOk result (HasEnded (self.rounds + 1)) }
    {
        self.close(alloc, runs).judge(alloc, form, settings)
    }

    /// Ends a round, once each run is back and was advanced by its grant: the least found horizon has the plan, else the horizons
    /// up to the last refuted one are closed and the race goes on, unless its list or its budget is at the end.
    pub fn end<F: StepForm>(
        self,
        alloc: Global,
        form: &F,
        settings: &Settings,
        runs: Vec<AheadRun>,
    ) -> Result<Step, Memory>
        requires { HasRun (input_of F.StepForm form.now settings.now) self runs.items }
        ensures { IfOk result (Comes F.StepForm form.now settings.now (self.rounds + 1)) }
    {
        // For the proof: the form is lawful, so its laws hold.
        let _lawful = form.size(0);
        self.judge(alloc, form, settings, runs)
    }
}
