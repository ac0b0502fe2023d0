//! A race between two rounds, and what its runs come to.

ghost use Rattle.std.specs.Prelude.{◌≡◌, ℕ, ◌<◌, true, length, map, None, Some, slice_get, IfOk, OnOk, IfSome, IfNone};
ghost use Rattle.race.specs.Clears.{is_refuted, any_refuted, cleared};
ghost use Rattle.race.specs.Found.{first_found, is_found, lines};
ghost use Rattle.race.specs.Input.{RaceInput};
ghost use Rattle.race.specs.Lines.{AreLines};
ghost use Rattle.race.specs.Race.{settled, judged};
ghost use Rattle.race.specs.Runs.{conflicts_of, live_run_of, AreLow, AreUnfound};
ghost use Rattle.race.specs.State.{start};
ghost use Rattle.race.specs.Tied.{race_state, IsTied, IsBetween, Stands, HasEnded, Ends};
ghost use Rattle.race_outcome.specs.Ends.{conflicts_in, line_view};

use crate::line::{ended, open};
use crate::work::conflicts_of;
use cdcl_defs::standing::Standing;
use containers::memory::Memory;
use horizon_rates::{Ledger, Settings, Window};
use horizon_run::{AheadRun, HorizonRun};
use race_outcome::{Line, Lines, RaceEnd};
use std::alloc::Global;
use step_encoding::form::StepForm;

/// A race between two rounds.
#[derive(Drop)]
pub struct Racing {
    /// The live horizons.
    pub window: Window,
    /// The budget, and what of it is spent.
    pub ledger: Ledger,
    /// The horizon that was started last.
    pub last: u32,
    /// The runs of the live horizons, rising.
    pub runs: Vec<AheadRun>,
    /// The lines of the horizons that are live no more, rising.
    pub lines: Vec<Line>,
    /// How many rounds ended.
    pub rounds: u64,
    /// Runs that are done with since the last round, whose tables those of the next horizons may use.
    pub ended: Vec<HorizonRun>,
}

/// What a round leads to.
#[derive(Drop)]
pub enum Step {
    /// The race goes on.
    On(Racing),
    /// The race ended.
    End(RaceEnd),
}

/// Whether a run is found.
fn is_found(run: &AheadRun) -> bool
    ensures { result ≡ is_found run.now.state.standing }
{
    matches!(run.standing(), Standing::Found)
}

/// Whether a run is refuted.
fn is_refuted(run: &AheadRun) -> bool
    ensures { result ≡ is_refuted run.now.state.standing }
{
    matches!(run.standing(), Standing::Refuted)
}

/// The place of the first run that is found.
fn find_found(runs: &[AheadRun]) -> Option<usize>
    ensures none { IfNone result (first_found (map live_run_of runs.now) ≡ None) }
    ensures unfound { IfNone result (AreUnfound runs.now) }
    ensures some { IfSome result (λ place. first_found (map live_run_of runs.now) ≡ slice_get (map live_run_of runs.now) place) }
    ensures within { IfSome result (λ place. place < length runs.now) }
    ensures found { IfSome result (λ place. (run : _) → slice_get runs.now place ≡ Some run → run.state.standing ≡ Standing.Found) }
{
    for (place, run) in runs.iter().enumerate() {
        if is_found(run) {
            return Some(place);
        }
    }
    None
}

/// Whether some run is refuted.
fn has_refuted(runs: &[AheadRun]) -> bool
    ensures { result ≡ any_refuted (map live_run_of runs.now) }
{
    for run in runs {
        if is_refuted(run) {
            return true;
        }
    }
    false
}

impl Racing {
    /// The race before its first round. It takes no memory.
    pub fn new(alloc: Global, settings: &Settings) -> Racing
        ensures race { race_state result ≡ start }
        ensures tied { (input : RaceInput) → input.rates ≡ settings.now.rates → input.budget ≡ settings.now.budget → IsTied input result }
        ensures low { AreLow result.runs.items }
        ensures between { (input : RaceInput) → input.rates ≡ settings.now.rates → input.budget ≡ settings.now.budget → IsBetween input result }
        ensures none { result.rounds ≡ 0 }
    {
        Racing {
            window: Window::new(&settings.rates),
            ledger: Ledger::new(settings.budget),
            last: settings.rates.nth(0).unwrap_or(0),
            runs: Vec::new(alloc),
            lines: Vec::new(alloc),
            rounds: 0,
            ended: Vec::new(alloc),
        }
    }

    /// How many conflicts its runs have handled together.
    pub(crate) fn used(&self) -> u64
        ghost input: { RaceInput }
        requires { IsTied input self.now }
        ensures { result ≡ conflicts_of self.now.runs.items }
    {
        // For the proof: there are no more runs than the window is wide.
        let _count = self.window.count();
        conflicts_of(self.runs.as_slice())
    }

    /// Closes the first live horizon, where some live one is refuted.
    fn close_first(&mut self, alloc: Global) -> Result<(), Memory>
        ghost input: { RaceInput }
        requires tied { IsTied input self.old }
        requires unfound { AreUnfound self.old.runs.items }
        requires refuted { any_refuted (map live_run_of self.old.runs.items) ≡ true }
        ensures tied { OnOk result (IsTied input self.new) }
        ensures unfound { OnOk result (AreUnfound self.new.runs.items) }
        ensures cleared { OnOk result (cleared (race_state self.new) ≡ cleared (race_state self.old)) }
        ensures fewer { OnOk result (length self.new.runs.items < length self.old.runs.items) }
        ensures rounds { self.new.rounds ≡ self.old.rounds }
    {
        // For the proof: the live horizons are a window of the listed ones, so they rise.
        let _rising = self.window.count();
        let mut run = self.runs.remove(0);
        let horizon = run.horizon();
        self.window.refute(horizon);
        let line = ended(alloc, &mut run)?;
        self.lines.push(line)?;
        self.ended.push(run.into_run())?;
        Ok(())
    }

    /// Closes the live horizons up to the last refuted one.
    fn close(&mut self, alloc: Global) -> Result<(), Memory>
        ghost input: { RaceInput }
        requires tied { IsTied input self.old }
        requires unfound { AreUnfound self.old.runs.items }
        ensures tied { OnOk result (IsTied input self.new) }
        ensures low { OnOk result (AreLow self.new.runs.items) }
        ensures cleared { OnOk result (race_state self.new ≡ cleared (race_state self.old)) }
        ensures rounds { self.new.rounds ≡ self.old.rounds }
    {
        'closing: while has_refuted(self.runs.as_slice()) {
            self.close_first(alloc)?;
        }
        Ok(())
    }

    /// The lines of all started horizons.
    fn finish(self, alloc: Global) -> Result<Lines, Memory>
        ghost input: { RaceInput }
        requires { IsTied input self }
        ensures told { IfOk result (λ ls. map line_view ls ≡ lines (race_state self)) }
        ensures lines { IfOk result (λ ls. AreLines input ls) }
        ensures sums { IfOk result (λ ls. conflicts_in (map line_view ls) ≡ self.ledger.spent) }
    {
        let Racing {
            window: _,
            ledger: _,
            last: _,
            runs,
            mut lines,
            rounds: _,
            ended: _,
        } = self;
        for run in runs {
            lines.push(open(alloc, run)?)?;
        }
        Ok(Lines::of(lines))
    }

    /// The end with the plan of the run at a place.
    fn plan<F: StepForm>(self, alloc: Global, form: &F, place: usize) -> Result<RaceEnd, Memory>
        ghost input: { RaceInput }
        requires tied { IsTied input self }
        requires formula { input.formula ≡ F.formula_of form.now }
        requires steps { input.steps ≡ F.stands_for form.now }
        requires within { place < length self.runs.items }
        requires first { first_found (map live_run_of self.runs.items) ≡ slice_get (map live_run_of self.runs.items) place }
        requires found { (run : _) → slice_get self.runs.items place ≡ Some run → run.state.standing ≡ Standing.Found }
        ensures ends { IfOk result (λ end. Ends input end (judged input (race_state self))) }
    {
        let run = &self.runs[place];
        let horizon = run.horizon();
        let values = run.values(alloc)?;
        let steps = form.steps_of(alloc, horizon, values.as_slice())?;
        let lines = self.finish(alloc)?;
        Ok(RaceEnd::Plan {
            horizon,
            steps,
            lines,
        })
    }

    /// The end of the race where the last listed horizon is refuted or the budget is spent.
    fn settle(self, alloc: Global, settings: &Settings) -> Result<Step, Memory>
        ghost input: { RaceInput }
        requires tied { IsTied input self }
        requires low { AreLow self.runs.items }
        requires budget { input.budget ≡ settings.now.budget }
        ensures stands { IfOk result (λ step. Stands input step (settled input (race_state self))) }
        ensures rounds { IfOk result (HasEnded self.rounds) }
    {
        if self.window.ended() {
            let horizon = self.last;
            let lines = self.finish(alloc)?;
            return Ok(Step::End(RaceEnd::Exhausted { horizon, lines }));
        }
        if self.ledger.spent() == settings.budget {
            let lines = self.finish(alloc)?;
            return Ok(Step::End(RaceEnd::Unfinished { lines }));
        }
        Ok(Step::On(self))
    }

    /// What a round comes to once its runs are advanced.
    pub(crate) fn judge<F: StepForm>(
        mut self,
        alloc: Global,
        form: &F,
        settings: &Settings,
    ) -> Result<Step, Memory>
        ghost input: { RaceInput }
        requires tied { IsTied input self }
        requires budget { input.budget ≡ settings.now.budget }
        requires formula { input.formula ≡ F.formula_of form.now }
        requires steps { input.steps ≡ F.stands_for form.now }
        ensures stands { IfOk result (λ step. Stands input step (judged input (race_state self))) }
        ensures rounds { IfOk result (HasEnded self.rounds) }
    {
        if let Some(place) = find_found(self.runs.as_slice()) {
            return Ok(Step::End(self.plan(alloc, form, place)?));
        }
        self.close(alloc)?;
        self.settle(alloc, settings)
    }
}
