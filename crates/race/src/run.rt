//! A race from its first round to its end.

ghost use Rattle.std.specs.Prelude.{◌≡◌, ℕ, ◌+◌, ◌<◌, List, IfOk, IfErr, length};
ghost use Rattle.goal_choice.specs.Means.{gathered_of};
ghost use Rattle.step_encoding.specs.{Limits.planner_literals, Numbers.literals_of};
ghost use Rattle.race_outcome.specs.Ends.{end_view, lines_of};
ghost use Rattle.race.specs.Input.{input_of};
ghost use Rattle.race.specs.Race.{race_of, Ended, TooLarge};
ghost use Rattle.race.specs.Lines.{AreLines, EachRefuted};
ghost use Rattle.race.specs.Ends.{AreStepsOf, SumsWithin, WherePlanned, AreActions};
ghost use Rattle.race.specs.Begun.{Comes, TellsLarge};
ghost use Rattle.race.specs.Tied.{IsBetween};

use crate::begun::Opening;
use crate::error::RaceError;
use crate::racing::{Racing, Step};
use crate::work::advance_all;
use goal_choice::Supporters;
use gt_core::task::Task;
use horizon_rates::Settings;
use race_outcome::RaceEnd;
use solver_pool::Gate;
use std::alloc::Global;
use std::sync::Wait;
use std::thread::Threads;
use step_encoding::form::StepForm;

impl Racing {
    /// One round: it begins, workers make the runs of its new horizons and advance all, and it ends.
    fn round<F: StepForm, G: Gate, H: Threads + Wait + Sync>(
        self,
        rt: &H,
        alloc: Global,
        task: &Task,
        supporters: &Supporters,
        form: &F,
        settings: &Settings,
        gate: &G,
    ) -> Result<Step, RaceError>
        requires between { IsBetween (input_of F.StepForm form.now settings.now) self }
        requires form_of { F.task form.now ≡ task.now }
        requires supporters { supporters.now ≡ gathered_of (F.task form.now) }
        ensures comes { IfOk result (Comes F.StepForm form.now settings.now (self.rounds + 1)) }
        ensures large { IfErr result (TellsLarge (input_of F.StepForm form.now settings.now)) }
    {
        let Opening {
            begun,
            runs,
            grants,
        } = self.open(alloc, task, Some(supporters), form, settings)?;
        let most = begun.ahead(settings);
        let runs = advance_all(rt, alloc, runs, grants.as_slice(), most, settings, gate)?;
        Ok(begun.end(alloc, form, settings, runs)?)
    }
}

/// Runs a race to its end, by as many workers as the settings say. Its end is the same for every number of workers and every
/// slice. It may wait for its threads.
///
/// `Literals` comes where no horizon is live and the formula of the next listed one, which is told with how many literals that has,
/// is too large: so each listed horizon below it is refuted or dropped. `Memory` is want of memory, and nothing else.
pub fn race<F: StepForm, G: Gate, H: Threads + Wait + Sync>(
    rt: &H,
    alloc: Global,
    task: &Task,
    form: &F,
    settings: &Settings,
    gate: &G,
) -> Result<RaceEnd, RaceError>
    requires { F.task form.now ≡ task.now }
    ensures gives { IfOk result (λ end. race_of (input_of F.StepForm form.now settings.now) ≡ Ended (end_view end)) }

    // What its lines say is so, and the horizon of each refuted one has no plan.
    ensures lines { IfOk result (λ end. AreLines (input_of F.StepForm form.now settings.now) (lines_of end)) }
    ensures refuted { IfOk result (λ end. EachRefuted (λ h. (steps : List (List ℕ)) → F.is_plan form.now h steps → ⊥) (lines_of end)) }
    ensures sums { IfOk result (λ end. SumsWithin settings.now.budget end) }

    // The steps of its plan are those that a model of the horizon's formula stands for: a plan of as many steps as the horizon says.
    ensures modelled { IfOk result (λ end. WherePlanned end (AreStepsOf (input_of F.StepForm form.now settings.now))) }
    ensures plan { IfOk result (λ end. WherePlanned end (F.is_plan form.now)) }
    ensures long { IfOk result (λ end. WherePlanned end (λ h steps. length steps ≡ h)) }
    ensures members { IfOk result (λ end. WherePlanned end (λ h steps. AreActions task.now steps)) }

    ensures literals { (horizon count : ℕ) → result ≡ Err (RaceError.Literals horizon count)
        → (race_of (input_of F.StepForm form.now settings.now) ≡ TooLarge horizon) × (count ≡ literals_of (F.formula_of form.now horizon)) × (planner_literals < count) }
{
    let supporters = Supporters::new(alloc, task)?;
    let mut racing = Racing::new(alloc, settings);
    'rounds: loop {
        match racing.round(rt, alloc, task, &supporters, form, settings, gate)? {
            Step::On(next) => racing = next,
            Step::End(end) => return Ok(end),
        }
    }
}
