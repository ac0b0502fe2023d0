//! How a round begins: horizons start while there are free places.

ghost use Rattle.std.specs.Prelude.{◌≡◌, IfSome, IfOk, IfErr};
ghost use Rattle.goal_choice.specs.Means.{gathered_of};
ghost use Rattle.horizon_run.specs.Run.{choice_of};
ghost use Rattle.race.specs.{Begun.IsBegun, Begun.TellsLarge, Input.RaceInput, Input.input_of, Runs.MayAdvance, Tied.IsBetween};

use crate::begun::Opening;
use crate::error::RaceError;
use crate::filling::Filling;
use crate::racing::Racing;
use goal_choice::Supporters;
use gt_core::task::Task;
use horizon_rates::Settings;
use std::alloc::Global;
use step_encoding::form::StepForm;

impl Racing {
    /// How a round begins, by a race's input: horizons start, and what each run may use is set aside.
    pub(crate) fn open<F: StepForm>(
        self,
        alloc: Global,
        task: &Task,
        supporters: Option<&Supporters>,
        form: &F,
        settings: &Settings,
    ) -> Result<Opening, RaceError>
        ghost input: { RaceInput }
        requires between { IsBetween input self }
        requires rates { input.rates ≡ settings.now.rates }
        requires choose { input.choose ≡ (λ h. choice_of (F.task form.now) (F.layout_of form.now h)) }
        requires formula { input.formula ≡ F.formula_of form.now }
        requires form_of { F.task form.now ≡ task.now }
        requires supporters { IfSome supporters (λ s. s.now ≡ gathered_of (F.task form.now)) }
        ensures begun { IfOk result (λ o. IsBegun input o.runs.items o.grants.items o.begun) }
        ensures rounds { IfOk result (λ o. o.begun.rounds ≡ self.rounds) }
        ensures out { IfOk result (λ o. MayAdvance o.runs.items o.grants.items) }
        ensures large { IfErr result (TellsLarge input) }
    {
        let used = self.used();
        let mut filling = Filling::of(alloc, self)?;
        filling.fill(alloc, task, supporters, form, &settings.rates)?;
        if let Some(horizon) = filling.too_large() {
            let count = form.size(horizon);
            return Err(RaceError::Literals { horizon, count });
        }
        Ok(filling.grant(alloc, &settings.rates, used)?)
    }

    /// Begins a round: horizons start while there are free places, and what each run may use is set aside. The runs go out, each to
    /// be advanced by the grant at its place.
    ///
    /// `Literals` comes where no horizon is live and the formula of the next listed one is too large; it is told with how many
    /// literals that has. `Memory` is want of memory.
    pub fn begin<F: StepForm>(
        self,
        alloc: Global,
        task: &Task,
        form: &F,
        settings: &Settings,
    ) -> Result<Opening, RaceError>
        requires between { IsBetween (input_of F.StepForm form.now settings.now) self }
        requires form_of { F.task form.now ≡ task.now }
        ensures begun { IfOk result (λ o. IsBegun (input_of F.StepForm form.now settings.now) o.runs.items o.grants.items o.begun) }
        ensures rounds { IfOk result (λ o. o.begun.rounds ≡ self.rounds) }
        ensures out { IfOk result (λ o. MayAdvance o.runs.items o.grants.items) }
        ensures large { IfErr result (TellsLarge (input_of F.StepForm form.now settings.now)) }
    {
        self.open(alloc, task, None, form, settings)
    }
}
