//! Runs before their first conflict.

ghost use Rattle.std.specs.Prelude.{◌≡◌, IfOk, IfSome};
ghost use Rattle.goal_choice.specs.Means.{gathered_of};
ghost use Rattle.race.specs.own.Fresh.{IsFreshOf, IsSmall};

use containers::memory::Memory;
use goal_choice::Supporters;
use gt_core::task::Task;
use horizon_run::{HorizonRun, Started, Unmade};
use std::alloc::Global;
use step_encoding::form::StepForm;

/// The run of a horizon before its first conflict, not made yet, over supporters that the runs of other horizons share, where
/// there are such, and to be made in the tables of a run that ended, where there is one.
pub(crate) fn fresh_run<F: StepForm>(
    alloc: Global,
    task: &Task,
    supporters: Option<&Supporters>,
    form: &F,
    horizon: u32,
    old: Option<HorizonRun>,
) -> Result<Started, Memory>
    requires form_of { F.task form.now ≡ task.now }
    requires supporters { IfSome supporters (λ s. s.now ≡ gathered_of (F.task form.now)) }
    requires small { IsSmall F.StepForm form.now horizon }
    ensures { IfOk result (IsFreshOf F.StepForm form.now horizon) }
{
    let run = match supporters {
        Some(shared) => Unmade::sharing(alloc, shared, form, horizon)?,
        None => {
            let own = Supporters::new(alloc, task)?;
            Unmade::sharing(alloc, &own, form, horizon)?
        }
    };
    Ok(Started::unmade(alloc, run, old))
}
