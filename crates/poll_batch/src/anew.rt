// Races that are run anew, since their futures are gone.
ghost use Rattle.std.specs.Prelude.{◌≡◌, IfOk};
ghost use Rattle.std.specs.List.{AllByRecursion, AllZip};
ghost use Rattle.poll_batch.specs.Batch.{IsFormed, IsKeptOf, KeptGives};

use crate::PollRace;
use containers::memory::Memory;
use gt_core::task::Task;
use horizon_rates::Settings;
use race::{RaceError, race};
use race_outcome::RaceEnd;
use solver_pool::OpenGate;
use std::alloc::Global;
use std::sync::Wait;
use std::thread::Threads;
use step_encoding::form::StepForm;

/// What a race is about, and by what it is run.
#[derive(Drop)]
pub(crate) struct Kept<'a, F: StepForm> {
    task: &'a Task,
    form: &'a F,
    settings: Settings,
}

/// What each race is about, and by what it is run.
pub(crate) fn kept_of<'a, F: StepForm>(
    alloc: Global,
    races: &[PollRace<'a, F>],
) -> Result<Vec<Kept<'a, F>>, Memory>
    ensures of { IfOk result (λ kept. AllZip (IsKeptOf F.StepForm) races.now kept.items) }
    ensures formed { IfOk result (λ kept. AllByRecursion (IsFormed F.StepForm) kept.items) }
{
    let mut kept = Vec::new(alloc);
    for race in races {
        let task = race.task();
        let form = race.form();
        let settings = race.settings();
        kept.push(Kept {
            task,
            form,
            settings,
        })?;
    }
    Ok(kept)
}

/// Runs each race by `race`, with one worker.
pub(crate) fn run_anew<F: StepForm, H: Threads + Wait + Sync>(
    rt: &H,
    alloc: Global,
    kept: &[Kept<'_, F>],
) -> Result<Vec<Result<RaceEnd, RaceError>>, Memory>
    requires { AllByRecursion (IsFormed F.StepForm) kept.now }
    ensures { IfOk result (λ ends. AllZip (KeptGives F.StepForm) kept.now ends.items) }
{
    let mut ends = Vec::new(alloc);
    for one in kept {
        ends.push(race(rt, alloc, one.task, one.form, &one.settings, &OpenGate))?;
    }
    Ok(ends)
}
