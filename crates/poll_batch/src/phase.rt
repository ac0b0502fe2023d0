// Where a polled race is, and what a poll leads to.
ghost use Rattle.std.specs.Prelude.{◌≡◌, false, [], IfOk, IfErr};
ghost use Rattle.futures.specs.Task.{Keeps};
ghost use Rattle.race.specs.Begun.{TellsLarge};
ghost use Rattle.race.specs.Input.{input_of};
ghost use Rattle.race.specs.Tied.{IsBetween};
ghost use Rattle.poll_batch.specs.own.Tied.{is_given, IsWithin, IsTied, Follows};

use crate::round::Round;
use crate::work::works_of;
use containers::memory::Memory;
use futures::task::Context;
use gt_core::task::Task;
use horizon_rates::Settings;
use race::{Opening, RaceError, Racing, Step, jobs_of};
use race_outcome::RaceEnd;
use std::alloc::Global;
use step_encoding::form::StepForm;

/// Where a race is.
#[derive(Drop)]
pub(crate) enum Phase {
    Between(Racing),
    Within(Round),
    // The end was given.
    Given,
}

/// What a poll leads to.
#[derive(Drop)]
pub(crate) enum Next {
    On(Phase),
    End(RaceEnd),
}

/// Puts a phase in the place of one that is over.
pub(crate) fn put(place: &mut Phase, phase: Phase)
    ensures { place.new ≡ phase }
{
    *place = phase;
}

/// Begins a round.
fn begin<F: StepForm>(
    alloc: Global,
    task: &Task,
    form: &F,
    settings: &Settings,
    racing: Racing,
) -> Result<Next, RaceError>
    requires between { IsBetween (input_of F.StepForm form.now settings.now) racing }
    requires form_of { F.task form.now ≡ task.now }
    ensures next { IfOk result (Follows F.StepForm form.now settings.now (Phase.Between racing)) }
    ensures large { IfErr result (TellsLarge (input_of F.StepForm form.now settings.now)) }
{
    let opening = racing.begin(alloc, task, form, settings)?;
    let Opening {
        begun,
        runs,
        grants,
    } = opening;
    let jobs = jobs_of(alloc, runs, grants.as_slice())?;
    let works = works_of(alloc, jobs, settings.slice)?;
    let done = Vec::new(alloc);
    Ok(Next::On(Phase::Within(Round { begun, done, works })))
}

/// Ends a round whose runs are all at their targets.
fn end<F: StepForm>(
    alloc: Global,
    form: &F,
    settings: &Settings,
    round: Round,
) -> Result<Next, Memory>
    requires within { IsWithin settings.now.slice (input_of F.StepForm form.now settings.now) round }
    requires all { round.works.items ≡ [] }
    ensures { IfOk result (Follows F.StepForm form.now settings.now (Phase.Within round)) }
{
    let Round {
        begun,
        done,
        works: _,
    } = round;
    match begun.end(alloc, form, settings, done)? {
        Step::On(racing) => Ok(Next::On(Phase::Between(racing))),
        Step::End(end) => Ok(Next::End(end)),
    }
}

/// Polls the run at hand once, or ends the round where there is none.
fn go_on<F: StepForm>(
    alloc: Global,
    form: &F,
    settings: &Settings,
    mut round: Round,
    cx: &mut Context<'_>,
) -> Result<Next, Memory>
    requires { IsWithin settings.now.slice (input_of F.StepForm form.now settings.now) round }
    ensures next { IfOk result (Follows F.StepForm form.now settings.now (Phase.Within round)) }
    ensures kept { Keeps cx.old cx.new }
{
    if round.works.is_empty() {
        return end(alloc, form, settings, round);
    }
    round.poll_first(form, settings, cx)?;
    Ok(Next::On(Phase::Within(round)))
}

/// Begins a round, polls one live run once, or ends a round.
pub(crate) fn next_phase<F: StepForm>(
    alloc: Global,
    task: &Task,
    form: &F,
    settings: &Settings,
    phase: Phase,
    cx: &mut Context<'_>,
) -> Result<Next, RaceError>
    requires form_of { F.task form.now ≡ task.now }
    requires tied { IsTied settings.now.slice (input_of F.StepForm form.now settings.now) phase }
    requires live { is_given phase ≡ false }
    ensures next { IfOk result (Follows F.StepForm form.now settings.now phase) }
    ensures large { IfErr result (TellsLarge (input_of F.StepForm form.now settings.now)) }
    ensures kept { Keeps cx.old cx.new }
{
    match phase {
        Phase::Between(racing) => begin(alloc, task, form, settings, racing),
        Phase::Within(round) => Ok(go_on(alloc, form, settings, round, cx)?),
        // A race whose end was given is polled no more: the caller's condition.
        Phase::Given => unreachable!(),
    }
}
