//! A lamp that is off and cannot be on without a step, and one that is on: the race of horizon 0 of each, in a batch.
ghost use Rattle.std.specs.Prelude.{◌≡◌, false, length};
ghost use Rattle.std.specs.List.{AllByRecursion};
ghost use Rattle.gt_core.specs.Published.{IsPublished};
ghost use Rattle.poll_batch.specs.Batch.{IsOrder};

use super::lamps::{Ground, form_of, grounded};
use super::seen::holds;
use gt_core::task::Task;
use horizon_rates::{Algorithm, Rates};
use poll_batch::{BlockOn, Driver, NoDriver, PollRace, Races, batch_race};
use race::RaceError;
use race_outcome::{Line, LineEnd, RaceEnd};
use std::alloc::{AllocGlobal, Global};
use std::process::Abort;
use std::random::RandomSource;
use std::sync::Wait;
use std::thread::Threads;
use step_encoding::form::StepForm;

const HORIZON_0: Rates = Rates {
    algorithm: Algorithm::A,
    width: 4,
    quota: 50,
    percent: 50,
    growth: 150,
    start: 0,
    max: 0,
};

/// The race of horizon 0 over a form, polled by slices of 10.
pub(crate) fn race_of<'a, F: StepForm>(
    rt: &impl Abort,
    alloc: Global,
    task: &'a Task,
    form: &'a F,
) -> PollRace<'a, F>
    requires { F.task form.now ≡ task.now }
    ensures { result.given ≡ false }
{
    PollRace::new(alloc, task, form, HORIZON_0, 100_000, 10)
        .ok()
        .expect(rt, "memory")
}

/// Two races in a row.
pub(crate) fn two_of<'a, F: StepForm>(
    rt: &impl Abort,
    alloc: Global,
    first: PollRace<'a, F>,
    second: PollRace<'a, F>,
) -> Races<'a, F>
    requires first { first.given ≡ false }
    requires second { second.given ≡ false }
    ensures two { length result ≡ 2 }
    ensures live { AllByRecursion (λ race. race.given ≡ false) result }
{
    let mut races = Races::new(alloc);
    races.push(first).expect(rt, "memory");
    races.push(second).expect(rt, "memory");
    races
}

/// Whether a race has one line, of horizon 0, with so many conflicts, that is refuted, or found.
fn has_one_line(lines: &[Line], conflicts: u64, refuted: bool) -> bool {
    match lines {
        [line] => {
            let is_end = match line.end {
                LineEnd::Refuted(_) => refuted,
                LineEnd::Found => !refuted,
                _ => false,
            };
            is_end && line.horizon == 0 && line.conflicts == conflicts
        }
        _ => false,
    }
}

/// Whether the race of the lamp that is off ended as it has to: horizon 0, which is the last one, is refuted by one conflict.
fn is_exhausted(end: &Result<RaceEnd, RaceError>) -> bool {
    match end {
        Ok(RaceEnd::Exhausted { horizon: 0, lines }) => has_one_line(lines.as_slice(), 1, true),
        _ => false,
    }
}

/// Whether that of the lamp that is on did: horizon 0 has a plan.
fn is_planned(end: &Result<RaceEnd, RaceError>) -> bool {
    match end {
        Ok(
            RaceEnd::Plan {
                horizon: 0,
                lines,
                ..
            },
        ) => has_one_line(lines.as_slice(), 0, false),
        _ => false,
    }
}

/// Whether the races end as they do one by one.
fn are_ended(ends: &[Result<RaceEnd, RaceError>]) -> bool {
    match ends {
        [off, on] => is_exhausted(off) && is_planned(on),
        _ => false,
    }
}

/// Two races end so.
pub(crate) fn end_over<F: StepForm + Sync, D: Driver, H: Threads + Wait + Sync + Abort>(
    rt: &H,
    alloc: Global,
    driver: &mut D,
    races: Races<'_, F>,
    turns: &[u32],
)
    requires two { length races ≡ 2 }
    requires live { AllByRecursion (λ race. race.given ≡ false) races }
    requires turns { IsOrder 2 turns.now }
{
    let ends = batch_race(rt, alloc, driver, races, turns)
        .ok()
        .expect(rt, "memory");
    holds(rt, are_ended(ends.as_slice()));
}

/// The races of two lamps do.
fn end_for<D: Driver, H: Threads + Wait + Sync + Abort>(
    rt: &H,
    alloc: Global,
    driver: &mut D,
    off: &Ground,
    on: &Ground,
    turns: &[u32],
)
    requires off { IsPublished off.now.task off.now.pairs.clauses off.now.order }
    requires on { IsPublished on.now.task on.now.pairs.clauses on.now.order }
    requires turns { IsOrder 2 turns.now }
{
    let off_form = form_of(rt, alloc, off);
    let on_form = form_of(rt, alloc, on);
    let first = race_of(rt, alloc, &off.task, &off_form);
    let second = race_of(rt, alloc, &on.task, &on_form);
    let races = two_of(rt, alloc, first, second);
    end_over(rt, alloc, driver, races, turns);
}

/// The races of a lamp that is off and one that is on do.
fn end<D: Driver, H: Threads + Wait + Sync + Abort>(
    rt: &H,
    alloc: Global,
    driver: &mut D,
    turns: &[u32],
)
    requires { IsOrder 2 turns.now }
{
    let off = grounded(rt, alloc, false);
    let on = grounded(rt, alloc, true);
    end_for(rt, alloc, driver, &off, &on, turns);
}

/// The same over `block_on`.
fn end_blocked<H: Threads + Wait + Sync + RandomSource + AllocGlobal + Abort>(rt: &H, turns: &[u32])
    requires { IsOrder 2 turns.now }
{
    end(rt, rt.alloc(), &mut BlockOn::new(rt), turns);
}

#[test]
fn ends_are_the_same_for_both_drivers_and_orders(rt: HostRuntime) {
    end_blocked(&rt, &[0, 1]);
    end_blocked(&rt, &[1, 0]);
    end(&rt, rt.alloc(), &mut NoDriver::new(), &[0, 1]);
}
