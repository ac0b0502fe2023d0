// Several races, polled in turn.
ghost use Rattle.std.specs.Prelude.{◌≡◌, ◌≤◌, false, length, IfOk};
ghost use Rattle.std.specs.List.{AllByRecursion, AllZip};
ghost use Rattle.poll_batch.specs.View.{Gives};
ghost use Rattle.poll_batch.specs.Batch.{IsOrder};

use crate::PollRace;
use crate::anew::{kept_of, run_anew};
use containers::ListOf;
use containers::memory::Memory;
use poll_run::{Driver, TurnsError, drive_in_turns};
use race::RaceError;
use race_outcome::RaceEnd;
use std::alloc::Global;
use std::sync::Wait;
use std::thread::Threads;
use step_encoding::form::StepForm;

/// Races in a row. Contracts see the list of them.
pub type Races<'a, F> = ListOf<PollRace<'a, F>>;

/// What races came to. Contracts see the list of their ends.
pub type Ends = ListOf<Result<RaceEnd, RaceError>>;

/// Drives at most 16 races that were not polled yet to their ends, by one future that polls them in the order of `turns`, which
/// has each place of the list once, counted from 0. `Ok` gives the ends in the order of the list, each that of the defined race,
/// for every slice, every `turns` and every driver: where the driver fails, each race is run anew by `race`, with one worker. It
/// may wait.
pub fn batch_race<'a, F: StepForm, D: Driver, H: Threads + Wait + Sync>(
    rt: &H,
    alloc: Global,
    driver: &mut D,
    races: Races<'a, F>,
    turns: &[u32],
) -> Result<Ends, Memory>
    requires few { length races ≤ 16 }
    requires live { AllByRecursion (λ race. race.given ≡ false) races }
    requires turns { IsOrder (length races) turns.now }
    ensures ends { IfOk result (λ ends. AllZip (Gives F.StepForm) races.entry ends) }
    ensures later { D.faults driver.old ≤ D.faults driver.new }
{
    let races = races.into_vec();
    let kept = kept_of(alloc, races.as_slice())?;
    match drive_in_turns(alloc, driver, races, turns) {
        Ok(ends) => Ok(Ends::of(ends)),
        Err(TurnsError::Driver) => Ok(Ends::of(run_anew(rt, alloc, kept.as_slice())?)),
        Err(TurnsError::Memory) => Err(Memory),
    }
}
