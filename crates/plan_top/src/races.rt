//! The races of a batch.
ghost use Rattle.std.specs.Prelude.{◌≡◌, ◌≤◌, ◌<◌, length, IfOk};
ghost use Rattle.std.specs.List.{AllByRecursion, AllZip};
ghost use Rattle.poll_batch.specs.Batch.{IsOrder};
ghost use Rattle.plan_top.specs.own.Parts.{IsSound, IsFormOf, IsRaceOf, CameTo, turn_at};
ghost use Rattle.plan_endings.specs.Ends.{OnlyMemory};

use crate::parts::Run;
use horizon_rates::Settings;
use plan_endings::stop::Stop;
use poll_batch::{Driver, Ends, PollRace, Races, batch_race};
use requests::Turns;
use std::alloc::Global;
use std::sync::Wait;
use std::thread::Threads;
use step_encoding::exists::ExistsForm;

// The form of each run.
fn forms_of<'a>(alloc: Global, runs: &'a [Run]) -> Result<Vec<ExistsForm<'a>>, Stop>
    requires { AllByRecursion IsSound runs.now }
    ensures forms { IfOk result (λ forms. AllZip IsFormOf runs.now forms.items) }
    ensures memory { OnlyMemory result }
{
    let mut forms = Vec::new(alloc);
    for run in runs {
        forms.push(form_of(alloc, run)?)?;
    }
    Ok(forms)
}

// The form of a run.
fn form_of<'a>(alloc: Global, run: &'a Run) -> Result<ExistsForm<'a>, Stop>
    requires { IsSound run.now }
    ensures form { IfOk result (IsFormOf run.now) }
    ensures memory { OnlyMemory result }
{
    let task = run.ready.grounded.task();
    Ok(ExistsForm::new(alloc, task, &run.known.pairs, &run.known.order)?)
}

// The race of each run, which was not polled yet.
fn races_of<'a>(
    alloc: Global,
    runs: &'a [Run],
    forms: &'a [ExistsForm<'a>],
    settings: &Settings,
) -> Result<Vec<PollRace<'a, ExistsForm<'a>>>, Stop>
    requires { AllZip IsFormOf runs.now forms.now }
    ensures races { IfOk result (λ races. AllZip (IsRaceOf settings.now) runs.now races.items) }
    ensures memory { OnlyMemory result }
{
    let mut races = Vec::new(alloc);
    for place in 0..runs.len() {
        let task = runs[place].ready.grounded.task();
        let form = &forms[place];
        let race = PollRace::new(
            alloc,
            task,
            form,
            settings.rates,
            settings.budget,
            settings.slice,
        )?;
        races.push(race)?;
    }
    Ok(races)
}

// The place of this turn among so many.
fn turn_at(turns: Turns, count: u32, turn: u32) -> u32
    requires { turn < count }
    ensures { result ≡ turn_at turns count turn }
{
    match turns {
        Turns::Forward => turn,
        Turns::Backward => count - (turn + 1),
    }
}

// Each place of so many, in the order of the turns.
fn places_in(alloc: Global, count: u32, turns: Turns) -> Result<Vec<u32>, Stop>
    ensures places { IfOk result (λ places. IsOrder count places.items) }
    ensures memory { OnlyMemory result }
{
    let mut places = Vec::new(alloc);
    for turn in 0..count {
        places.push(turn_at(turns, count, turn))?;
    }
    Ok(places)
}

/// What the race of each run comes to; they are polled in turn by one future.
pub fn raced_all<H: Threads + Wait + Sync, D: Driver>(
    rt: &H,
    alloc: Global,
    driver: &mut D,
    runs: &[Run],
    settings: &Settings,
    turns: Turns,
) -> Result<Ends, Stop>
    requires sound { AllByRecursion IsSound runs.now }
    requires few { length runs.now ≤ 16 }
    ensures came { IfOk result (λ ends. AllZip (CameTo settings.now) runs.now ends) }
    ensures memory { OnlyMemory result }
    ensures drives { D.faults driver.old ≤ D.faults driver.new }
{
    let forms = forms_of(alloc, runs)?;
    let races = races_of(alloc, runs, &forms, settings)?;
    let places = places_in(alloc, runs.len() as u32, turns)?;
    let ends = batch_race(rt, alloc, driver, Races::of(races), places.as_slice())?;
    Ok(ends)
}
