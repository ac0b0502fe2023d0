//! What the files of a batch come to.
ghost use Rattle.std.specs.Prelude.{◌≡◌, ◌≤◌, ◌∷◌, List, Option, length, IfOk};
ghost use Rattle.std.specs.List.{AllByRecursion, AllZip};
ghost use Rattle.plan_endings.specs.Ending.{batch_of};
ghost use Rattle.plan_endings.specs.declared.ending.Ending.{Ending};
ghost use Rattle.plan_top.specs.own.Parts.{IsShort, IsSound, CameTo, AnswersRun, AnswersBatch, open_in, woven};
ghost use Rattle.plan_endings.specs.Ends.{EndsAs, OnlyMemory};

use crate::Ending;
use crate::parts::{Run, parts_of};
use crate::races::raced_all;
use commands::reported::reported;
use horizon_rates::Settings;
use pl_io::Bytes;
use plan_endings::Growing;
use plan_endings::stop::Stop;
use poll_batch::Driver;
use race::RaceError;
use race_outcome::RaceEnd;
use requests::Turns;
use std::alloc::Global;
use std::sync::Wait;
use std::thread::Threads;

/// What a domain and each of at most 16 problems come to, where nothing stands for a file that has more bytes than it may have.
pub fn answer_batch<H: Threads + Wait + Sync, D: Driver>(
    rt: &H,
    alloc: Global,
    driver: &mut D,
    domain: &Option<Bytes>,
    problems: &[Option<Bytes>],
    settings: &Settings,
    turns: Turns,
) -> Result<Ending, Stop>
    requires domain { IsShort domain.now }
    requires problems { AllByRecursion IsShort problems.now × (length problems.now ≤ 16) }
    ensures batch { EndsAs (AnswersBatch settings.now domain.now problems.now) result }
    ensures drives { D.faults driver.old ≤ D.faults driver.new }
{
    let prepared = parts_of(rt, alloc, domain, problems)?;
    let runs = prepared.runs.as_slice();
    let ends = raced_all(rt, alloc, driver, runs, settings, turns)?;
    let reports = reports_of(alloc, runs, ends.as_slice(), settings)?;
    joined(alloc, prepared.into_ended(), reports)
}

// How each run ends, by what its race came to.
fn reports_of(
    alloc: Global,
    runs: &[Run],
    ends: &[Result<RaceEnd, RaceError>],
    settings: &Settings,
) -> Result<Vec<Ending>, Stop>
    requires sound { AllByRecursion IsSound runs.now }
    requires came { AllZip (CameTo settings.now) runs.now ends.now }
    ensures reports { IfOk result (λ reports. AllZip (AnswersRun settings.now) runs.now reports.items) }
    ensures memory { OnlyMemory result }
{
    let mut reports = Vec::new(alloc);
    for place in 0..runs.len() {
        reports.push(report_of(alloc, &runs[place], &ends[place], settings)?)?;
    }
    Ok(reports)
}

// How a run ends, by what its race came to.
fn report_of(
    alloc: Global,
    run: &Run,
    end: &Result<RaceEnd, RaceError>,
    settings: &Settings,
) -> Result<Ending, Stop>
    requires sound { IsSound run.now }
    requires came { CameTo settings.now run.now end.now }
    ensures report { IfOk result (AnswersRun settings.now run.now) }
    ensures memory { OnlyMemory result }
{
    match end {
        Ok(end) => reported(alloc, &run.ready, end, settings),
        Err(RaceError::Literals { horizon, count }) => Ok(Ending::TooLarge {
            horizon: *horizon,
            count: *count,
        }),
        Err(RaceError::Memory) => Err(Stop::Memory),
    }
}

// The ending of a problem, or the next of the others.
fn part_from(end: Option<Ending>, others: &mut Vec<Ending>) -> Ending
    requires { (rest : List _) × (open_in (end ∷ rest) ≡ length others.old.items) }
    ensures woven { (rest : List _) → open_in (end ∷ rest) ≡ length others.old.items → woven (end ∷ rest) others.old.items ≡ result ∷ woven rest others.new.items }
    ensures left { (rest : List _) → open_in (end ∷ rest) ≡ length others.old.items → open_in rest ≡ length others.new.items }
{
    match end {
        Some(end) => end,
        None => others.remove(0),
    }
}

// A batch of these endings, and of the others where there are none.
fn joined(
    alloc: Global,
    ended: Vec<Option<Ending>>,
    mut others: Vec<Ending>,
) -> Result<Ending, Stop>
    requires few { length ended.items ≤ 16 }
    requires enough { open_in ended.items ≡ length others.items }
    ensures batch { IfOk result (λ end. end ≡ batch_of (woven ended.items others.items)) }
    ensures memory { OnlyMemory result }
{
    let mut batch = Growing::new(alloc);
    for end in ended {
        let part = part_from(end, &mut others);
        batch.push(alloc, part)?;
    }
    Ok(batch.end())
}
