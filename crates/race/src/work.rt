// The work of a round: each run is advanced by its grant.
ghost use Rattle.std.specs.Prelude.{◌≡◌, ◌≤◌, false, length, map, IfOk};
ghost use Rattle.std.specs.List.{AllByRecursion};
ghost use Rattle.race.specs.Runs.{conflicts_of, jobs_at, run_at, moved_all, Fits, MayAdvance};

use containers::memory::Memory;
use horizon_rates::Settings;
use horizon_run::{AheadRun, Started};
use solver_pool::{Gate, Job, Jobs, Resume, round};
use std::alloc::Global;
use std::sync::Wait;
use std::thread::Threads;

/// How many conflicts runs have handled together.
pub(crate) fn conflicts_of(runs: &[AheadRun]) -> u64
    requires { length runs.now ≤ 16 }
    ensures { result ≡ conflicts_of runs.now }
{
    let mut sum = 0u64;
    for run in runs {
        sum += run.conflicts();
    }
    sum
}

/// These runs, as runs that were started.
pub(crate) fn started_all(alloc: Global, runs: Vec<AheadRun>) -> Result<Vec<Started>, Memory>
    ensures { IfOk result (λ out. out.items ≡ runs.items) }
{
    let mut started = Vec::new(alloc);
    for run in runs {
        started.push(Started::of(alloc, run))?;
    }
    Ok(started)
}

/// A job for each run, up to what it was granted before and now.
fn list_jobs(
    alloc: Global,
    runs: Vec<Started>,
    grants: &[u32],
    most: u32,
) -> Result<Vec<Job<Started>>, Memory>
    requires { Fits runs.items grants.now }
    ensures { IfOk result (λ jobs. jobs.items ≡ jobs_at runs.items grants.now) }
{
    let mut jobs = Vec::new(alloc);
    for run in runs {
        let target = run.granted() + grants[jobs.len()] as u64;
        let run = run.allowed(most);
        if jobs.push(Job { run, target }).is_err() {
            return Err(Memory);
        }
    }
    Ok(jobs)
}

/// A job for each run of a round, up to what it was granted before and now.
pub fn jobs_of(
    alloc: Global,
    runs: Vec<Started>,
    grants: &[u32],
) -> Result<Vec<Job<Started>>, Memory>
    requires { MayAdvance runs.items grants.now }
    ensures jobs { IfOk result (λ jobs. jobs.items ≡ jobs_at runs.items grants.now) }
    ensures sound { IfOk result (λ jobs. AllByRecursion (λ job. job.run.spoilt ≡ false) jobs.items) }

    // With all of their targets granted, they are the runs advanced by their grants.
    ensures moved { IfOk result (λ jobs. map run_at jobs.items ≡ moved_all runs.items grants.now) }
{
    list_jobs(alloc, runs, grants, 0)
}

/// The run of a job, made, with all of its target granted: a settled one may have been granted less.
pub fn with_all_granted(job: Job<Started>) -> Result<AheadRun, Memory>
    ensures { IfOk result (λ run. run ≡ run_at job) }
{
    let rest = (job.target - job.run.granted()) as u32;
    let Job { run, target: _ } = job;
    let mut run = run.made()?;
    run.go_on(rest)?;
    Ok(run)
}

/// The runs of jobs that workers brought to their targets.
fn runs_of(alloc: Global, jobs: Vec<Job<Started>>) -> Result<Vec<AheadRun>, Memory>
    ensures { IfOk result (λ runs. runs.items ≡ map run_at jobs.items) }
{
    let mut runs = Vec::new(alloc);
    for job in jobs {
        runs.push(with_all_granted(job)?)?;
    }
    Ok(runs)
}

/// Advances each run by its grant, made first where it is not, by as many workers as the settings say, in turns of a slice.
pub(crate) fn advance_all<G: Gate, H: Threads + Wait + Sync>(
    rt: &H,
    alloc: Global,
    runs: Vec<Started>,
    grants: &[u32],
    most: u32,
    settings: &Settings,
    gate: &G,
) -> Result<Vec<AheadRun>, Memory>
    requires { MayAdvance runs.items grants.now }
    ensures { IfOk result (λ out. out.items ≡ moved_all runs.items grants.now) }
{
    let jobs = Jobs::new(list_jobs(alloc, runs, grants, most)?);
    // For the proof: where the jobs rise, no two have one horizon.
    let _rising = jobs.are_rising();
    match round(rt, alloc, jobs, settings.workers, settings.slice, gate) {
        Ok(back) => runs_of(alloc, back.into_vec()),
        Err(_) => Err(Memory),
    }
}
