// The runs of a round, as futures.
ghost use Rattle.std.specs.Prelude.{◌≡◌, ◌≤◌, false, map, IfOk};
ghost use Rattle.std.specs.List.{AllByRecursion};
ghost use Rattle.race.specs.Runs.{run_at};
ghost use Rattle.poll_batch.specs.own.Works.{at_targets, AreAtWork};

use containers::memory::Memory;
use horizon_run::Started;
use poll_run::PollRun;
use solver_pool::{Job, Resume};
use std::alloc::Global;

/// A run of this round, and how many conflicts it was granted before.
#[derive(Drop)]
pub(crate) struct Work {
    pub(crate) poll: PollRun<Started>,
    pub(crate) before: u64,
}

/// A poll for each job, up to its target.
pub(crate) fn works_of(
    alloc: Global,
    jobs: Vec<Job<Started>>,
    slice: u32,
) -> Result<Vec<Work>, Memory>
    requires sound { AllByRecursion (λ job. job.run.spoilt ≡ false) jobs.items }
    requires slice { (1 ≤ slice) × (slice ≤ 10000) }
    ensures ends { IfOk result (λ works. at_targets works.items ≡ map run_at jobs.items) }
    ensures work { IfOk result (λ works. AreAtWork slice works.items) }
{
    let mut works = Vec::new(alloc);
    for job in jobs {
        let Job { run, target } = job;
        let before = run.granted();
        let poll = PollRun::new(run, target, slice);
        works.push(Work { poll, before })?;
    }
    Ok(works)
}
