// What there is to do in a round.
ghost use Rattle.std.specs.Prelude.{◌≡◌, ◌-◌, ◌^◌, min, nat_lt};
ghost use Rattle.solver_pool.specs.own.Turns.{turns_in, below_target, passes_for};

use crate::{Job, Resume};

/// How many units a job is to be granted yet.
fn left_of<R: Resume>(job: &Job<R>) -> u64
    ensures { result ≡ job.now.target - R.granted_of job.now.run }
{
    job.target - job.run.granted()
}

/// How many turns a worker may make: one for each unit that is granted in the round, and one for each job.
pub(crate) fn turns_of<R: Resume>(jobs: &[Job<R>]) -> u64
    ensures { result ≡ min (turns_in R.Resume jobs.now) (2 ^ 64 - 1) }
{
    let mut turns = 0u64;
    for job in jobs {
        turns = turns.saturating_add(left_of(job)).saturating_add(1);
    }
    turns
}

/// Whether a job is below its target.
fn is_below_target<R: Resume>(job: &Job<R>) -> bool
    ensures { result ≡ nat_lt (R.granted_of job.now.run) job.now.target }
{
    job.run.granted() < job.target
}

/// How many workers are set to work: as many as were asked for, but no more than there are jobs below their target; and
/// none where that would be one, since the owner does it alone. Threads are nearly all of what a round costs.
pub(crate) fn worker_count<R: Resume>(jobs: &[Job<R>], workers: u32) -> u32
    ensures { result ≡ passes_for workers (below_target R.Resume jobs.now) }
{
    let mut count = 0u32;
    for job in jobs {
        if count < workers && is_below_target(job) {
            count += 1;
        }
    }
    if count < 2 { 0 } else { count }
}
