// A round: each job is advanced to its target by several workers.
ghost use Rattle.std.specs.Prelude.{◌≡◌, ◌≤◌, IfOk, length, map};
ghost use Rattle.solver_pool.specs.Job.{Differ, AreRising, AreSound, key_in, entry_of};
ghost use Rattle.solver_pool.specs.Ring.{IsSlice};
ghost use Rattle.solver_pool.specs.own.Rounds.{IsRound};

use crate::crew::Crew;
use crate::sorted::give_back;
use crate::turns::{turns_of, worker_count};
use crate::worker::{Worker, finish};
use crate::workers::{all_work, new_workers, take_in_all};
use crate::{Gate, Jobs, Memory, Opened, Resume, Ring};
use std::alloc::Global;
use std::sync::Wait;
use std::thread::Threads;

/// Advances each of at most 16 jobs of different keys to its target: by `workers` workers (1 to 16), in turns of at
/// most `slice` units (1 to 10,000). A run that is settled before its target is advanced no further.
///
/// `Ok` gives each job back once, in rising order of key, none spoilt, each run where its target has it: the same
/// jobs for every number of workers and every slice, apart from the number of units that a settled run was granted.
/// `Memory` comes where memory was wanting, also in a run, and lets the jobs go. It may wait for its threads.
pub fn round<R: Resume + Send, G: Gate, H: Threads + Wait + Sync>(
    rt: &H,
    alloc: Global,
    jobs: Jobs<R>,
    workers: u32,
    slice: u32,
    gate: &G,
) -> Result<Jobs<R>, Memory>
    requires slice { IsSlice slice }
    requires workers { (1 ≤ workers) × (workers ≤ 16) }
    requires few { length jobs ≤ 16 }
    requires differ { Differ (key_in R.Resume) jobs }
    requires sound { AreSound R.Resume jobs }
    ensures round { IfOk result (λ out. IsRound R.Resume jobs out) }

    // Jobs that came in rising order come back in the same places.
    ensures in_order { IfOk result (λ out. AreRising R.Resume jobs → map (entry_of R.Resume) out ≡ map (entry_of R.Resume) jobs) }
{
    let count = worker_count(jobs.as_slice(), workers);
    let crew = Crew::new(count, turns_of(jobs.as_slice()), jobs.len());
    let Opened { ring, owner } = Ring::open(rt, alloc, jobs)?;
    let mut owner = Worker {
        pass: owner,
        done: Vec::new(alloc),
        failed: false,
    };
    let started = new_workers(&ring, &mut owner, alloc, count)?;
    let Ok(back) = all_work(rt, &ring, started, slice, gate, &crew) else {
        return Err(Memory);
    };
    take_in_all(&ring, &mut owner, back);

    // What the workers left in the ring, since each made no more turns than it may, is finished here.
    let owner = finish(rt, &ring, owner, slice, gate, &crew);
    if owner.failed {
        return Err(Memory);
    }
    give_back(owner.done)
}
