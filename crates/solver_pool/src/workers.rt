// The workers of a round: each is given a pass, works in a thread of its own, and is taken in again.
ghost use Rattle.std.specs.Prelude.{◌≡◌, ℕ, ◌<◌, true, IfOk, length, vec_len, slice_index_or};
ghost use Rattle.std.specs.List.{All};
ghost use Rattle.crossbeam_queue.specs.Passes.{view};
ghost use Rattle.solver_pool.specs.Ring.{IsRingPass, IsSlice};
ghost use Rattle.solver_pool.specs.own.Worker.{StaysAtWork, IsWorkerOf, HasWorkerPass, StartsWorkers, TakesIn, TakesAllIn};
ghost use denote.Param.Send.{IsSync};

use crate::crew::Crew;
use crate::worker::{Worker, work};
use crate::{Gate, Memory, Resume, Ring};
use std::alloc::{AllocError, Global};
use std::sync::Wait;
use std::thread;
use std::thread::Threads;

/// So many workers, each with a pass that the owner gave out.
pub(crate) fn new_workers<R: Resume>(
    ring: &Ring<R>,
    owner: &mut Worker<R>,
    alloc: Global,
    count: u32,
) -> Result<Vec<Worker<R>>, Memory>
    requires pass { IsRingPass R.Resume ring.now owner.old.pass }
    requires owns { (view owner.old.pass.pass).owner ≡ true }
    ensures pass { IsRingPass R.Resume ring.now owner.new.pass }
    ensures started { IfOk result (λ workers. StartsWorkers R.Resume ring.now owner.old owner.new workers.items) }
    ensures many { IfOk result (λ workers. vec_len workers ≡ count) }
{
    let mut workers = Vec::new(alloc);
    for _i in 0..count {
        let worker = Worker {
            pass: ring.give_out(&mut owner.pass),
            done: Vec::new(alloc),
            failed: false,
        };
        if workers.push(worker).is_err() {
            return Err(Memory);
        }
    }
    Ok(workers)
}

/// All workers at once, each in a thread of its own where one can be had.
pub(crate) fn all_work<R: Resume + Send, G: Gate, H: Threads + Wait + Sync>(
    rt: &H,
    ring: &Ring<R>,
    workers: Vec<Worker<R>>,
    slice: u32,
    gate: &G,
    crew: &Crew,
) -> Result<Vec<Worker<R>>, AllocError>
    requires slice { IsSlice slice }
    requires each { All (IsWorkerOf R.Resume ring.now) workers.items }
    ensures len { IfOk result (λ out. vec_len out ≡ vec_len workers) }
    ensures each { IfOk result (λ out. (i : ℕ) (d : _) → i < length workers.items
        → IsWorkerOf R.Resume ring.now (slice_index_or out.items i d)
        × StaysAtWork R.Resume (slice_index_or workers.items i d) (slice_index_or out.items i d)) }
{
    thread::map_vec(
        rt,
        workers,
        &|worker: Worker<R>| -> Worker<R>
            requires slice { IsSlice slice }
            requires of { IsWorkerOf R.Resume ring.now worker }
            ensures of { IsWorkerOf R.Resume ring.entry.now result }
            ensures work { StaysAtWork R.Resume worker result }
        { work(rt, ring, worker, slice, gate, crew) },
    )
}

/// Takes in one worker's pass, and the jobs that it is done with.
fn take_in_one<R: Resume>(ring: &Ring<R>, owner: &mut Worker<R>, worker: Worker<R>)
    requires passes { IsRingPass R.Resume ring.now owner.old.pass × IsWorkerOf R.Resume ring.now worker }
    requires owns { (view owner.old.pass.pass).owner ≡ true }
    requires worker { HasWorkerPass R.Resume worker }
    ensures pass { IsRingPass R.Resume ring.now owner.new.pass }
    ensures owns { (view owner.new.pass.pass).owner ≡ true }
    ensures work { TakesIn R.Resume owner.old worker owner.new }
{
    let Worker {
        pass,
        mut done,
        failed,
    } = worker;
    ring.take_back(&mut owner.pass, pass);
    match owner.done.append(&mut done) {
        Ok(()) => owner.failed = owner.failed | failed,
        Err(_) => owner.failed = true,
    }
}

/// Takes in all workers.
pub(crate) fn take_in_all<R: Resume>(
    ring: &Ring<R>,
    owner: &mut Worker<R>,
    mut workers: Vec<Worker<R>>,
)
    requires pass { IsRingPass R.Resume ring.now owner.old.pass }
    requires owns { (view owner.old.pass.pass).owner ≡ true }
    requires theirs { All (IsWorkerOf R.Resume ring.now) workers.items }
    requires workers { All (HasWorkerPass R.Resume) workers.items }
    ensures pass { IsRingPass R.Resume ring.now owner.new.pass }
    ensures work { TakesAllIn R.Resume owner.old workers.items owner.new }
{
    while let Some(worker) = workers.pop() {
        take_in_one(ring, owner, worker);
    }
}
