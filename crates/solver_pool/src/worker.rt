// One worker of a round.
ghost use Rattle.std.specs.Prelude.{◌≡◌, false, IsTrue};
ghost use Rattle.crossbeam_queue.specs.Passes.{view};
ghost use Rattle.solver_pool.specs.own.Steps.{TookAll};
ghost use Rattle.solver_pool.specs.Ring.{IsRingPass, IsSlice};
ghost use Rattle.solver_pool.specs.own.Serve.{IsEnded};
ghost use Rattle.solver_pool.specs.own.Worker.{StaysAtWork, WorksAlone, WorkFalls};

use crate::crew::Crew;
use crate::one_turn::put_or_note;
use crate::{Gate, Job, Pass, Resume, Ring, Served, serve_one};
use std::sync::Wait;

/// A worker: its pass, and the jobs that it is done with. It failed where it had no room for one of them.
#[derive(Drop)]
pub(crate) struct Worker<R: Resume> {
    pub(crate) pass: Pass<R>,
    pub(crate) done: Vec<Job<R>>,
    pub(crate) failed: bool,
}

/// Works a unit ahead on the run of a job that is done. Says whether it did.
fn go_ahead<R: Resume>(job: &mut Job<R>) -> bool
    ensures key { R.key_of job.new.run ≡ R.key_of job.old.run }
    ensures origin { R.origin_of job.new.run ≡ R.origin_of job.old.run }
    ensures target { job.new.target ≡ job.old.target }
    ensures ended { IsEnded R.Resume job.old → IsEnded R.Resume job.new }
{
    job.run.work_ahead()
}

/// Works ahead on the run of a job that is done, while others are not and there is no other job to do.
fn work_ahead<R: Resume>(job: &mut Job<R>, crew: &Crew)
    ensures key { R.key_of job.new.run ≡ R.key_of job.old.run }
    ensures origin { R.origin_of job.new.run ≡ R.origin_of job.old.run }
    ensures target { job.new.target ≡ job.old.target }
    ensures ended { IsEnded R.Resume job.old → IsEnded R.Resume job.new }
{
    crew.note_done();
    for _turn in 0..crew.turns() {
        if !crew.has_rest() || !go_ahead(job) {
            break;
        }
    }
}

/// One turn. It says whether the ring was found empty.
fn turn<R: Resume, G: Gate, H: Wait>(
    rt: &H,
    ring: &Ring<R>,
    worker: &mut Worker<R>,
    slice: u32,
    gate: &G,
    crew: &Crew,
) -> bool
    requires pass { IsRingPass R.Resume ring.now worker.old.pass }
    requires slice { IsSlice slice }
    ensures pass { IsRingPass R.Resume ring.now worker.new.pass }
    ensures work { StaysAtWork R.Resume worker.old worker.new }
    ensures empty { IsTrue result → TookAll (view worker.new.pass.pass) }
    ensures falls { result ≡ false → WorkFalls R.Resume worker.old worker.new }
{
    match serve_one(rt, ring, &mut worker.pass, slice, gate) {
        Served::Back => false,
        Served::Done(mut job) => {
            work_ahead(&mut job, crew);
            put_or_note(&mut worker.done, job, &mut worker.failed);
            false
        }
        Served::Idle => true,
    }
}

/// Serves until the ring is found empty, or for so many turns.
pub(crate) fn work<R: Resume, G: Gate, H: Wait>(
    rt: &H,
    ring: &Ring<R>,
    mut worker: Worker<R>,
    slice: u32,
    gate: &G,
    crew: &Crew,
) -> Worker<R>
    requires pass { IsRingPass R.Resume ring.now worker.pass }
    requires slice { IsSlice slice }
    ensures pass { IsRingPass R.Resume ring.now result.pass }
    ensures work { StaysAtWork R.Resume worker result }
{
    for _turn in 0..crew.turns() {
        if turn(rt, ring, &mut worker, slice, gate, crew) {
            break;
        }
    }
    worker
}

/// Serves until the ring is found empty, as the owner, while no worker's pass is out.
pub(crate) fn finish<R: Resume, G: Gate, H: Wait>(
    rt: &H,
    ring: &Ring<R>,
    mut worker: Worker<R>,
    slice: u32,
    gate: &G,
    crew: &Crew,
) -> Worker<R>
    requires pass { IsRingPass R.Resume ring.now worker.pass }
    requires slice { IsSlice slice }
    requires alone { WorksAlone R.Resume worker }
    ensures pass { IsRingPass R.Resume ring.now result.pass }
    ensures work { StaysAtWork R.Resume worker result }
    ensures empty { TookAll (view result.pass.pass) }
{
    while !turn(rt, ring, &mut worker, slice, gate, crew) {}
    worker
}
