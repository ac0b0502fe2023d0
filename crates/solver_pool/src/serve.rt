// One turn of a worker.
ghost use Rattle.std.specs.Prelude.{◌≡◌, ◌≤◌, true, false, ◌↔◌, IsTrue};
ghost use Rattle.crossbeam_queue.specs.Passes.{view};
ghost use Rattle.solver_pool.specs.Resume.{IsMoved, SettledStays};
ghost use Rattle.solver_pool.specs.Ring.{IsRingPass, IsSlice};
ghost use Rattle.solver_pool.specs.own.Serve.{ServedSays, GoesOn, IsAdvanced, IsEnded};
ghost use Rattle.solver_pool.specs.own.Left.{FallsOrIdle};

use crate::one_turn::units_of_turn;
use crate::{Gate, Job, Pass, Resume, Ring};
use std::sync::Wait;

/// What a turn came to.
#[derive(Drop)]
pub enum Served<R: Resume> {
    /// A job was advanced and went back to the ring: it is unsettled, sound and below its target.
    Back,

    /// A job was advanced and is settled, spoilt or at its target.
    Done(Job<R>),

    /// The ring was found empty.
    Idle,
}

/// Takes one job from the ring, advances it by at most `slice` units (1 to 10,000), and returns it to the ring unless it
/// is done. The gate is told before and after. No memory is taken but by the run.
pub fn serve_one<R: Resume, G: Gate, H: Wait>(
    rt: &H,
    ring: &Ring<R>,
    pass: &mut Pass<R>,
    slice: u32,
    gate: &G,
) -> Served<R>
    requires pass { IsRingPass R.Resume ring.now pass.old }
    requires slice { IsSlice slice }
    ensures pass { IsRingPass R.Resume ring.now pass.new }
    ensures owner { (view pass.new.pass).owner ≡ (view pass.old.pass).owner }
    ensures served { ServedSays R.Resume slice (view pass.old.pass) (view pass.new.pass) result }

    // Turns of the owner alone come to an end.
    ensures falls { FallsOrIdle (view pass.old.pass) (view pass.new.pass) result }
{
    match ring.take(rt, pass) {
        Some(mut job) => {
            if advance_job(&mut job, slice, gate) {
                ring.put_back(rt, pass, job);
                Served::Back
            } else {
                Served::Done(job)
            }
        }
        None => Served::Idle,
    }
}

/// Advances a job by at most a slice, and says whether it goes back to the ring.
fn advance_job<R: Resume, G: Gate>(job: &mut Job<R>, slice: u32, gate: &G) -> bool
    requires moved { IsMoved R.Resume (R.origin_of job.old.run) (R.granted_of job.old.run) job.old.run }
    requires sound { R.spoilt_at job.old.run ≡ false }
    ensures key { R.key_of job.new.run ≡ R.key_of job.old.run }
    ensures target { job.new.target ≡ job.old.target }
    ensures within { job.old.target ≤ 1073741824 }
    ensures origin { R.origin_of job.new.run ≡ R.origin_of job.old.run }
    ensures run { IsAdvanced R.Resume slice job.old job.new }
    ensures ended { result ≡ false → IsEnded R.Resume job.new }
    ensures back { IsTrue result ↔ GoesOn R.Resume job.new }
{
    let key = job.run.horizon();
    let left = job.target - job.run.granted();
    let part = units_of_turn(left, slice);
    gate.enter(key);

    // A run that found no memory says so itself.
    let _ = job.run.advance(part);
    gate.leave(key);
    goes_on(job)
}

/// Whether a job goes back to the ring.
fn goes_on<R: Resume>(job: &Job<R>) -> bool
    ensures value { IsTrue result ↔ GoesOn R.Resume job.now }
    ensures stays { SettledStays R.Resume job.now.run }
{
    job.run.unsettled() && !job.run.spoilt() && job.run.granted() < job.target
}
