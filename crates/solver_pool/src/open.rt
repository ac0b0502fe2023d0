// How a ring is opened.
ghost use Rattle.std.specs.Prelude.{◌≡◌, ◌≤◌, false, IfOk, length};
ghost use Rattle.crossbeam_queue.specs.Passes.{view};
ghost use Rattle.solver_pool.specs.Job.{Differ, IsNew, AreSound, key_in};
ghost use Rattle.solver_pool.specs.own.PassView.{MayOpen};
ghost use Rattle.solver_pool.specs.own.Steps.{Opens};
ghost use Rattle.solver_pool.specs.Ring.{IsOwnerPass, IsOpened};

use crate::{Job, Jobs, Memory, Pass, Resume, Ring};
use std::alloc::Global;
use std::sync::Wait;

/// A ring, and its owner's pass.
#[derive(Drop)]
pub struct Opened<R: Resume> {
    /// The ring, with its jobs.
    pub ring: Ring<R>,
    /// The right of the thread that opened it.
    pub owner: Pass<R>,
}

impl<R: Resume> Ring<R> {
    /// A ring of these jobs, in their order, at most 16. The owner's pass has noted each put, has all jobs in its book,
    /// and has given no pass out. Where memory is wanting, the jobs are let go.
    pub fn open<H: Wait>(rt: &H, alloc: Global, jobs: Jobs<R>) -> Result<Opened<R>, Memory>
        requires few { length jobs ≤ 16 }
        requires differ { Differ (key_in R.Resume) jobs }
        requires sound { AreSound R.Resume jobs }
        ensures owner { IfOk result (λ r. IsOwnerPass R.Resume r.ring r.owner) }
        ensures opened { IfOk result (λ r. IsOpened R.Resume jobs (view r.owner.pass)) }
    {
        let (ring, mut owner) = Ring::empty(alloc)?;
        for job in jobs.into_vec() {
            put_one(rt, &ring, &mut owner, job);
        }
        Ok(Opened { ring, owner })
    }
}

/// Puts a job and enters it in the book.
fn put_one<R: Resume, H: Wait>(rt: &H, ring: &Ring<R>, owner: &mut Pass<R>, job: Job<R>)
    requires owner { IsOwnerPass R.Resume ring.now owner.old }
    requires alone { MayOpen (view owner.old.pass) }
    requires new { IsNew (view owner.old.pass).book (R.key_of job.run) }
    requires sound { R.spoilt_at job.run ≡ false }
    ensures owner { IsOwnerPass R.Resume ring.now owner.new }
    ensures noted { Opens R.Resume (view owner.old.pass) job (view owner.new.pass) }
{
    // Tells where the run stands.
    let _granted = job.run.granted();
    ring.put_first(rt, owner, job);
}
