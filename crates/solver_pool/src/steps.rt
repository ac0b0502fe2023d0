// The kinds of step on a ring that put or take a job. No put finds the ring full: of the 16 jobs with which it was opened
// at most, the one that is put is in no place of it.
ghost use Rattle.std.specs.Prelude.{◌≡◌, ◌≤◌, false, IfOk, MatchOption};
ghost use Rattle.crossbeam_queue.specs.Passes.{view};
ghost use Rattle.solver_pool.specs.Resume.{IsMoved};
ghost use Rattle.solver_pool.specs.Job.{Fits, IsNew};
ghost use Rattle.solver_pool.specs.own.PassView.{owner_view, MayOpen, MayPut};
ghost use Rattle.solver_pool.specs.own.Steps.{Opens, Puts, Takes, TookAll};
ghost use Rattle.solver_pool.specs.Ring.{IsRingPass};

use crate::rule::{Opening, Return, Take};
use crate::{Job, Memory, Pass, Resume, Ring};
use crossbeam_queue::RuledArrayQueue;
use std::alloc::Global;
use std::sync::Wait;

impl<R: Resume> Ring<R> {
    /// An empty ring, and its owner's pass.
    pub(crate) fn empty(alloc: Global) -> Result<(Ring<R>, Pass<R>), Memory>
        ensures { IfOk result (λ r. IsRingPass R.Resume r.0 r.1 × (view r.1.pass ≡ owner_view)) }
    {
        match RuledArrayQueue::ruled(alloc, 16) {
            Ok((queue, pass)) => Ok((Ring { queue }, Pass { pass })),
            Err(_) => Err(Memory),
        }
    }

    /// Puts a job with which the ring is opened, and enters it in the book.
    pub(crate) fn put_first<H: Wait>(&self, rt: &H, owner: &mut Pass<R>, job: Job<R>)
        requires pass { IsRingPass R.Resume self.now owner.old }
        requires alone { MayOpen (view owner.old.pass) }
        requires new { IsNew (view owner.old.pass).book (R.key_of job.run) }
        requires moved { IsMoved R.Resume (R.origin_of job.run) (R.granted_of job.run) job.run }
        requires within { R.granted_of job.run ≤ job.target }
        requires sound { R.spoilt_at job.run ≡ false }
        ensures pass { IsRingPass R.Resume self.now owner.new }
        ensures noted { Opens R.Resume (view owner.old.pass) job (view owner.new.pass) }
    {
        match self.queue.push_as::<Opening, H>(rt, &mut owner.pass, job) {
            Ok(()) => {}
            // The ring has room for 16 jobs, and by its rule no more are in it.
            Err(_) => unreachable!(),
        }
    }

    /// Returns a job that was taken.
    pub(crate) fn put_back<H: Wait>(&self, rt: &H, pass: &mut Pass<R>, job: Job<R>)
        requires pass { IsRingPass R.Resume self.now pass.old }
        requires may { MayPut (view pass.old.pass) (R.key_of job.run) }
        requires fits { Fits R.Resume (view pass.old.pass).book job }
        ensures pass { IsRingPass R.Resume self.now pass.new }
        ensures noted { Puts R.Resume (view pass.old.pass) job (view pass.new.pass) }
    {
        match self.queue.push_as::<Return, H>(rt, &mut pass.pass, job) {
            Ok(()) => {}
            // The ring has room for 16 jobs, and by its rule no more are in it.
            Err(_) => unreachable!(),
        }
    }

    /// Takes a job, or finds the ring empty.
    pub(crate) fn take<H: Wait>(&self, rt: &H, pass: &mut Pass<R>) -> Option<Job<R>>
        requires pass { IsRingPass R.Resume self.now pass.old }
        ensures pass { IsRingPass R.Resume self.now pass.new }
        ensures noted { MatchOption result
            ((view pass.new.pass ≡ view pass.old.pass) × TookAll (view pass.old.pass))
            (λ job. Takes R.Resume (view pass.old.pass) job (view pass.new.pass)) }
    {
        self.queue.pop_as::<Take, H>(rt, &mut pass.pass)
    }
}
