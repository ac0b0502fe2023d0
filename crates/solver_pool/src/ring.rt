// The ring of jobs, and the passes on it.
ghost use Rattle.std.specs.Prelude.{◌≡◌, false, IfOk, OnErr};
ghost use Rattle.crossbeam_queue.specs.Passes.{ruled_capacity, view};

use crate::rule::{GiveOut, RingRule, TakeIn};
use crate::{Job, Memory, PassView, Resume};
use crossbeam_queue::RuledArrayQueue;
use std::alloc::Global;
use std::sync::Wait;

/// A queue of at most 16 jobs that workers share. Each step on it is made with a [`Pass`] and keeps one rule: no job is
/// lost and none is there twice, whichever worker makes which step when.
#[derive(Drop)]
pub struct Ring<R: Resume> {
    pub queue: RuledArrayQueue<Job<R>, PassView<R>, RingRule, Global>,
    pub ghost sixteen: { ruled_capacity queue ≡ 16 },
}

/// The right of one thread to make steps on a ring. Nothing at run time tells the owner's pass from a worker's.
#[derive(Drop)]
pub struct Pass<R: Resume> {
    pub pass: crossbeam_queue::Pass<Job<R>, PassView<R>>,
    pub ghost live: { (view pass).ended ≡ false },
}

impl<R: Resume> Ring<R> {
    ghost use Rattle.std.specs.Prelude.{◌≡◌, IfOk, OnErr, MatchOption};
    ghost use Rattle.crossbeam_queue.specs.Passes.{view};
    ghost use Rattle.solver_pool.specs.own.PassView.{worker_view, with_pass_out, with_pass_in};
    ghost use Rattle.solver_pool.specs.own.Steps.{Takes, TookAll};
    ghost use Rattle.solver_pool.specs.Ring.{IsOwnerPass, IsWorkerPass};

    /// Gives out a pass for a worker. It has the owner's book and no notes, and the owner counts one pass more.
    /// `Memory` does not come so far, since a pass takes no room.
    pub fn give<H: Wait>(&self, _rt: &H, owner: &mut Pass<R>) -> Result<Pass<R>, Memory>
        requires owner { IsOwnerPass R.Resume self.now owner.old }
        ensures owner { IsOwnerPass R.Resume self.now owner.new }
        ensures given { IfOk result (λ p. IsWorkerPass R.Resume self.now p × (view p.pass ≡ worker_view (view owner.old.pass).book)) }
        ensures counted { IfOk result (λ p. view owner.new.pass ≡ with_pass_out (view owner.old.pass)) }
        ensures memory { OnErr result (view owner.new.pass ≡ view owner.old.pass) }
    {
        Ok(self.give_out(owner))
    }

    /// The same as [`Ring::give`]: it waits for nobody, and takes no memory.
    pub(crate) fn give_out(&self, owner: &mut Pass<R>) -> Pass<R>
        requires { IsOwnerPass R.Resume self.now owner.old }
        ensures owner { IsOwnerPass R.Resume self.now owner.new }
        ensures given { IsWorkerPass R.Resume self.now result × (view result.pass ≡ worker_view (view owner.old.pass).book) }
        ensures counted { view owner.new.pass ≡ with_pass_out (view owner.old.pass) }
    {
        Pass {
            pass: self.queue.another::<GiveOut>(&mut owner.pass),
        }
    }

    /// Takes in a worker's pass: its notes move into the owner's, which counts one pass less.
    pub fn take_in<H: Wait>(&self, _rt: &H, owner: &mut Pass<R>, ended: Pass<R>)
        requires owner { IsOwnerPass R.Resume self.now owner.old }
        requires worker { IsWorkerPass R.Resume self.now ended }
        ensures owner { IsOwnerPass R.Resume self.now owner.new }
        ensures noted { view owner.new.pass ≡ with_pass_in (view owner.old.pass) (view ended.pass) }
    {
        self.take_back(owner, ended);
    }

    /// The same as [`Ring::take_in`]: it waits for nobody.
    pub(crate) fn take_back(&self, owner: &mut Pass<R>, ended: Pass<R>)
        requires { IsOwnerPass R.Resume self.now owner.old × IsWorkerPass R.Resume self.now ended }
        ensures owner { IsOwnerPass R.Resume self.now owner.new }
        ensures noted { view owner.new.pass ≡ with_pass_in (view owner.old.pass) (view ended.pass) }
    {
        let Pass { pass: theirs } = ended;
        self.queue.absorb::<TakeIn>(&mut owner.pass, theirs);
    }

    /// Takes one job with the owner's pass. `None` comes only where the ring was empty at a step of this call; while no
    /// pass is out, the owner then took what it put.
    pub fn drain<H: Wait>(&self, rt: &H, owner: &mut Pass<R>) -> Option<Job<R>>
        requires owner { IsOwnerPass R.Resume self.now owner.old }
        ensures owner { IsOwnerPass R.Resume self.now owner.new }
        ensures noted { MatchOption result
            ((view owner.new.pass ≡ view owner.old.pass) × TookAll (view owner.old.pass))
            (λ job. Takes R.Resume (view owner.old.pass) job (view owner.new.pass)) }
    {
        self.take(rt, owner)
    }
}
