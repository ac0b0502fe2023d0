// A run as a future.
ghost use Rattle.std.specs.Prelude.{⊤, ◌≡◌, ◌≤◌, ◌↔◌, true, false, Some, IsTrue, IsSome};
ghost use Rattle.solver_pool.specs.Resume.{SettledStays};
ghost use Rattle.futures.specs.Poll.{IfReady, OnPending};
ghost use Rattle.futures.specs.Task.{Covers, Keeps};
ghost use Rattle.poll_run.specs.Polls.{AtPoll, Gives, GoesNext, GoesOn, Spends, Ends, GoesThrough};

use crate::Bounded;
use futures::Future;
use futures::task::{Context, Poll};
use solver_pool::Resume;
use solver_pool::one_turn::units_of_turn;
use std::marker::Model;

/// A run that is advanced to a target by polls, each by a slice, and is given once it is settled, spoilt or at its target.
#[derive(Drop)]
pub struct PollRun<R: Resume> {
    // None once it was given.
    run: Option<R>,
    target: u64,
    slice: u32,
}

impl<R: Resume> Model for PollRun<R> {
    ghost use Rattle.std.specs.Prelude.{◌≡◌, ◌≤◌, false, IfSome};
    ghost use Rattle.poll_run.specs.Polls.{Polling};

    ghost Value = { Polling R };

    ghost view = { λ p. record { run = p.run; target = p.target; slice = p.slice } };

    ghost invariant = { λ p. IfSome p.run (λ r. (R.spoilt_at r ≡ false) × (R.granted_of r ≤ p.target))
        × ((p.target ≤ 1073741824) × ((1 ≤ p.slice) × (p.slice ≤ 10000))) };
}

impl<R: Resume> PollRun<R> {
    /// A future that brings `run` to `target` units granted in all, at most 1,073,741,824, by polls of `slice` units, 1 to
    /// 10,000. It takes no memory.
    pub fn new(run: R, target: u64, slice: u32) -> PollRun<R>
        requires sound { R.spoilt_at run ≡ false }
        requires granted { R.granted_of run ≤ target }
        requires target { target ≤ 1073741824 }
        requires slice { (1 ≤ slice) × (slice ≤ 10000) }
        ensures { result ≡ record { run = Some run; target = target; slice = slice } }
    {
        PollRun {
            run: Some(run),
            target,
            slice,
        }
    }

    /// How many units the run is to be granted in all.
    pub fn target(&self) -> u64
        ensures { result ≡ self.now.target }
    {
        self.target
    }
}

/// Advances a run by a slice, or by what is left to its target where that is less, and says whether it goes on.
fn advance_once<R: Resume>(run: &mut R, target: u64, slice: u32) -> bool
    requires sound { R.spoilt_at run.old ≡ false }
    requires granted { R.granted_of run.old ≤ target }
    requires target { target ≤ 1073741824 }
    requires slice { (1 ≤ slice) × (slice ≤ 10000) }
    ensures next { GoesNext R.Resume slice target run.old run.new }
    ensures on { result ≡ true → Spends R.Resume target run.old run.new }
    ensures last { result ≡ false → GoesOn R.Resume target run.new → ⊥ }
    ensures off { result ≡ false → Ends R.Resume target run.new }
{
    let left = target - run.granted();
    let part = units_of_turn(left, slice);

    // A run that found no memory says so itself.
    let _ = run.advance(part);
    goes_on(run, target)
}

/// Whether a run goes on.
fn goes_on<R: Resume>(run: &R, target: u64) -> bool
    ensures value { IsTrue result ↔ GoesOn R.Resume target run.now }
    ensures stays { SettledStays R.Resume run.now }
{
    run.unsettled() && !run.spoilt() && run.granted() < target
}

impl<R: Resume> Future for PollRun<R> {
    ghost use Rattle.std.specs.Prelude.{IsSome};
    ghost use Rattle.poll_run.specs.Polls.{Gives};

    type Output = R;

    ghost can_poll = { λ p. IsSome p.run };

    ghost gives = { Gives R.Resume };

    fn poll(&mut self, cx: &mut Context<'_>) -> Poll<R>
        // As of every future.
        requires { IsSome self.old.run }
        ensures value { IfReady result (Gives R.Resume self.old) }
        ensures again { OnPending result (IsSome self.new.run) }
        ensures same { OnPending result ((x : _) → Gives R.Resume self.new x → Gives R.Resume self.old x) }
        ensures registered { OnPending result (Covers cx.new (λ s. ⊥)) }
        ensures kept { Keeps cx.old cx.new }

        // A pending poll asks for another one.
        ensures yields { OnPending result (Covers cx.new (λ s. ⊤)) }

        // It advances the run by a slice, or by what is left to the target where that is less.
        ensures advances { AtPoll self.old self.new result (GoesNext R.Resume self.old.slice self.old.target) }

        // It is pending only where it spent something and the run is unsettled, sound and below its target; else the run is
        // spoilt or where its target has it.
        ensures pending { OnPending result (AtPoll self.old self.new result (Spends R.Resume self.old.target)) }
        ensures ready { IfReady result (Ends R.Resume self.old.target) }

        // It goes from one state of the polled run to the next.
        ensures states { GoesThrough R.Resume self.old self.new result }
        ensures target { self.new.target ≡ self.old.target }
        ensures slice { self.new.slice ≡ self.old.slice }
    {
        match self.run.take() {
            Some(mut run) => {
                if advance_once(&mut run, self.target, self.slice) {
                    self.run = Some(run);
                    cx.yield_now()
                } else {
                    Poll::Ready(run)
                }
            }
            // A run that was given is polled no more: the caller's condition.
            None => unreachable!(),
        }
    }
}

/// Each pending poll spends at least one unit of what is left to the target.
impl<R: Resume> Bounded for PollRun<R> {
    ghost use Rattle.poll_run.specs.Polls.{polls_left};

    ghost polls_left = { polls_left R.Resume };

    fn poll_on(&mut self, cx: &mut Context<'_>) -> Poll<R> {
        self.poll(cx)
    }
}
