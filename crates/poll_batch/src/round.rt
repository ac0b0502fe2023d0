// A race within a round.
ghost use Rattle.std.specs.Prelude.{◌≡◌, ◌≤◌, ◌<◌, ◌∷◌, false, length, IfOk, OnOk};
ghost use Rattle.futures.specs.Task.{Keeps};
ghost use Rattle.horizon_run.specs.Run.{moved_to};
ghost use Rattle.race.specs.Input.{input_of};
ghost use Rattle.poll_batch.specs.own.Numbers.{IsBelow};
ghost use Rattle.poll_batch.specs.own.OnePoll.{PollsRun};
ghost use Rattle.poll_batch.specs.own.Tied.{IsWithin, numbers_of};
ghost use Rattle.poll_batch.specs.own.Works.{polls_of};

use crate::work::Work;
use containers::memory::Memory;
use futures::Future;
use futures::task::{Context, Poll};
use horizon_rates::Settings;
use horizon_run::{AheadRun, Started};
use race::{Begun, with_all_granted};
use solver_pool::{Job, Resume};
use step_encoding::form::StepForm;

/// A race within a round: the rest of the race, the runs that are at their targets, and those that are polled, the first of them
/// being at hand.
#[derive(Drop)]
pub(crate) struct Round {
    pub(crate) begun: Begun,
    pub(crate) done: Vec<AheadRun>,
    pub(crate) works: Vec<Work>,
}

/// A run that was given, made, with all of its target granted.
fn finished(run: Started, target: u64) -> Result<AheadRun, Memory>
    requires within { run.spoilt ≡ false → run.granted ≤ target }
    requires target { target ≤ 1073741824 }
    ensures at_target { IfOk result (λ end. end ≡ moved_to run target) }
    ensures sound { OnOk result (run.spoilt ≡ false) }
{
    if run.spoilt() {
        return Err(Memory);
    }
    with_all_granted(Job { run, target })
}

/// Takes the first of the runs away, which was given, and tells its target.
fn take_first(works: &mut Vec<Work>) -> u64
    requires { 0 < length works.old.items }
    ensures { (first : _) (rest : _) → works.old.items ≡ first ∷ rest → (works.new.items ≡ rest) × (result ≡ first.poll.target) }
{
    let target = works[0].poll.target();
    works.remove(0);
    target
}

impl Round {
    /// Polls the run at hand once.
    pub(crate) fn poll_first<F: StepForm>(
        &mut self,
        form: &F,
        settings: &Settings,
        cx: &mut Context<'_>,
    ) -> Result<(), Memory>
        requires within { IsWithin settings.now.slice (input_of F.StepForm form.now settings.now) self.old }
        requires some { 0 < length self.old.works.items }
        ensures within { OnOk result (IsWithin settings.now.slice (input_of F.StepForm form.now settings.now) self.new) }
        ensures rises { OnOk result (IsBelow (numbers_of self.old) (numbers_of self.new)) }
        ensures one { OnOk result (PollsRun settings.now.slice (numbers_of self.old) (numbers_of self.new) (polls_of self.old.works.items) (polls_of self.new.works.items)) }
        ensures kept { Keeps cx.old cx.new }
    {
        let (_form, _settings) = (form, settings);
        match self.works[0].poll.poll(cx) {
            Poll::Pending => Ok(()),
            Poll::Ready(run) => {
                let target = take_first(&mut self.works);
                let run = finished(run, target)?;
                self.done.push(run)?;
                Ok(())
            }
        }
    }
}
