// A race as a future.
ghost use Rattle.std.specs.Prelude.{⊤, ◌≡◌, ◌≤◌, ◌<◌, [], false, IfOk};
ghost use Rattle.futures.specs.Poll.{IfReady, OnPending};
ghost use Rattle.futures.specs.Task.{Covers, Keeps};
ghost use Rattle.poll_batch.specs.own.Numbers.{IsBelow, polls_left};
ghost use Rattle.poll_batch.specs.own.OnePoll.{DoesOne};
ghost use Rattle.poll_batch.specs.View.{RaceView, Gives, Stands};

use crate::phase::{Next, Phase, next_phase, put};
use containers::memory::Memory;
use futures::Future;
use futures::task::{Context, Poll};
use gt_core::task::Task;
use horizon_rates::{Rates, Settings};
use poll_run::Bounded;
use race::{RaceError, Racing};
use race_outcome::RaceEnd;
use std::alloc::Global;
use std::marker::Model;
use std::mem;
use step_encoding::form::StepForm;

/// A race that is polled by hand. One poll begins a round, polls one live run once, or ends a round.
#[derive(Drop)]
pub struct PollRace<'a, F: StepForm> {
    task: &'a Task,
    form: &'a F,
    settings: Settings,
    alloc: Global,
    phase: Phase,
}

impl<'a, F: StepForm> Model for PollRace<'a, F> {
    ghost use Rattle.std.specs.Prelude.{◌≡◌};
    ghost use Rattle.race.specs.Input.{input_of};
    ghost use Rattle.poll_batch.specs.own.Tied.{IsTied, numbers_at, runs_at, spent_at, lines_at, is_given};
    ghost use Rattle.poll_batch.specs.View.{RaceView};

    ghost Value = { RaceView F };

    ghost view = { λ p. record {
      task = p.task.now;
      form = p.form.now;
      settings = p.settings;
      stage = numbers_at p.phase;
      runs = runs_at p.phase;
      spent = spent_at p.phase;
      lines = lines_at p.phase;
      given = is_given p.phase;
    } };

    ghost invariant = { λ p. (F.task p.form.now ≡ p.task.now) × IsTied p.settings.slice (input_of F.StepForm p.form.now p.settings) p.phase };
}

impl<'a, F: StepForm> PollRace<'a, F> {
    /// A race that was not polled yet, over a form of a task, by rates and a budget of at most 1,000,000 conflicts. Each poll of a
    /// run grants at most `slice` conflicts, 1 to 10,000. It borrows task and form.
    pub fn new(
        alloc: Global,
        task: &'a Task,
        form: &'a F,
        rates: Rates,
        budget: u64,
        slice: u32,
    ) -> Result<PollRace<'a, F>, Memory>
        requires form_of { F.task form.now ≡ task.now }
        requires budget { budget ≤ 1000000 }
        requires slice { (1 ≤ slice) × (slice ≤ 10000) }
        ensures task { IfOk result (λ race. race.task ≡ task.now) }
        ensures form { IfOk result (λ race. race.form ≡ form.now) }
        ensures rates { IfOk result (λ race. race.settings.rates ≡ rates) }
        ensures budget { IfOk result (λ race. race.settings.budget ≡ budget) }
        ensures slice { IfOk result (λ race. race.settings.slice ≡ slice) }
        ensures stage { IfOk result (λ race. race.stage ≡ record { ended = 0; begun = 0; done = 0; granted = 0 }) }
        ensures live { IfOk result (λ race. race.given ≡ false) }
    {
        let settings = Settings::polled(rates, budget, slice);
        let phase = Phase::Between(Racing::new(alloc, &settings));
        Ok(PollRace {
            task,
            form,
            settings,
            alloc,
            phase,
        })
    }

    /// What it is about.
    pub fn task(&self) -> &'a Task
        ensures task { result.now ≡ self.now.task }
        ensures form { F.task self.now.form ≡ self.now.task }
    {
        self.task
    }

    /// Its form.
    pub fn form(&self) -> &'a F
        ensures { result.now ≡ self.now.form }
    {
        self.form
    }

    /// By what it is run: its rates, its budget and its slice, and one worker.
    pub fn settings(&self) -> Settings
        ensures { result ≡ self.now.settings }
    {
        self.settings
    }
}

impl<'a, F: StepForm> Future for PollRace<'a, F> {
    ghost use Rattle.std.specs.Prelude.{◌≡◌, false};
    ghost use Rattle.poll_batch.specs.View.{Gives};

    type Output = Result<RaceEnd, RaceError>;

    ghost can_poll = { λ race. race.given ≡ false };

    ghost gives = { Gives F.StepForm };

    fn poll(&mut self, cx: &mut Context<'_>) -> Poll<Result<RaceEnd, RaceError>>
        // As of every future.
        requires { self.old.given ≡ false }
        ensures value { IfReady result (Gives F.StepForm self.old) }
        ensures again { OnPending result (self.new.given ≡ false) }
        ensures same { OnPending result ((x : _) → Gives F.StepForm self.new x → Gives F.StepForm self.old x) }
        ensures registered { OnPending result (Covers cx.new (λ s. ⊥)) }
        ensures kept { Keeps cx.old cx.new }

        // A pending poll asks for another one, and the race is further than before.
        ensures yields { OnPending result (Covers cx.new (λ s. ⊤)) }
        ensures rises { OnPending result (IsBelow self.old.stage self.new.stage) }
        ensures fewer { OnPending result (polls_left self.new.settings.budget self.new.stage < polls_left self.old.settings.budget self.old.stage) }

        // It did one of three things: it began a round, polled one live run once, by a slice at most, or ended a round. The end comes
        // only where a round ends.
        ensures one { OnPending result (DoesOne self.old.settings.slice self.old.stage self.new.stage self.old.runs self.new.runs) }
        ensures end { IfReady result (λ given. IfOk given (λ end. (self.old.runs ≡ []) × (self.old.stage.begun ≡ 1))) }

        // After each poll that does not give the end, ledger and lines are those of the defined race after as many rounds as ended.
        ensures stands { OnPending result (Stands F.StepForm self.new) }
        ensures task { self.new.task ≡ self.old.task }
        ensures form { self.new.form ≡ self.old.form }
        ensures settings { self.new.settings ≡ self.old.settings }
    {
        let phase = mem::replace(&mut self.phase, Phase::Given);
        match next_phase(self.alloc, self.task, self.form, &self.settings, phase, cx) {
            Ok(Next::On(phase)) => {
                put(&mut self.phase, phase);
                cx.yield_now()
            }
            Ok(Next::End(end)) => Poll::Ready(Ok(end)),
            Err(error) => Poll::Ready(Err(error)),
        }
    }
}

/// A race is ready after finitely many polls: each round that ends spends at least one conflict of the budget.
impl<'a, F: StepForm> Bounded for PollRace<'a, F> {
    ghost use Rattle.poll_batch.specs.own.Numbers.{polls_left};

    ghost polls_left = { λ race. polls_left race.settings.budget race.stage };

    fn poll_on(&mut self, cx: &mut Context<'_>) -> Poll<Result<RaceEnd, RaceError>> {
        self.poll(cx)
    }
}
