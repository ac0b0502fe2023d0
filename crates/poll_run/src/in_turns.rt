// Futures that are polled in turn.
ghost use Rattle.std.specs.Prelude.{⊤, ◌≡◌, ◌≤◌, ◌<◌, ◌-◌, true, false, All, length, map, IfOk};
ghost use Rattle.std.specs.List.{AllByRecursion, AllZip};
ghost use Rattle.futures.specs.Poll.{IfReady, OnPending};
ghost use Rattle.futures.specs.Task.{Covers, Keeps};
ghost use Rattle.futures.specs.Joined.{IsLive, IsDone, MayGive};
ghost use Rattle.pl_io.specs.Outside.{Rose};
ghost use Rattle.poll_run.specs.own.Turns.{AreLive, AreAllPlaces, GivesAll, MayEnd, Narrows, FallAt, slot_left, slots_left};

use crate::{Bounded, Driver};
use futures::Future;
use futures::future::MaybeDone;
use futures::task::{Context, Poll};
use std::alloc::{AllocError, Global};
use std::mem;

/// Why futures were not brought to their ends.
#[derive(Clone, Copy, PartialEq, Eq)]
pub enum TurnsError {
    /// The driver gave up.
    Driver,
    /// Want of memory.
    Memory,
}

/// Futures of one type, or what they gave. Each poll goes through `turns`, which are places of the list, and polls each future
/// that is not ready yet at each of its turns. `T` is the output of `A`.
#[derive(Drop)]
struct InTurns<'t, A, T> {
    slots: Vec<MaybeDone<A, T>>,
    turns: &'t [u32],
    alloc: Global,
}

impl<'t, A: Bounded<Output: Drop>> InTurns<'t, A, A::Output> {
    /// Futures that were not polled yet.
    fn new(
        alloc: Global,
        futures: Vec<A>,
        turns: &'t [u32],
    ) -> Result<InTurns<'t, A, A::Output>, AllocError>
        requires live { AllByRecursion A.can_poll futures.items }
        requires within { All (λ t. t < length futures.items) turns.now }
        ensures live { IfOk result (λ all. AreLive A.can_poll all) }
        ensures gives { IfOk result (λ all. (ends : _) → GivesAll A.gives all ends → AllZip A.gives futures.items ends) }
    {
        let mut slots = Vec::new(alloc);
        for future in futures {
            slots.push(MaybeDone::Future(future))?;
        }
        Ok(InTurns {
            slots,
            turns,
            alloc,
        })
    }
}

/// Polls the future of a slot, if it was not ready yet.
fn advance<A: Bounded<Output: Drop>>(slot: &mut MaybeDone<A, A::Output>, cx: &mut Context<'_>)
    requires { IsLive A.can_poll slot.old }
    ensures live { IsLive A.can_poll slot.new }
    ensures same { (x : _) → MayGive A.gives slot.new x → MayGive A.gives slot.old x }
    ensures falls { slot_left A.polls_left slot.new ≤ slot_left A.polls_left slot.old - 1 }
    ensures kept { Keeps cx.old cx.new }
{
    let MaybeDone::Future(future) = slot else {
        return;
    };
    match future.poll_on(cx) {
        Poll::Ready(output) => *slot = MaybeDone::Done(output),
        Poll::Pending => {}
    }
}

/// Polls each future that is not ready yet at each of its turns.
fn poll_each<A: Bounded<Output: Drop>>(
    slots: &mut Vec<MaybeDone<A, A::Output>>,
    turns: &[u32],
    cx: &mut Context<'_>,
)
    requires live { AllByRecursion (IsLive A.can_poll) slots.old.items }
    requires within { All (λ t. t < length slots.old.items) turns.now }
    ensures live { AllByRecursion (IsLive A.can_poll) slots.new.items }
    ensures many { length slots.new.items ≡ length slots.old.items }
    ensures same { Narrows A.gives slots.old.items slots.new.items }
    ensures falls { FallAt A.polls_left slots.old.items slots.new.items turns.now }
    ensures kept { Keeps cx.old cx.new }
{
    for turn in turns {
        advance(&mut slots[*turn as usize], cx);
    }
}

/// Whether all are ready.
fn are_done<A, T>(slots: &[MaybeDone<A, T>]) -> bool
    ensures all { result ≡ true → AllByRecursion IsDone slots.now }
    ensures undone { result ≡ false → AllByRecursion IsDone slots.now → ⊥ }
{
    for slot in slots {
        if !matches!(slot, MaybeDone::Done(_)) {
            return false;
        }
    }
    true
}

/// What each future gave, where all are ready.
fn take_all<A: Drop, T: Drop>(
    alloc: Global,
    slots: Vec<MaybeDone<A, T>>,
) -> Result<Vec<T>, AllocError>
    requires { AllByRecursion IsDone slots.items }
    ensures { IfOk result (λ ends. slots.items ≡ map MaybeDone.Done ends.items) }
{
    let mut ends = Vec::new(alloc);
    for slot in slots {
        match slot {
            MaybeDone::Done(end) => ends.push(end)?,
            // All are done: the caller's condition.
            _ => unreachable!(),
        }
    }
    Ok(ends)
}

impl<'t, A: Bounded<Output: Drop>> Future for InTurns<'t, A, A::Output> {
    ghost use Rattle.poll_run.specs.own.Turns.{AreLive, MayEnd};

    type Output = Result<Vec<A::Output>, AllocError>;

    ghost can_poll = { AreLive A.can_poll };

    ghost gives = { MayEnd A.gives };

    fn poll(&mut self, cx: &mut Context<'_>) -> Poll<Self::Output>
        // As of every future.
        requires { AreLive A.can_poll self.old }
        ensures value { IfReady result (MayEnd A.gives self.old) }
        ensures again { OnPending result (AreLive A.can_poll self.new) }
        ensures same { OnPending result ((x : _) → MayEnd A.gives self.new x → MayEnd A.gives self.old x) }
        ensures registered { OnPending result (Covers cx.new (λ s. ⊥)) }
        ensures kept { Keeps cx.old cx.new }

        // A pending poll asks for another one. Each future that is not ready yet was polled at its turns: where each place has one,
        // fewer polls are left, so that only so many are pending.
        ensures yields { OnPending result (Covers cx.new (λ s. ⊤)) }
        ensures polls { OnPending result (FallAt A.polls_left self.old.slots.items self.new.slots.items self.old.turns.now) }
        ensures fewer { OnPending result (AreAllPlaces (length self.old.slots.items) self.old.turns.now
            → slots_left A.polls_left self.new.slots.items < slots_left A.polls_left self.old.slots.items) }
    {
        poll_each(&mut self.slots, self.turns, cx);
        if are_done(self.slots.as_slice()) {
            let slots = mem::replace(&mut self.slots, Vec::new(self.alloc));
            return Poll::Ready(take_all(self.alloc, slots));
        }
        cx.yield_now()
    }
}

/// Drives futures that were not polled yet to their ends, by one future, and gives what each gave, in the order of the list. Each
/// poll of the one goes through `turns`, which are places of the list counted from 0, and polls each future that is not ready yet at
/// each of its turns. Where each place has a turn, only so many polls are pending. `Driver` comes only where the driver's count of
/// faults rose, or stands at its last value; the futures are gone then. It may wait.
pub fn drive_in_turns<A: Bounded<Output: Drop>, D: Driver>(
    alloc: Global,
    driver: &mut D,
    futures: Vec<A>,
    turns: &[u32],
) -> Result<Vec<A::Output>, TurnsError>
    requires live { AllByRecursion A.can_poll futures.items }
    requires within { All (λ t. t < length futures.items) turns.now }
    ensures ends { IfOk result (λ ends. AllZip A.gives futures.items ends.items) }
    ensures later { D.faults driver.old ≤ D.faults driver.new }
    ensures failed { result ≡ Err TurnsError.Driver → Rose (D.faults driver.old) (D.faults driver.new) }
{
    let Ok(batch) = InTurns::new(alloc, futures, turns) else {
        return Err(TurnsError::Memory);
    };
    match driver.drive(batch) {
        Ok(Ok(ends)) => Ok(ends),
        Ok(Err(_)) => Err(TurnsError::Memory),
        Err(_) => Err(TurnsError::Driver),
    }
}
