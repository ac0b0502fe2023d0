//! A walk that goes after proposals: of a stored state, and of an action in it. Whoever proposes is not trusted, and has only to
//! return.

ghost use Rattle.std.specs.Prelude.{◌≡◌, ◌<◌, ◌≤◌, length, IfOk};
ghost use Rattle.state_store.specs.Packed.{unpacked, IsPacked, width_of};
ghost use Rattle.successors.specs.Ways.{IsWays};
ghost use Rattle.state_search.specs.Answer.{IsAnswer, IsEnd};
ghost use Rattle.state_search.specs.Room.{IsRoom};
ghost use Rattle.state_search.specs.own.Walk.{IsWalk, HasNoGoal};
ghost use Rattle.state_search.specs.own.Follow.{IsOffered};
ghost use Rattle.state_search.specs.declared.walk.Proposed.TheVariants.{Entered};

use crate::answer::{Actions, Answer, End, answer_of};
use crate::room::Room;
use crate::sweep::{plan_of, sweep_all};
use crate::walk::{Proposed, begin, is_goal as is_goal_at_once, propose};
use containers::memory::Memory;
use gt_core::task::Task;
use state_store::store::Store;
use std::alloc::Global;
use successors::next::{copy, is_goal};
use successors::trie::Trie;
use successors::ways::Ways;

/// A stored state, and an action in it.
#[derive(Clone, Copy)]
pub struct Offer {
    pub parent: u32,
    pub act: u32,
}

/// Says where a walk goes on.
pub trait Proposer {
    /// Takes note of a state that was entered under this number.
    fn entered(&mut self, task: &Task, trie: &Trie, number: u32, row: &[u64]) -> Result<(), Memory>;

    /// The state and the action that come next; none where there is nothing more to propose.
    fn next(&mut self, trie: &Trie, store: &Store) -> Option<Offer>;
}

/// Tries what was proposed.
fn offered(
    task: &Task,
    ways: &Ways,
    store: &mut Store,
    before: &mut Vec<u64>,
    after: &mut Vec<u64>,
    offer: Offer,
) -> Proposed
    requires ways { IsWays task.now ways.now }
    requires walk { IsWalk task.now store.old }
    requires before { length before.old.items ≡ width_of task.now.facts }
    requires after { length after.old.items ≡ width_of task.now.facts }
    ensures offered { IsOffered task.now store.old store.new (unpacked task.now.facts after.new.items) result }
    ensures packed { result ≡ Entered → IsPacked task.now.facts after.new.items }
    ensures walk { IsWalk task.now store.new }
    ensures before { length before.new.items ≡ length before.old.items }
    ensures after { length after.new.items ≡ length after.old.items }
{
    if offer.parent >= store.len() || offer.act as usize >= task.acts().len() {
        return Proposed::Unable;
    }
    copy(store.row(offer.parent), before);
    propose(task, ways, store, before, after, offer.parent, offer.act)
}

/// Goes after all that is proposed, and sweeps what is left.
fn follow_all<P: Proposer>(
    alloc: Global,
    task: &Task,
    ways: &Ways,
    store: &mut Store,
    before: &mut Vec<u64>,
    after: &mut Vec<u64>,
    proposer: &mut P,
) -> Result<End, Memory>
    requires ways { IsWays task.now ways.now }
    requires walk { IsWalk task.now store.old }
    requires no_goal { HasNoGoal task.now store.old.states }
    requires before { length before.old.items ≡ width_of task.now.facts }
    requires after { length after.old.items ≡ width_of task.now.facts }
    ensures walk { IfOk result (λ end. IsWalk task.now store.new) }
    ensures ends { IfOk result (λ end. IsEnd task.now store.new.most (length store.new.states) end) }
    ensures most { store.new.most ≡ store.old.most }
    ensures room { store.new.room ≡ store.old.room }
    ensures before { length before.new.items ≡ length before.old.items }
    ensures after { length after.new.items ≡ length after.old.items }
{
    for _turn in 0..u64::MAX {
        let Some(offer) = proposer.next(&ways.trie, store) else {
            break;
        };
        match offered(task, ways, store, before, after, offer) {
            Proposed::Entered => {
                if is_goal(task, after) {
                    return plan_of(alloc, task, store);
                }
                proposer.entered(task, &ways.trie, store.len() - 1, after)?;
            }
            Proposed::Full => return Ok(End::Unfinished),
            Proposed::Unable => {}
            Proposed::Known => {}
        }
    }
    sweep_all(alloc, task, ways, store, before, after)
}

/// A plan, or that there is none of any length, by entering so many states at most, where a proposer leads. The room serves the next
/// walk.
pub fn follow_in<P: Proposer>(
    alloc: Global,
    task: &Task,
    room: &mut Room,
    most: u32,
    proposer: &mut P,
) -> Result<Answer, Memory>
    requires some { 0 < most }
    requires size { most ≤ room.old.store.room }
    requires room { IsRoom task.now room.old }
    ensures answer { IfOk result (λ a. IsAnswer task.now most a) }
    ensures room { IfOk result (λ a. IsRoom task.now room.new) }
    ensures size { IfOk result (λ a. room.new.store.room ≡ room.old.store.room) }
{
    // For the proof: the task is lawful.
    let _facts = task.facts();
    if task.hopeless() {
        return Ok(Answer {
            states: 0,
            end: End::NoPlan,
        });
    }
    begin(task, &mut room.store, &room.first, most);
    if is_goal_at_once(task, task.init()) {
        return Ok(answer_of(task, &room.store, End::Plan(Actions::new(alloc))));
    }
    proposer.entered(task, &room.ways.trie, 0, &room.first)?;
    let end = follow_all(
        alloc,
        task,
        &room.ways,
        &mut room.store,
        &mut room.before,
        &mut room.after,
        proposer,
    )?;
    Ok(answer_of(task, &room.store, end))
}

/// The same, with room of its own.
pub fn follow<P: Proposer>(
    alloc: Global,
    task: &Task,
    most: u32,
    proposer: &mut P,
) -> Result<Answer, Memory>
    requires { 0 < most }
    ensures { IfOk result (λ a. IsAnswer task.now most a) }
{
    let mut room = Room::new(alloc, task, most)?;
    follow_in(alloc, task, &mut room, most, proposer)
}
