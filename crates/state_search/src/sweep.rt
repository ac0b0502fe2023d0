//! Sweeping: each action that can run in a stored state is tried, in the order of the states, so that nothing is left out.

ghost use Rattle.std.specs.Prelude.{◌≡◌, ◌+◌, ◌<◌, ◌≤◌, Some, length, slice_get, slice_index, IfOk};
ghost use Rattle.state_store.specs.Packed.{unpacked, IsPacked, width_of};
ghost use Rattle.successors.specs.Trie.{IsBefore};
ghost use Rattle.successors.specs.Ways.{IsWays};
ghost use Rattle.state_search.specs.Answer.{IsEnd, IsLeast};
ghost use Rattle.state_search.specs.own.Walk.{IsWalk, none_tried};
ghost use Rattle.state_search.specs.own.Closing.{IsClosing, IsGoalLast, IsClosedOff};
ghost use Rattle.state_search.specs.own.Breadth.{IsBreadth, IsFound, IsSwept};

use crate::answer::End;
use crate::path::path_to;
use crate::walk::{Proposed, propose};
use containers::memory::Memory;
use gt_core::task::Task;
use search_laws::laws::laws;
use state_store::store::Store;
use std::alloc::Global;
use successors::next::{copy, is_goal};
use successors::row::holds;
use successors::ways::Ways;

/// What came of sweeping: so much is closed, or a goal was entered last, or there is no room.
#[derive(Clone, Copy, PartialEq, Eq)]
pub(crate) enum Swept {
    Closed,
    Goal,
    Full,
}

/// Tries the actions from one place of the trie to another one in a stored state, until one leads to a goal.
fn sweep_part(
    task: &Task,
    ways: &Ways,
    store: &mut Store,
    before: &[u64],
    after: &mut Vec<u64>,
    number: u32,
    from: usize,
    to: usize,
) -> Swept
    requires ways { IsWays task.now ways.now }
    requires rising { from ≤ to }
    requires within { to ≤ length ways.now.trie.acts }
    requires closing { IsClosing task.now store.old number (IsBefore ways.now.trie.acts from) }
    requires packed { IsPacked task.now.facts before.now }
    requires at { slice_get store.old.states number ≡ Some (unpacked task.now.facts before.now) }
    requires after { length after.old.items ≡ length before.now }
    ensures closing { IsClosedOff task.now store.new number (IsBefore ways.now.trie.acts to) result }
    ensures breadth { IsBreadth task.now store.old number (IsBefore ways.now.trie.acts from) → IsSwept task.now store.new number (IsBefore ways.now.trie.acts to) result }
    ensures at { slice_get store.new.states number ≡ Some (unpacked task.now.facts before.now) }
    ensures most { store.new.most ≡ store.old.most }
    ensures room { store.new.room ≡ store.old.room }
    ensures after { length after.new.items ≡ length after.old.items }
{
    for place in from..to {
        match propose(
            task,
            ways,
            store,
            before,
            after,
            number,
            ways.trie.act(place),
        ) {
            Proposed::Entered => {
                if is_goal(task, after) {
                    return Swept::Goal;
                }
            }
            Proposed::Full => return Swept::Full,
            Proposed::Unable => {}
            Proposed::Known => {}
        }
    }
    Swept::Closed
}

/// Tries the actions of the nodes of the trie in a stored state, until one leads to a goal.
fn sweep_nodes(
    task: &Task,
    ways: &Ways,
    store: &mut Store,
    before: &[u64],
    after: &mut Vec<u64>,
    number: u32,
) -> Swept
    requires ways { IsWays task.now ways.now }
    requires closing { IsClosing task.now store.old number (IsBefore ways.now.trie.acts (slice_index ways.now.trie.froms 0)) }
    requires packed { IsPacked task.now.facts before.now }
    requires at { slice_get store.old.states number ≡ Some (unpacked task.now.facts before.now) }
    requires after { length after.old.items ≡ length before.now }
    ensures closing { IsClosedOff task.now store.new (number + 1) none_tried result }
    ensures breadth { IsBreadth task.now store.old number (IsBefore ways.now.trie.acts (slice_index ways.now.trie.froms 0)) → IsSwept task.now store.new (number + 1) none_tried result }
    ensures most { store.new.most ≡ store.old.most }
    ensures room { store.new.room ≡ store.old.room }
    ensures after { length after.new.items ≡ length after.old.items }
{
    // For the proof: the task is lawful.
    let _facts = task.facts();
    let mut node = 0usize;
    while node < ways.trie.len() {
        if !holds(before, ways.trie.lit(node)) {
            node = ways.trie.skip(node);
            continue;
        }
        let to = ways.trie.from(node + 1);
        match sweep_part(
            task,
            ways,
            store,
            before,
            after,
            number,
            ways.trie.from(node),
            to,
        ) {
            Swept::Closed => node += 1,
            Swept::Goal => return Swept::Goal,
            Swept::Full => return Swept::Full,
        }
    }
    Swept::Closed
}

/// Tries each action that can run in a stored state, until one leads to a goal.
fn sweep(
    task: &Task,
    ways: &Ways,
    store: &mut Store,
    before: &mut Vec<u64>,
    after: &mut Vec<u64>,
    number: u32,
) -> Swept
    requires ways { IsWays task.now ways.now }
    requires closing { IsClosing task.now store.old number none_tried }
    requires number { number < length store.old.states }
    requires before { length before.old.items ≡ width_of task.now.facts }
    requires after { length after.old.items ≡ width_of task.now.facts }
    ensures closing { IsClosedOff task.now store.new (number + 1) none_tried result }
    ensures breadth { IsBreadth task.now store.old number none_tried → IsSwept task.now store.new (number + 1) none_tried result }
    ensures most { store.new.most ≡ store.old.most }
    ensures room { store.new.room ≡ store.old.room }
    ensures before { length before.new.items ≡ length before.old.items }
    ensures after { length after.new.items ≡ length after.old.items }
{
    copy(store.row(number), before);
    match sweep_part(
        task,
        ways,
        store,
        before,
        after,
        number,
        0,
        ways.trie.from(0),
    ) {
        Swept::Closed => sweep_nodes(task, ways, store, before, after, number),
        Swept::Goal => Swept::Goal,
        Swept::Full => Swept::Full,
    }
}

/// The plan to the goal that was entered last.
pub(crate) fn plan_of(alloc: Global, task: &Task, store: &Store) -> Result<End, Memory>
    requires { IsGoalLast task.now store.now }
    ensures ends { IfOk result (λ end. IsEnd task.now store.now.most (length store.now.states) end) }
    ensures least { IfOk result (λ end. IsFound task.now store.now → IsLeast task.now end) }
{
    laws();
    // For the proof: the task is lawful.
    let _facts = task.facts();
    Ok(End::Plan(path_to(alloc, task, store, store.len() - 1)?))
}

/// Sweeps the stored states in their order, none of which is a goal. Where the initial one is alone at first, the plan has the least
/// number of actions.
pub(crate) fn sweep_all(
    alloc: Global,
    task: &Task,
    ways: &Ways,
    store: &mut Store,
    before: &mut Vec<u64>,
    after: &mut Vec<u64>,
) -> Result<End, Memory>
    requires ways { IsWays task.now ways.now }
    requires closing { IsClosing task.now store.old 0 none_tried }
    requires before { length before.old.items ≡ width_of task.now.facts }
    requires after { length after.old.items ≡ width_of task.now.facts }
    ensures walk { IfOk result (λ end. IsWalk task.now store.new) }
    ensures ends { IfOk result (λ end. IsEnd task.now store.new.most (length store.new.states) end) }
    ensures least { IfOk result (λ end. IsBreadth task.now store.old 0 none_tried → IsLeast task.now end) }
    ensures most { store.new.most ≡ store.old.most }
    ensures room { store.new.room ≡ store.old.room }
    ensures before { length before.new.items ≡ length before.old.items }
    ensures after { length after.new.items ≡ length after.old.items }
{
    laws();
    // For the proof: the task is lawful.
    let _facts = task.facts();
    let mut number = 0;
    while number < store.len() {
        match sweep(task, ways, store, before, after, number) {
            Swept::Closed => number += 1,
            Swept::Goal => return plan_of(alloc, task, store),
            Swept::Full => return Ok(End::Unfinished),
        }
    }
    Ok(End::NoPlan)
}
