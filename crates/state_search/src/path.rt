//! The actions that lead to a stored state.

ghost use Rattle.std.specs.Prelude.{◌≡◌, ℕ, ◌<◌, List, Bool, Some, length, slice_get, slice_index, IfOk};
ghost use Rattle.gt_core.specs.Literal.{state_of};
ghost use Rattle.gt_core.specs.Execution.{IsGoal};
ghost use Rattle.gt_core.specs.Laws.{IsRunToGoal};
ghost use Rattle.state_search.specs.own.Walk.{IsWalk};
ghost use Rattle.state_search.specs.own.Breadth.{AreFrom};

use crate::answer::Actions;
use containers::memory::Memory;
use gt_core::task::Task;
use state_store::store::Store;
use std::alloc::Global;

/// The actions from the initial state to a stored one, which is a goal.
pub(crate) fn path_to(
    alloc: Global,
    task: &Task,
    store: &Store,
    number: u32,
) -> Result<Actions, Memory>
    requires walk { IsWalk task.now store.now }
    requires number { number < length store.now.states }
    requires goal { (s : List Bool) → slice_get store.now.states number ≡ Some s → IsGoal task.now (state_of s) }
    ensures runs { IfOk result (λ actions. IsRunToGoal task.now actions) }
    ensures long { IfOk result (λ actions. (depths : List ℕ) → AreFrom store.now.parents depths → length actions ≡ slice_index depths number) }
{
    // For the proof: the task is lawful.
    let _facts = task.facts();
    let mut actions = Vec::new(alloc);
    let mut at = number;
    while at > 0 {
        actions.push(store.action(at))?;
        at = store.parent(at);
    }
    actions.reverse();
    Ok(Actions::of(actions))
}
