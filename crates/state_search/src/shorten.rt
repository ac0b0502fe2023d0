//! Shortening of a plan: an action is taken out where the others still run to the goal.

ghost use Rattle.std.specs.Prelude.{◌≡◌, ℕ, ◌≤◌, true, length, IfOk};
ghost use Rattle.gt_core.specs.Laws.{IsRunToGoal};

use crate::answer::Actions;
use crate::walk::is_goal;
use containers::memory::Memory;
use gt_core::task::Task;
use std::alloc::Global;

/// Whether actions run one after the other from the initial state, and reach the goal. `before` and `after` are room for two states.
pub fn run_to_goal(task: &Task, actions: &[u32], before: &mut [bool], after: &mut [bool]) -> bool
    requires before { length before.old ≡ task.now.facts }
    requires after { length after.old ≡ task.now.facts }
    ensures runs { result ≡ true → IsRunToGoal task.now actions.now }
    ensures before { length before.new ≡ length before.old }
    ensures after { length after.new ≡ length after.old }
{
    // For the proof: the task is lawful.
    let _facts = task.facts();
    before.copy_from_slice(task.init());
    for act in actions {
        if *act as usize >= task.acts().len() || !task.next(before, *act, after) {
            return false;
        }
        before.copy_from_slice(after);
    }
    is_goal(task, before)
}

/// The actions without the one at a place.
fn without(alloc: Global, actions: &[u32], place: usize) -> Result<Actions, Memory>
    ensures { IfOk result (λ fewer. length fewer ≤ length actions.now) }
{
    let mut fewer = Vec::from_slice(alloc, actions)?;
    if place < fewer.len() {
        fewer.remove(place);
    }
    Ok(Actions::of(fewer))
}

/// The actions of a plan, less each that is not needed where the later ones are kept.
pub fn shorten(alloc: Global, task: &Task, actions: Actions) -> Result<Actions, Memory>
    requires { IsRunToGoal task.now actions }
    ensures runs { IfOk result (λ fewer. IsRunToGoal task.now fewer) }
    ensures fewer { IfOk result (λ fewer. length fewer ≤ length actions) }
{
    let facts = task.facts() as usize;
    let mut before = vec![in alloc; false; facts]?;
    let mut after = vec![in alloc; false; facts]?;
    let mut best = actions;
    let mut place = 0usize;
    for _turn in 0..best.as_slice().len() {
        let fewer = without(alloc, best.as_slice(), place)?;
        if run_to_goal(task, fewer.as_slice(), &mut before, &mut after) {
            best = fewer;
        } else {
            place = place.saturating_add(1);
        }
    }
    Ok(best)
}
