//! Breadth first: a plan with the least number of actions, or that there is none of any length.
//!
//! The stored states are swept in their order from the initial one alone. So the depths of the states do not fall, and the first goal
//! is at the least depth.

ghost use Rattle.std.specs.Prelude.{◌<◌, IfOk};
ghost use Rattle.state_search.specs.Answer.{IsAnswer, IsLeast};

use crate::answer::{Actions, Answer, End, answer_of};
use crate::room::Room;
use crate::sweep::sweep_all;
use crate::walk::{begin, is_goal};
use containers::memory::Memory;
use gt_core::task::Task;
use std::alloc::Global;

/// A plan with the least number of actions, or that there is none of any length, by entering so many states at most.
pub fn least(alloc: Global, task: &Task, most: u32) -> Result<Answer, Memory>
    requires { 0 < most }
    ensures answer { IfOk result (λ a. IsAnswer task.now most a) }
    ensures least { IfOk result (λ a. IsLeast task.now a.end) }
{
    // For the proof: the task is lawful.
    let _facts = task.facts();
    if task.hopeless() {
        return Ok(Answer {
            states: 0,
            end: End::NoPlan,
        });
    }
    let mut room = Room::new(alloc, task, most)?;
    begin(task, &mut room.store, &room.first, most);
    if is_goal(task, task.init()) {
        return Ok(answer_of(task, &room.store, End::Plan(Actions::new(alloc))));
    }
    let end = sweep_all(
        alloc,
        task,
        &room.ways,
        &mut room.store,
        &mut room.before,
        &mut room.after,
    )?;
    Ok(answer_of(task, &room.store, end))
}
