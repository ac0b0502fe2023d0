//! How many states a walk may enter.
ghost use Rattle.std.specs.Prelude.{◌≡◌, ◌≤◌, ◌<◌};
ghost use Rattle.search_top.specs.Budget.{held_by, budget_of};

use crate::request::How;
use gt_core::task::Task;

// The bytes of a megabyte.
const MEGABYTE: u64 = 1_048_576;

// How many states so many bytes hold.
fn held_by(how: How, task: &Task, bytes: u64) -> u32
    ensures { result ≡ held_by how task.now bytes }
{
    match how {
        How::Greedy => greedy_walk::bytes::most_within(task.facts(), bytes),
        How::Least => state_store::store::most_within(task.facts(), bytes),
    }
}

/// As many states as are asked for, where so many megabytes hold them, and one at least.
pub(crate) fn budget_of(how: How, task: &Task, states: u32, memory: u32) -> u32
    requires { 1 ≤ states }
    ensures budget { result ≡ budget_of how states memory task.now }
    ensures some { 0 < result }
{
    let bytes = u64::from(memory) * MEGABYTE;
    held_by(how, task, bytes).max(1).min(states)
}
