//! A walk through the states of a ground task.
ghost use Rattle.std.specs.Prelude.{◌<◌, IfOk};
ghost use Rattle.state_search.specs.Answer.{IsAnswer};
ghost use Rattle.search_top.specs.Answers.{IsLeastBy};

use crate::request::How;
use greedy_walk::greedy::greedy;
use gt_core::task::Task;
use pl_io::Memory;
use state_search::answer::Answer;
use state_search::least::least;
use std::alloc::Global;

/// What a walk comes to that may enter so many states.
pub(crate) fn walk(alloc: Global, how: How, task: &Task, most: u32) -> Result<Answer, Memory>
    requires { 0 < most }
    ensures answer { IfOk result (λ a. IsAnswer task.now most a) }
    ensures least { IfOk result (λ a. IsLeastBy how task.now a.end) }
{
    match how {
        How::Greedy => greedy(alloc, task, most),
        How::Least => least(alloc, task, most),
    }
}
