//! What a check of clauses is given.

use containers::FlatLists;
use gt_core::pairs::Pairs;
use gt_core::task::Task;

/// A task, its known clauses, and the clauses that are checked.
#[derive(Drop)]
pub struct Given<'a> {
    pub task: &'a Task,
    pub known: &'a Pairs,
    pub clauses: &'a FlatLists<u32>,
}
