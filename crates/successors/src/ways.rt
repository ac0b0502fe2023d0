//! The actions of a task, as a walk asks for them.

ghost use Rattle.std.specs.Prelude.{IfOk};
ghost use Rattle.successors.specs.Ways.{IsWays};

use crate::moves::Moves;
use crate::trie::Trie;
use containers::memory::Memory;
use gt_core::task::Task;
use std::alloc::Global;

/// The actions by their preconditions, and what each needs and does.
#[derive(Drop)]
pub struct Ways {
    pub trie: Trie,
    pub moves: Moves,
}

impl Ways {
    /// The actions of a task.
    pub fn new(alloc: Global, task: &Task) -> Result<Ways, Memory>
        ensures { IfOk result (λ w. IsWays task.now w) }
    {
        Ok(Ways {
            trie: Trie::new(alloc, task)?,
            moves: Moves::new(alloc, task)?,
        })
    }
}
