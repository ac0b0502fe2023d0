//! What is proposed by novelty.

use crate::expanding::Expanding;
use crate::seen::{Seen, unmet_in};
use containers::memory::Memory;
use gt_core::task::Task;
use state_search::follow::{Offer, Proposer};
use state_store::store::Store;
use std::alloc::Global;
use successors::trie::Trie;

/// Which facts were true so far in a state with so many unmet goals, and the states that are left. All memory is taken when it is made.
#[derive(Drop)]
pub struct Novelty {
    seen: Seen,
    goals: usize,
    left: Expanding,
}

impl Novelty {
    /// Nothing was seen of a task. There is room for so many states.
    pub fn new(alloc: Global, task: &Task, most: u32) -> Result<Novelty, Memory> {
        let goals = task.goal().len();
        let rows = goals.saturating_add(1);
        Ok(Novelty {
            seen: Seen::new(alloc, task, rows)?,
            goals,
            left: Expanding::new(alloc, rows.saturating_mul(2), task.acts().len(), most)?,
        })
    }

    /// Lets go of all that was seen. The room stays.
    pub fn clear(&mut self) {
        self.seen.clear();
        self.left.clear();
    }
}

impl Proposer for Novelty {
    fn entered(
        &mut self,
        task: &Task,
        _trie: &Trie,
        number: u32,
        row: &[u64],
    ) -> Result<(), Memory> {
        let unmet = unmet_in(task, row);
        let key = self.seen.key_of(row, unmet, unmet, self.goals);
        self.left.push(key, number)
    }

    fn next(&mut self, trie: &Trie, store: &Store) -> Option<Offer> {
        self.left.next(trie, store)
    }
}
