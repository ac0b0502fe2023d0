//! Facts that were true in the states of a kind.

use containers::memory::Memory;
use gt_core::task::Task;
use state_store::pack::width_of;
use std::alloc::Global;
use successors::row::tells;

/// For each kind of state the facts that were true in one, as a row of words. All memory is taken when it is made.
#[derive(Drop)]
pub struct Seen {
    width: usize,
    words: Vec<u64>,
}

/// How many literals of the goal do not hold in the state of a row.
pub fn unmet_in(task: &Task, row: &[u64]) -> usize {
    let mut unmet = 0usize;
    for lit in task.goal() {
        if !tells(row, *lit) {
            unmet = unmet.saturating_add(1);
        }
    }
    unmet
}

impl Seen {
    /// No fact was true in a state of so many kinds.
    pub fn new(alloc: Global, task: &Task, kinds: usize) -> Result<Seen, Memory> {
        // For the proof: the task is lawful.
        let facts = task.facts();
        let width = width_of(facts);
        Ok(Seen {
            width,
            words: vec![in alloc; 0u64; width.saturating_mul(kinds)]?,
        })
    }

    /// No fact was true.
    pub fn clear(&mut self) {
        for place in 0..self.words.len() {
            self.words[place] = 0;
        }
    }

    /// Notes the facts of a state of a kind, and tells whether one is new.
    fn note(&mut self, row: &[u64], kind: usize) -> bool {
        let mut new = false;
        let from = kind.saturating_mul(self.width);
        for place in 0..row.len() {
            let word = row[place];
            if let Some(seen) = self.words.get_mut(from.saturating_add(place)) {
                if word & !*seen != 0 {
                    new = true;
                    *seen = *seen | word;
                }
            }
        }
        new
    }

    /// The key of a state of a kind with so many of the goals unmet, which is noted: by these, and behind all states with a new fact
    /// where it has none.
    pub fn key_of(&mut self, row: &[u64], kind: usize, unmet: usize, goals: usize) -> usize {
        if self.note(row, kind) {
            return unmet;
        }
        unmet.saturating_add(goals).saturating_add(1)
    }
}
