//! What is proposed by relaxed plans.

use crate::costs::{Costs, NEVER, unmark};
use crate::open::{Open, Preferred};
use crate::relaxation::Relaxation;
use containers::memory::Memory;
use gt_core::task::Task;
use state_search::follow::{Offer, Proposer};
use state_store::store::Store;
use std::alloc::Global;
use successors::trie::Trie;

/// How many preferred actions come first once a state costs less than all before.
const BOOST: u64 = 1000;

/// The costs of states, their actions, those of them that are preferred, and how many of either were taken. All memory is taken when
/// it is made.
#[derive(Drop)]
pub struct RelaxedPlans {
    all: Relaxation,
    costs: Costs,
    open: Open,
    preferred: Preferred,
    used: Vec<bool>,
    acts: Vec<u32>,
    best: u32,
    plain: u64,
    first: u64,
}

impl RelaxedPlans {
    /// Nothing was entered of a task. There is room for so many states.
    pub fn new(alloc: Global, task: &Task, most: u32) -> Result<RelaxedPlans, Memory> {
        let all = Relaxation::new(alloc, task)?;
        let costs = Costs::new(alloc, &all)?;
        let actions = task.acts().len();
        Ok(RelaxedPlans {
            all,
            costs,
            open: Open::new(alloc, actions, most)?,
            preferred: Preferred::new(alloc, most)?,
            used: vec![in alloc; false; actions]?,
            acts: Vec::with_capacity(alloc, actions)?,
            best: NEVER,
            plain: 0,
            first: 0,
        })
    }

    /// Lets go of all states. The room stays.
    pub fn clear(&mut self) {
        self.open.clear();
        self.preferred.clear();
        self.best = NEVER;
        self.plain = 0;
        self.first = 0;
    }

    /// What a state costs; the actions of a relaxed plan from there are used.
    fn cost_of(&mut self, row: &[u64]) -> Result<u32, Memory> {
        let cost = self.costs.compute(&self.all, row)?;
        unmark(&mut self.used);
        if cost < NEVER {
            self.costs.plan(&self.all, &mut self.used)?;
        }
        if cost < self.best {
            self.best = cost;
            self.plain = self.plain.saturating_add(BOOST);
        }
        Ok(cost)
    }

    /// Notes the actions that can run in a state and are preferred.
    fn note(&mut self, trie: &Trie, row: &[u64]) -> Result<(), Memory> {
        trie.list(row, &mut self.acts)?;
        for act in &self.acts {
            if self.used.get(*act as usize) == Some(&true) {
                self.preferred.add(*act)?;
            }
        }
        Ok(())
    }
}

impl Proposer for RelaxedPlans {
    fn entered(
        &mut self,
        _task: &Task,
        trie: &Trie,
        number: u32,
        row: &[u64],
    ) -> Result<(), Memory> {
        let cost = self.cost_of(row)?;
        self.note(trie, row)?;
        self.open.add(cost, number)?;
        self.preferred.close(cost, number)
    }

    fn next(&mut self, trie: &Trie, store: &Store) -> Option<Offer> {
        if self.first <= self.plain {
            if let Some(offer) = self.preferred.pop() {
                self.first = self.first.saturating_add(1);
                return Some(offer);
            }
        }
        if let Some(offer) = self.open.pop(trie, store) {
            self.plain = self.plain.saturating_add(1);
            return Some(offer);
        }
        self.preferred.pop()
    }
}
