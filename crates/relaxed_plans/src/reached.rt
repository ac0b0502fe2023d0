//! What is proposed by novelty and relaxed plans: a state is new where it has a fact which no state before it had with as many unmet
//! goals and as many literals of a relaxed plan that were reached. The plan is that of the last state on the way that met one goal more
//! (BFWS(f5), Lipovetzky and Geffner 2017).

use crate::costs::{Costs, NEVER, unmark};
use crate::relaxation::Relaxation;
use containers::memory::Memory;
use gt_core::task::Task;
use novelty::expanding::Expanding;
use novelty::seen::{Seen, unmet_in};
use state_search::follow::{Offer, Proposer};
use state_store::store::Store;
use std::alloc::Global;
use successors::row::tells;
use successors::trie::Trie;

/// How many literals of a relaxed plan count: as many as two words have bits.
const COUNTED: usize = 128;

/// How many literals of relaxed plans are kept for each state, on average.
const KEPT: usize = 4;

/// How many words the table of the facts that were true has at most, where it has more than one row for so many unmet goals.
const WORDS: usize = 4_000_000;

/// For a state: how many goals are unmet, the number of its relaxed plan, and which literals of that were reached.
#[derive(Clone, Copy)]
struct Mark {
    unmet: u32,
    plan: u32,
    low: u64,
    high: u64,
}

/// Relaxed plans, one after the other: where each begins, and its literals. Where there is no room for more, plans are empty.
#[derive(Drop)]
struct Plans {
    begins: Vec<u32>,
    lits: Vec<u32>,
    room: usize,
}

/// The costs, the facts that were true, the states that are left, for each state its mark, and the relaxed plans. All memory is taken
/// when it is made.
#[derive(Drop)]
pub struct Reached {
    all: Relaxation,
    costs: Costs,
    used: Vec<bool>,
    seen: Seen,
    counts: usize,
    goals: usize,
    left: Expanding,
    marks: Vec<Mark>,
    plans: Plans,
}

/// A bit of two words.
fn bit_of(place: usize) -> (u64, u64) {
    let bit = 1u64 << (place % 64) as u32;
    if place < 64 { (bit, 0) } else { (0, bit) }
}

/// How many bits there are.
fn bits_in(low: u64, high: u64) -> usize {
    low.count_ones() as usize + high.count_ones() as usize
}

impl Plans {
    /// Adds a plan of these literals, as many as count and have room; its number.
    fn add(&mut self, lits: &[u32]) -> Result<u32, Memory> {
        let number = self.begins.len().min(4_294_967_295) as u32;
        self.begins.push(self.lits.len().min(4_294_967_295) as u32)?;
        for lit in lits {
            if self.lits.len() < self.room {
                self.lits.push(*lit)?;
            }
        }
        Ok(number)
    }

    /// The place of a literal of a plan, if there is one.
    fn lit(&self, plan: u32, place: usize) -> Option<u32> {
        let begin = *self.begins.get(plan as usize)? as usize;
        let at = begin.saturating_add(place);
        if let Some(end) = self.begins.get((plan as usize).saturating_add(1)) {
            if at >= *end as usize {
                return None;
            }
        }
        self.lits.get(at).copied()
    }
}

impl Reached {
    /// Nothing was entered of a task. There is room for so many states.
    pub fn new(alloc: Global, task: &Task, most: u32) -> Result<Reached, Memory> {
        let all = Relaxation::new(alloc, task)?;
        let costs = Costs::new(alloc, &all)?;
        let goals = task.goal().len();
        let rows = goals.saturating_add(1);
        let words = rows.saturating_mul(task.facts() as usize / 64 + 1);
        let counts = (WORDS / words.max(1)).max(1).min(COUNTED + 1);
        let room = (most as usize).saturating_mul(KEPT).min(4_294_967_295);
        Ok(Reached {
            all,
            costs,
            used: vec![in alloc; false; task.acts().len()]?,
            seen: Seen::new(alloc, task, rows.saturating_mul(counts))?,
            counts,
            goals,
            left: Expanding::new(alloc, rows.saturating_mul(2), task.acts().len(), most)?,
            marks: Vec::with_capacity(alloc, most as usize)?,
            plans: Plans {
                begins: Vec::with_capacity(alloc, most as usize)?,
                lits: Vec::with_capacity(alloc, room)?,
                room,
            },
        })
    }

    /// Lets go of all states. The room stays.
    pub fn clear(&mut self) {
        self.seen.clear();
        self.left.clear();
        self.marks.clear();
        self.plans.begins.clear();
        self.plans.lits.clear();
    }

    /// The mark of a state from which a new relaxed plan is made.
    fn fresh(&mut self, row: &[u64], unmet: u32) -> Result<Mark, Memory> {
        let cost = self.costs.compute(&self.all, row)?;
        unmark(&mut self.used);
        let plan = if cost < NEVER {
            self.costs.plan(&self.all, &mut self.used)?;
            let lits = self.costs.made();
            let many = lits.len().min(COUNTED);
            let (first, _) = lits.split_at(many);
            self.plans.add(first)?
        } else {
            self.plans.add(&[])?
        };
        Ok(Mark {
            unmet,
            plan,
            low: 0,
            high: 0,
        })
    }

    /// The mark of a state that goes on with the relaxed plan of another one.
    fn onward(&self, row: &[u64], unmet: u32, from: Mark) -> Mark {
        let mut low = from.low;
        let mut high = from.high;
        for place in 0..COUNTED {
            let Some(lit) = self.plans.lit(from.plan, place) else {
                break;
            };
            if tells(row, lit) {
                let (one, other) = bit_of(place);
                low = low | one;
                high = high | other;
            }
        }
        Mark {
            unmet,
            plan: from.plan,
            low,
            high,
        }
    }

    /// The mark of a state that was entered.
    fn mark_of(&mut self, row: &[u64], unmet: u32) -> Result<Mark, Memory> {
        match self.marks.get(self.left.parent() as usize) {
            Some(from) if unmet >= from.unmet => {
                let from = *from;
                Ok(self.onward(row, unmet, from))
            }
            _ => self.fresh(row, unmet),
        }
    }
}

impl Proposer for Reached {
    fn entered(
        &mut self,
        task: &Task,
        _trie: &Trie,
        number: u32,
        row: &[u64],
    ) -> Result<(), Memory> {
        let unmet = unmet_in(task, row);
        let mark = self.mark_of(row, unmet.min(4_294_967_295) as u32)?;
        self.marks.push(mark)?;
        let count = bits_in(mark.low, mark.high).min(self.counts.saturating_sub(1));
        let kind = unmet.saturating_mul(self.counts).saturating_add(count);
        let key = self.seen.key_of(row, kind, unmet, self.goals);
        self.left.push(key, number)
    }

    fn next(&mut self, trie: &Trie, store: &Store) -> Option<Offer> {
        self.left.next(trie, store)
    }
}
