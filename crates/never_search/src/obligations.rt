//! Obligations: states that are to be brought to the goal within so many actions, or to be excluded from that layer.

use bit_sets::row::BitRow;
use containers::memory::Memory;
use std::alloc::Global;

/// A state, how many actions are left, and the obligation and the action that it comes from.
#[derive(Drop)]
pub struct Obligation {
    pub state: BitRow,
    pub level: u32,
    pub from: Option<u32>,
    pub act: u32,
}

/// The obligations of a round, and for each number of actions those that wait.
#[derive(Drop)]
pub struct Obligations {
    alloc: Global,
    all: Vec<Obligation>,
    waiting: Vec<Vec<u32>>,
}

impl Obligations {
    /// None.
    pub fn new(alloc: Global) -> Obligations {
        Obligations {
            alloc,
            all: Vec::new(alloc),
            waiting: Vec::new(alloc),
        }
    }

    /// Takes all away.
    pub fn clear(&mut self) {
        self.all.clear();
        self.waiting.clear();
    }

    /// The obligation with a number.
    pub fn get(&self, number: u32) -> Option<&Obligation> {
        self.all.get(number as usize)
    }

    /// Lets an obligation wait among those with so many actions left.
    pub fn wait(&mut self, number: u32, level: u32) -> Result<(), Memory> {
        if let Some(obligation) = self.all.get_mut(number as usize) {
            obligation.level = level;
        }
        for _turn in self.waiting.len()..level as usize + 1 {
            self.waiting.push(Vec::new(self.alloc))?;
        }
        if let Some(list) = self.waiting.get_mut(level as usize) {
            list.push(number)?;
        }
        Ok(())
    }

    /// Adds an obligation, which waits.
    pub fn add(&mut self, obligation: Obligation) -> Result<(), Memory> {
        let number = self.all.len().min(u32::MAX as usize) as u32;
        let level = obligation.level;
        self.all.push(obligation)?;
        self.wait(number, level)
    }

    /// Takes the obligation out that waits with the fewest actions left, the last one first.
    pub fn take(&mut self) -> Option<u32> {
        for list in self.waiting.iter_mut() {
            if let Some(number) = list.pop() {
                return Some(number);
            }
        }
        None
    }

    /// The actions that led to an obligation, and one more.
    pub fn path(&self, number: u32, last: u32) -> Result<Vec<u32>, Memory> {
        let mut actions = Vec::new(self.alloc);
        actions.push(last)?;
        let mut at = number;
        for _turn in 0..self.all.len() {
            let Some(obligation) = self.get(at) else {
                break;
            };
            let Some(from) = obligation.from else {
                break;
            };
            actions.push(obligation.act)?;
            at = from;
        }
        actions.reverse();
        Ok(actions)
    }
}
