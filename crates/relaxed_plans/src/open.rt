//! Actions of states by the costs of the states, first in first out.

use containers::memory::Memory;
use novelty::queue::Queue;
use state_search::follow::Offer;
use state_store::store::Store;
use std::alloc::Global;
use successors::trie::Trie;

/// How many costs are told apart in the queue.
const KEYS: usize = 60_000;

/// How many actions are kept for each state, on average.
const KEPT: usize = 8;

/// No state.
const NONE: u32 = 4_294_967_295;

/// The key of a cost.
fn key_of(cost: u32) -> usize {
    (cost as usize).min(KEYS - 1)
}

/// The states by cost, for each state how many of its actions were taken, and the actions of one state. The actions that can run in a
/// state are looked up when its turn comes. All memory is taken when it is made.
#[derive(Drop)]
pub struct Open {
    states: Queue,
    taken: Vec<u32>,
    state: u32,
    acts: Vec<u32>,
}

impl Open {
    /// Nothing is open. There is room for so many states, and for as many actions as one may have.
    pub fn new(alloc: Global, actions: usize, most: u32) -> Result<Open, Memory> {
        Ok(Open {
            states: Queue::new(alloc, KEYS, most)?,
            taken: Vec::with_capacity(alloc, most as usize)?,
            state: NONE,
            acts: Vec::with_capacity(alloc, actions)?,
        })
    }

    /// Lets go of all states. The room stays.
    pub fn clear(&mut self) {
        self.states.clear();
        self.taken.clear();
        self.state = NONE;
        self.acts.clear();
    }

    /// Adds a state of a cost.
    pub fn add(&mut self, cost: u32, number: u32) -> Result<(), Memory> {
        for _place in self.taken.len()..number as usize + 1 {
            self.taken.push(0)?;
        }
        self.states.push(key_of(cost), number)
    }

    /// Looks the actions of a state up.
    fn look_up(&mut self, trie: &Trie, store: &Store, number: u32) -> Result<(), Memory> {
        if self.state == number {
            return Ok(());
        }
        self.state = number;
        self.acts.clear();
        if number < store.len() {
            trie.list(store.row(number), &mut self.acts)?;
        }
        Ok(())
    }

    /// Takes the next action of a state.
    fn take(&mut self, number: u32) -> Option<Offer> {
        let taken = self.taken.get_mut(number as usize)?;
        let act = *self.acts.get(*taken as usize)?;
        *taken = taken.saturating_add(1);
        Some(Offer {
            parent: number,
            act,
        })
    }

    /// Takes the next action of the first state of the least cost.
    pub fn pop(&mut self, trie: &Trie, store: &Store) -> Option<Offer> {
        for _state in 0..u32::MAX {
            let number = self.states.first()?;
            self.look_up(trie, store, number).ok()?;
            if let Some(offer) = self.take(number) {
                return Some(offer);
            }
            self.states.pop();
        }
        None
    }
}

/// The states by cost, for each state where its preferred actions begin and end, and these actions. Where there is no room for more
/// actions, states have none. All memory is taken when it is made.
#[derive(Drop)]
pub struct Preferred {
    states: Queue,
    begins: Vec<u32>,
    ends: Vec<u32>,
    room: usize,
    acts: Vec<u32>,
}

impl Preferred {
    /// Nothing is preferred. There is room for so many states.
    pub fn new(alloc: Global, most: u32) -> Result<Preferred, Memory> {
        let room = (most as usize).saturating_mul(KEPT).min(4_294_967_295);
        Ok(Preferred {
            states: Queue::new(alloc, KEYS, most)?,
            begins: Vec::with_capacity(alloc, most as usize)?,
            ends: Vec::with_capacity(alloc, most as usize)?,
            room,
            acts: Vec::with_capacity(alloc, room)?,
        })
    }

    /// Lets go of all states. The room stays.
    pub fn clear(&mut self) {
        self.states.clear();
        self.begins.clear();
        self.ends.clear();
        self.acts.clear();
    }

    /// Adds an action of the state that is added next.
    pub fn add(&mut self, act: u32) -> Result<(), Memory> {
        if self.acts.len() < self.room {
            self.acts.push(act)?;
        }
        Ok(())
    }

    /// Adds a state of a cost, with the actions that were added since the one before it.
    pub fn close(&mut self, cost: u32, number: u32) -> Result<(), Memory> {
        let begin = match self.ends.last() {
            Some(end) => *end,
            None => 0,
        };
        for _place in self.ends.len()..number as usize {
            self.begins.push(begin)?;
            self.ends.push(begin)?;
        }
        self.begins.push(begin)?;
        self.ends.push(self.acts.len().min(4_294_967_295) as u32)?;
        self.states.push(key_of(cost), number)
    }

    /// Takes the next action of a state.
    fn take(&mut self, number: u32) -> Option<Offer> {
        let end = *self.ends.get(number as usize)?;
        let begin = self.begins.get_mut(number as usize)?;
        let place = *begin;
        if place >= end {
            return None;
        }
        *begin = place.saturating_add(1);
        let act = *self.acts.get(place as usize)?;
        Some(Offer {
            parent: number,
            act,
        })
    }

    /// Takes the next action of the first state of the least cost.
    pub fn pop(&mut self) -> Option<Offer> {
        for _state in 0..u32::MAX {
            let number = self.states.first()?;
            if let Some(offer) = self.take(number) {
                return Some(offer);
            }
            self.states.pop();
        }
        None
    }
}
