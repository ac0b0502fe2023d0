//! States that are left, by their keys, and the actions of the one whose turn it is.

use crate::queue::Queue;
use containers::memory::Memory;
use state_search::follow::Offer;
use state_store::store::Store;
use std::alloc::Global;
use successors::trie::Trie;

/// The states that are left, the state whose actions are being proposed, these actions, and how many of them were. All memory is taken
/// when it is made.
#[derive(Drop)]
pub struct Expanding {
    left: Queue,
    parent: u32,
    acts: Vec<u32>,
    place: usize,
}

impl Expanding {
    /// No state is left. There is room for so many states, and for as many actions as one may have.
    pub fn new(alloc: Global, keys: usize, actions: usize, most: u32) -> Result<Expanding, Memory> {
        Ok(Expanding {
            left: Queue::new(alloc, keys, most)?,
            parent: 0,
            acts: Vec::with_capacity(alloc, actions)?,
            place: 0,
        })
    }

    /// Lets go of all states. The room stays.
    pub fn clear(&mut self) {
        self.left.clear();
        self.acts.clear();
        self.place = 0;
    }

    /// Puts a state behind those of its key.
    pub fn push(&mut self, key: usize, number: u32) -> Result<(), Memory> {
        self.left.push(key, number)
    }

    /// The state whose actions are being proposed.
    pub fn parent(&self) -> u32 {
        self.parent
    }

    /// Goes on to the first state of the least key.
    fn go_on(&mut self, trie: &Trie, store: &Store) -> Option<()> {
        self.parent = self.left.pop()?;
        self.place = 0;
        self.acts.clear();
        if self.parent < store.len() {
            trie.list(store.row(self.parent), &mut self.acts).ok()?;
        }
        Some(())
    }

    /// The next action of the state whose turn it is, or the first one of the next state.
    pub fn next(&mut self, trie: &Trie, store: &Store) -> Option<Offer> {
        for _state in 0..u32::MAX {
            if self.place < self.acts.len() {
                let act = self.acts[self.place];
                self.place += 1;
                return Some(Offer {
                    parent: self.parent,
                    act,
                });
            }
            self.go_on(trie, store)?;
        }
        None
    }
}
