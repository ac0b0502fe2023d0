//! Numbers by their keys, first in first out.

use containers::memory::Memory;
use std::alloc::Global;

/// No number.
const NONE: u32 = 4_294_967_295;

/// For each key the first and the last of its numbers, for each number the one that comes after it, and a key below which there is no
/// number. All memory is taken when the queue is made.
#[derive(Drop)]
pub struct Queue {
    firsts: Vec<u32>,
    lasts: Vec<u32>,
    nexts: Vec<u32>,
    low: usize,
}

impl Queue {
    /// An empty queue of so many keys, with room for so many numbers.
    pub fn new(alloc: Global, keys: usize, most: u32) -> Result<Queue, Memory> {
        Ok(Queue {
            firsts: vec![in alloc; NONE; keys]?,
            lasts: vec![in alloc; NONE; keys]?,
            nexts: Vec::with_capacity(alloc, most as usize)?,
            low: 0,
        })
    }

    /// Lets go of all numbers. The room stays.
    pub fn clear(&mut self) {
        for key in 0..self.firsts.len() {
            self.firsts[key] = NONE;
        }
        for key in 0..self.lasts.len() {
            self.lasts[key] = NONE;
        }
        self.nexts.clear();
        self.low = 0;
    }

    /// Makes room for the number that comes after one.
    fn make_room(&mut self, number: u32) -> Result<(), Memory> {
        let long = self.nexts.len();
        for _place in long..number as usize + 1 {
            self.nexts.push(NONE)?;
        }
        Ok(())
    }

    /// Puts a number, which is in no queue yet, behind those of its key.
    pub fn push(&mut self, key: usize, number: u32) -> Result<(), Memory> {
        self.make_room(number)?;
        if let Some(last) = self.lasts.get_mut(key) {
            let before = *last;
            *last = number;
            if let Some(next) = self.nexts.get_mut(before as usize) {
                *next = number;
            } else if let Some(first) = self.firsts.get_mut(key) {
                *first = number;
            }
            self.low = self.low.min(key);
        }
        Ok(())
    }

    /// Takes the first number of a key.
    fn take(&mut self, key: usize) -> Option<u32> {
        let first = self.firsts.get_mut(key)?;
        let number = *first;
        let next = *self.nexts.get(number as usize)?;
        *first = next;
        if next == NONE {
            if let Some(last) = self.lasts.get_mut(key) {
                *last = NONE;
            }
        }
        Some(number)
    }

    /// Takes the first number of the least key that has one.
    pub fn pop(&mut self) -> Option<u32> {
        for key in self.low..self.firsts.len() {
            if let Some(number) = self.take(key) {
                return Some(number);
            }
            self.low = key;
        }
        None
    }

    /// The first number of the least key that has one, which stays.
    pub fn first(&mut self) -> Option<u32> {
        for key in self.low..self.firsts.len() {
            let number = *self.firsts.get(key)?;
            if number != NONE {
                return Some(number);
            }
            self.low = key;
        }
        None
    }
}
