//! The rounds of a search: in each one more action is allowed.

use crate::excluded::{Known, is_excluded};
use crate::layers::take_needless;
use crate::obligations::Obligation;
use crate::steps::Search;
use bit_sets::row::BitRow;
use containers::memory::Memory;
use std::alloc::Global;

/// A state as a row of literals.
pub fn state_row(alloc: Global, state: &[bool]) -> Result<BitRow, Memory> {
    let mut row = BitRow::new(alloc);
    let mut lit = 0u32;
    for value in state {
        row.insert(if *value { lit } else { lit | 1 })?;
        lit = lit.saturating_add(2);
    }
    Ok(row)
}

impl Search {
    /// Pushes the cubes of a layer up to the next one, where they are excluded from it too; whether none stays.
    fn push_up(&mut self, known: &Known<'_>, level: u32) -> Result<bool, Memory> {
        let mut is_empty = true;
        for place in 0..self.layers.len() {
            let Some(cube) = self.layers.get(place) else {
                break;
            };
            if cube.level != level {
                continue;
            }
            let next = level.saturating_add(1);
            if is_excluded(known, &self.layers, next, &cube.lits, &mut self.spare)? {
                if let Some(pushed) = self.layers.get_mut(place) {
                    pushed.level = next;
                }
            } else {
                is_empty = false;
            }
        }
        Ok(is_empty)
    }

    /// Ends a round, and says whether two layers are the same; then only the cubes above them are kept. Else the next round begins.
    pub fn end_round(&mut self, known: &Known<'_>) -> Result<bool, Memory> {
        for level in 1..self.top.saturating_add(1) {
            if self.push_up(known, level)? {
                self.layers.retain(|cube| cube.level > level);
                return Ok(true);
            }
        }
        let mut kept = Vec::new(self.alloc);
        take_needless(&mut self.layers, &mut kept)?;
        self.top = self.top.saturating_add(1);
        self.obligations.clear();
        self.obligations.add(Obligation {
            state: state_row(self.alloc, known.task.init())?,
            level: self.top,
            from: None,
            act: 0,
        })?;
        Ok(false)
    }
}
