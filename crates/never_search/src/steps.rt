//! A search, obligation by obligation.

use crate::after::after;
use crate::excluded::{Known, Spare, is_excluded};
use crate::layers::{Layer, excludes, learn};
use crate::obligations::{Obligation, Obligations};
use crate::reason::find_reason;
use crate::shrink::{Made, shrink};
use crate::tables::list_of;
use bit_sets::row::BitRow;
use containers::memory::Memory;
use std::alloc::Global;

/// What a search holds.
#[derive(Drop)]
pub struct Search {
    pub alloc: Global,
    pub layers: Vec<Layer>,
    /// For each literal in how many cubes it stood.
    pub scores: Vec<u32>,
    pub spare: Spare,
    pub obligations: Obligations,
    /// The greatest number of actions so far.
    pub top: u32,
}

/// Whether a state has no cube of a layer; of the layer 0, whether it is a goal state.
fn is_in_layer(known: &Known<'_>, layers: &[Layer], level: u32, state: &BitRow) -> bool {
    if level == 0 {
        return known.tables.goal.is_part_of(state);
    }
    !excludes(layers, level, state)
}

/// An action that leads from a state to one that is in a layer, which is then in the spare row.
fn find_step(
    known: &Known<'_>,
    layers: &[Layer],
    level: u32,
    state: &BitRow,
    spare: &mut Spare,
) -> Result<Option<u32>, Memory> {
    for number in 0..known.task.acts().len() as u32 {
        let Some(rows) = known.tables.acts.get(number as usize) else {
            break;
        };
        if !rows.pre.is_part_of(state) {
            continue;
        }
        after(known.task, known.tables, number, state, &mut spare.after)?;
        if !spare.after.is_same(state) && is_in_layer(known, layers, level, &spare.after) {
            return Ok(Some(number));
        }
    }
    Ok(None)
}

/// The greatest layer up to a last one from which a cube is excluded that is excluded from one.
fn highest_level(
    known: &Known<'_>,
    layers: &[Layer],
    level: u32,
    top: u32,
    lits: &[u32],
    spare: &mut Spare,
) -> Result<u32, Memory> {
    let mut highest = level;
    for next in level..top {
        if !is_excluded(known, layers, next + 1, lits, spare)? {
            break;
        }
        highest = next + 1;
    }
    Ok(highest)
}

/// Makes a list a small cube that a state has and a layer excludes; false where there is none.
fn find_cube(
    made: &Made<'_, '_>,
    state: &BitRow,
    lits: &mut Vec<u32>,
    spare: &mut Spare,
) -> Result<bool, Memory> {
    let (known, layers, level) = (made.known, made.layers, made.level);
    let found = find_reason(made, state, lits, spare)?;
    if !found || !is_excluded(known, layers, level, lits, spare)? {
        list_of(state, known.tables.side, lits)?;
        if !is_excluded(known, layers, level, lits, spare)? {
            return Ok(false);
        }
    }
    shrink(made, lits, spare)?;
    Ok(true)
}

/// Counts the literals of a cube.
fn count_all(scores: &mut [u32], lits: &[u32]) {
    for lit in lits {
        if let Some(score) = scores.get_mut(*lit as usize) {
            *score = score.saturating_add(1);
        }
    }
}

impl Search {
    /// Before the first round.
    pub fn new(alloc: Global, side: u32) -> Result<Search, Memory> {
        Ok(Search {
            alloc,
            layers: Vec::new(alloc),
            scores: vec![in alloc; 0; side as usize]?,
            spare: Spare::new(alloc),
            obligations: Obligations::new(alloc),
            top: 0,
        })
    }

    /// Learns a cube.
    fn add_cube(&mut self, lits: Vec<u32>, level: u32) -> Result<(), Memory> {
        count_all(&mut self.scores, &lits);
        let mut cube = BitRow::new(self.alloc);
        for lit in &lits {
            cube.insert(*lit)?;
        }
        learn(&mut self.layers, Layer { cube, lits, level })
    }

    /// Excludes the state of an obligation from its layer, and lets it wait for the next one.
    fn exclude(&mut self, known: &Known<'_>, number: u32) -> Result<(), Memory> {
        let Some(obligation) = self.obligations.get(number) else {
            return Ok(());
        };
        let mut lits = Vec::new(self.alloc);
        let level = obligation.level;
        let made = Made {
            alloc: self.alloc,
            known,
            layers: &self.layers,
            level,
            scores: &self.scores,
        };
        if !find_cube(&made, &obligation.state, &mut lits, &mut self.spare)? {
            return Ok(());
        }
        let highest = highest_level(known, &self.layers, level, self.top, &lits, &mut self.spare)?;
        self.add_cube(lits, highest)?;
        if highest < self.top {
            self.obligations.wait(number, highest + 1)?;
        }
        Ok(())
    }

    /// Goes on from the state of an obligation by an action to the state in the spare row.
    fn go_on(&mut self, number: u32, level: u32, act: u32) -> Result<(), Memory> {
        let mut state = BitRow::new(self.alloc);
        state.make_same(&self.spare.after)?;
        self.obligations.wait(number, level)?;
        self.obligations.add(Obligation {
            state,
            level: level.saturating_sub(1),
            from: Some(number),
            act,
        })
    }

    /// Meets an obligation: goes on from its state, or excludes it. Answers the actions that lead to a goal state, where one is met.
    pub fn meet(&mut self, known: &Known<'_>, number: u32) -> Result<Option<Vec<u32>>, Memory> {
        let Some(obligation) = self.obligations.get(number) else {
            return Ok(None);
        };
        let level = obligation.level;
        if !is_in_layer(known, &self.layers, level, &obligation.state) {
            if level < self.top {
                self.obligations.wait(number, level + 1)?;
            }
            return Ok(None);
        }
        let below = level.saturating_sub(1);
        let step = find_step(
            known,
            &self.layers,
            below,
            &obligation.state,
            &mut self.spare,
        )?;
        match step {
            Some(act) if level <= 1 => Ok(Some(self.obligations.path(number, act)?)),
            Some(act) => {
                self.go_on(number, level, act)?;
                Ok(None)
            }
            None => {
                self.exclude(known, number)?;
                Ok(None)
            }
        }
    }
}
