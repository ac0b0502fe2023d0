//! Making a cube small.

use crate::excluded::{Known, Spare, is_excluded};
use crate::layers::Layer;
use containers::memory::Memory;
use std::alloc::Global;

/// What is known where a cube is made: from which layer it is excluded, and for each literal in how many cubes it stood.
#[derive(Drop)]
pub struct Made<'k, 's> {
    pub alloc: Global,
    pub known: &'k Known<'k>,
    pub layers: &'s [Layer],
    pub level: u32,
    pub scores: &'s [u32],
}

/// How often a literal stood in a cube that was learned.
pub fn score_of(scores: &[u32], lit: u32) -> u32 {
    match scores.get(lit as usize) {
        Some(score) => *score,
        None => 0,
    }
}

/// Takes out of a cube one literal after the other where it stays excluded from a layer, those first that are rare in other cubes.
pub fn shrink(made: &Made<'_, '_>, lits: &mut Vec<u32>, spare: &mut Spare) -> Result<(), Memory> {
    let scores = made.scores;
    let mut order = Vec::from_slice(made.alloc, lits.as_slice())?;
    order.sort_by_key(|lit| score_of(scores, *lit))?;
    let mut fewer = Vec::with_capacity(made.alloc, lits.len())?;
    for lit in &order {
        fewer.clear();
        for other in lits.iter() {
            if *other != *lit {
                fewer.push(*other)?;
            }
        }
        if is_excluded(made.known, made.layers, made.level, &fewer, spare)? {
            lits.clear();
            lits.extend_from_slice(&fewer)?;
        }
    }
    Ok(())
}
