//! The layers of cubes.

use bit_sets::row::BitRow;
use containers::memory::Memory;

/// A cube that no state of a layer, or of one below it, has: from no such state the goal is within so many actions.
#[derive(Drop)]
pub struct Layer {
    pub cube: BitRow,
    pub lits: Vec<u32>,
    pub level: u32,
}

/// Whether a row of literals has a cube of this layer or one above it.
pub fn excludes(layers: &[Layer], level: u32, row: &BitRow) -> bool {
    for layer in layers.iter().rev() {
        if layer.level >= level && layer.cube.is_part_of(row) {
            return true;
        }
    }
    false
}

/// Adds a cube, and takes away those that it makes needless.
pub fn learn(layers: &mut Vec<Layer>, cube: Layer) -> Result<(), Memory> {
    layers.retain(|other| !(other.level <= cube.level && cube.cube.is_part_of(&other.cube)));
    layers.push(cube)?;
    Ok(())
}

/// Whether some cube of others makes one needless.
fn is_needless(others: &[Layer], cube: &Layer) -> bool {
    for other in others {
        if other.level >= cube.level && other.cube.is_part_of(&cube.cube) {
            return true;
        }
    }
    false
}

/// Takes away the cubes that others make needless.
pub fn take_needless(layers: &mut Vec<Layer>, kept: &mut Vec<Layer>) -> Result<(), Memory> {
    for _turn in 0..layers.len() {
        let Some(cube) = layers.pop() else {
            break;
        };
        if !is_needless(layers, &cube) && !is_needless(kept, &cube) {
            kept.push(cube)?;
        }
    }
    for _turn in 0..kept.len() {
        let Some(cube) = kept.pop() else {
            break;
        };
        layers.push(cube)?;
    }
    Ok(())
}
