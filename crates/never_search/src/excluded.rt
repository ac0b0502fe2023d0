//! Whether a cube is excluded from a layer.

use crate::after::after;
use crate::layers::{Layer, excludes};
use crate::tables::{Tables, unite_all};
use bit_sets::row::BitRow;
use containers::memory::Memory;
use gt_core::task::Task;
use std::alloc::Global;

/// A task and what is worked out of it.
#[derive(Drop)]
pub struct Known<'a> {
    pub task: &'a Task,
    pub tables: &'a Tables,
}

/// Rows that are used again and again.
#[derive(Drop)]
pub struct Spare {
    cube: BitRow,
    closed: BitRow,
    touched: BitRow,
    before: BitRow,
    pub after: BitRow,
}

impl Spare {
    /// Empty rows.
    pub fn new(alloc: Global) -> Spare {
        Spare {
            cube: BitRow::new(alloc),
            closed: BitRow::new(alloc),
            touched: BitRow::new(alloc),
            before: BitRow::new(alloc),
            after: BitRow::new(alloc),
        }
    }
}

/// Whether a row contradicts what the goal tells.
fn contradicts_goal(tables: &Tables, row: &BitRow) -> bool {
    row.has_pair_across(&tables.goal_closed)
        || tables.goal_closed.has_pair_across(row)
        || tables.goal_closed.has_pair()
}

/// Whether an action on the cube of the spare rows stays in it, or leads to what is excluded from the layer below.
fn is_excused(
    known: &Known<'_>,
    layers: &[Layer],
    level: u32,
    number: u32,
    spare: &mut Spare,
) -> Result<bool, Memory> {
    let Some(rows) = known.tables.acts.get(number as usize) else {
        return Ok(true);
    };
    spare.before.make_same(&spare.closed)?;
    spare.before.unite(&rows.closed)?;
    if spare.before.has_pair() {
        return Ok(true);
    }
    after(
        known.task,
        known.tables,
        number,
        &spare.before,
        &mut spare.after,
    )?;
    if spare.cube.is_part_of(&spare.after) {
        return Ok(true);
    }
    if level <= 1 {
        return Ok(contradicts_goal(known.tables, &spare.after));
    }
    Ok(excludes(layers, level - 1, &spare.after))
}

/// Makes the spare rows those of a cube.
fn begin(tables: &Tables, lits: &[u32], spare: &mut Spare) -> Result<(), Memory> {
    spare.cube.clear();
    spare.closed.clear();
    spare.touched.clear();
    for lit in lits {
        spare.cube.insert(*lit)?;
    }
    unite_all(&tables.closed, lits, &mut spare.closed)?;
    unite_all(&tables.undo, lits, &mut spare.touched)
}

/// Whether a cube is excluded from a layer: no goal state has it, and each action on it stays in it or leads to what is excluded from the
/// layer below.
pub fn is_excluded(
    known: &Known<'_>,
    layers: &[Layer],
    level: u32,
    lits: &[u32],
    spare: &mut Spare,
) -> Result<bool, Memory> {
    begin(known.tables, lits, spare)?;
    if !contradicts_goal(known.tables, &spare.closed) {
        return Ok(false);
    }
    let mut from = 0;
    for _turn in 0..known.tables.acts.len() {
        let Some(number) = spare.touched.least(from) else {
            break;
        };
        if !is_excused(known, layers, level, number, spare)? {
            return Ok(false);
        }
        from = number.saturating_add(1);
    }
    Ok(true)
}
