//! A first cube that a state has, by which it is excluded from a layer: few literals that excuse each action.

use crate::after::{after, has_all, has_opposite};
use crate::excluded::{Known, Spare};
use crate::layers::Layer;
use crate::shrink::{Made, score_of};
use crate::tables::list_of;
use bit_sets::row::BitRow;
use containers::codes::opposite;
use containers::memory::Memory;
use gt_core::act::Act;

/// Rows and lists in which a reason is made.
#[derive(Drop)]
struct Making {
    reason: BitRow,
    need: Vec<u32>,
    best: Vec<u32>,
}

/// Of the literals of a list that do not hold in a state the one whose opposite stood most often in cubes.
fn best_false(state: &BitRow, lits: &[u32], scores: &[u32]) -> Option<u32> {
    let mut best = None;
    let mut most = 0;
    for lit in lits {
        if state.contains(*lit) {
            continue;
        }
        let score = score_of(scores, opposite(*lit));
        if best.is_none() || score > most {
            best = Some(*lit);
            most = score;
        }
    }
    best
}

/// Adds what a state has to have for a literal to hold after an action that runs in it, where it does so.
fn add_need(act: &Act, state: &BitRow, lit: u32, need: &mut Vec<u32>) -> Result<(), Memory> {
    let mut is_made = false;
    for effect in act.effects() {
        let is_active = has_all(state, effect.cond());
        if effect.lit() == lit && is_active && !is_made {
            is_made = true;
            need.extend_from_slice(effect.cond())?;
        }
        if effect.lit() == opposite(lit) && !is_active {
            if let Some(untrue) = best_false(state, effect.cond(), &[]) {
                need.push(opposite(untrue))?;
            }
        }
    }
    if !is_made {
        need.push(lit)?;
    }
    Ok(())
}

/// Makes the need of a cube: what a state has to have, besides the precondition, for the cube to hold after an action.
fn make_need(
    act: &Act,
    state: &BitRow,
    pre: &BitRow,
    lits: &[u32],
    need: &mut Vec<u32>,
) -> Result<(), Memory> {
    need.clear();
    for lit in lits {
        add_need(act, state, *lit, need)?;
    }
    need.retain(|lit| !pre.contains(*lit));
    Ok(())
}

/// How many literals of a list a row has not.
fn count_new(row: &BitRow, lits: &[u32]) -> usize {
    let mut count = 0usize;
    for lit in lits {
        if !row.contains(*lit) {
            count = count.saturating_add(1);
        }
    }
    count
}

/// Keeps a need where it adds fewer literals than the best so far.
fn keep_best(making: &mut Making, least: &mut Option<usize>) -> Result<(), Memory> {
    let cost = count_new(&making.reason, &making.need);
    let is_better = match *least {
        Some(before) => cost < before,
        None => true,
    };
    if is_better {
        *least = Some(cost);
        making.best.clear();
        making.best.extend_from_slice(&making.need)?;
    }
    Ok(())
}

/// Excuses an action that runs: the state after it has a cube of the layer below. False where it has none.
fn excuse_running(
    known: &Known<'_>,
    layers: &[Layer],
    level: u32,
    state: &BitRow,
    number: u32,
    making: &mut Making,
    spare: &mut Spare,
) -> Result<bool, Memory> {
    let (Some(act), Some(rows)) = (
        known.task.acts().get(number as usize),
        known.tables.acts.get(number as usize),
    ) else {
        return Ok(true);
    };
    after(known.task, known.tables, number, state, &mut spare.after)?;
    let mut least = None;
    if level <= 1 {
        for lit in known.task.goal() {
            if !spare.after.contains(*lit) {
                make_need(act, state, &rows.pre, &[opposite(*lit)], &mut making.need)?;
                keep_best(making, &mut least)?;
            }
        }
    } else {
        for layer in layers {
            if layer.level >= level - 1 && layer.cube.is_part_of(&spare.after) {
                make_need(act, state, &rows.pre, &layer.lits, &mut making.need)?;
                keep_best(making, &mut least)?;
            }
        }
    }
    if least.is_none() {
        return Ok(false);
    }
    for lit in &making.best {
        making.reason.insert(*lit)?;
    }
    Ok(true)
}

/// Excuses an action. False where nothing does.
fn excuse(
    known: &Known<'_>,
    layers: &[Layer],
    level: u32,
    scores: &[u32],
    state: &BitRow,
    number: u32,
    making: &mut Making,
    spare: &mut Spare,
) -> Result<bool, Memory> {
    let Some(act) = known.task.acts().get(number as usize) else {
        return Ok(true);
    };
    if has_opposite(&making.reason, act.pre()) {
        return Ok(true);
    }
    match best_false(state, act.pre(), scores) {
        Some(untrue) => {
            making.reason.insert(opposite(untrue))?;
            Ok(true)
        }
        None => excuse_running(known, layers, level, state, number, making, spare),
    }
}

/// Makes a list the literals of a cube that a state has, which are meant to excuse each action; false where that fails.
pub fn find_reason(
    made: &Made<'_, '_>,
    state: &BitRow,
    lits: &mut Vec<u32>,
    spare: &mut Spare,
) -> Result<bool, Memory> {
    let task = made.known.task;
    let Some(untrue) = best_false(state, task.goal(), made.scores) else {
        return Ok(false);
    };
    let mut making = Making {
        reason: BitRow::new(made.alloc),
        need: Vec::new(made.alloc),
        best: Vec::new(made.alloc),
    };
    making.reason.insert(opposite(untrue))?;
    for number in 0..task.acts().len() as u32 {
        if !excuse(
            made.known,
            made.layers,
            made.level,
            made.scores,
            state,
            number,
            &mut making,
            spare,
        )? {
            return Ok(false);
        }
    }
    list_of(&making.reason, made.known.tables.side, lits)?;
    Ok(true)
}
