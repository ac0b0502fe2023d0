//! What is worked out once of a task: what literals tell, and what actions need and do, as rows of bits.

use bit_sets::row::{BitRow, empty_rows};
use containers::codes::opposite;
use containers::memory::Memory;
use gt_core::act::Act;
use gt_core::pairs::Pairs;
use gt_core::task::Task;
use std::alloc::Global;

/// An action, as rows of literals.
#[derive(Drop)]
pub struct ActRows {
    /// Its precondition.
    pub pre: BitRow,
    /// What that tells, with the known clauses.
    pub closed: BitRow,
    /// Both literals of each fact that its effects are about.
    pub cut: BitRow,
    /// Those that hold after it. Both rows are only of an action without conditional effects.
    pub made: BitRow,
}

/// The rows of a task.
#[derive(Drop)]
pub struct Tables {
    /// Twice the number of facts.
    pub side: u32,
    /// For each literal what it tells, with the known clauses.
    pub closed: Vec<BitRow>,
    pub acts: Vec<ActRows>,
    /// For each literal the actions with an effect that is opposite to it.
    pub undo: Vec<BitRow>,
    pub goal: BitRow,
    /// What the goal tells.
    pub goal_closed: BitRow,
}

/// The literals of a list as a row.
pub fn row_of(alloc: Global, lits: &[u32]) -> Result<BitRow, Memory> {
    let mut row = BitRow::new(alloc);
    for lit in lits {
        row.insert(*lit)?;
    }
    Ok(row)
}

/// The literals of a row as a list, rising.
pub fn list_of(row: &BitRow, side: u32, into: &mut Vec<u32>) -> Result<(), Memory> {
    into.clear();
    let mut from = 0;
    for _turn in 0..side {
        let Some(lit) = row.least(from) else {
            break;
        };
        into.push(lit)?;
        from = lit.saturating_add(1);
    }
    Ok(())
}

/// Adds to a row the rows of literals.
pub fn unite_all(rows: &[BitRow], lits: &[u32], into: &mut BitRow) -> Result<(), Memory> {
    for lit in lits {
        if let Some(row) = rows.get(*lit as usize) {
            into.unite(row)?;
        }
    }
    Ok(())
}

/// Adds to a row, and to a list, what is next told by a literal.
fn follow(
    known: &Pairs,
    side: u32,
    lit: u32,
    row: &mut BitRow,
    todo: &mut Vec<u32>,
) -> Result<(), Memory> {
    let other = opposite(lit);
    if other / 2 >= known.facts() {
        return Ok(());
    }
    let told = known.row(other);
    let mut from = 0;
    for _turn in 0..side {
        let Some(next) = told.least(from) else {
            break;
        };
        if !row.contains(next) {
            row.insert(next)?;
            todo.push(next)?;
        }
        from = next.saturating_add(1);
    }
    Ok(())
}

/// Adds to a row all that is told by the literals of a list, which is then empty.
fn close(known: &Pairs, side: u32, row: &mut BitRow, todo: &mut Vec<u32>) -> Result<(), Memory> {
    for _turn in 0..side {
        let Some(lit) = todo.pop() else {
            break;
        };
        follow(known, side, lit, row, todo)?;
    }
    todo.clear();
    Ok(())
}

/// What each literal tells.
fn closed_rows(alloc: Global, known: &Pairs, side: u32) -> Result<Vec<BitRow>, Memory> {
    let mut rows = Vec::with_capacity(alloc, side as usize)?;
    let mut todo = Vec::new(alloc);
    for lit in 0..side {
        let mut row = BitRow::new(alloc);
        row.insert(lit)?;
        todo.push(lit)?;
        close(known, side, &mut row, &mut todo)?;
        rows.push(row)?;
    }
    Ok(rows)
}

/// What the known clauses of one literal tell.
fn told_always(
    alloc: Global,
    known: &Pairs,
    side: u32,
    closed: &[BitRow],
) -> Result<BitRow, Memory> {
    let mut row = BitRow::new(alloc);
    for lit in 0..side {
        if known.has(lit, lit) {
            unite_all(closed, &[lit], &mut row)?;
        }
    }
    Ok(row)
}

/// What literals tell.
fn closed_of(
    alloc: Global,
    always: &BitRow,
    closed: &[BitRow],
    lits: &[u32],
) -> Result<BitRow, Memory> {
    let mut row = BitRow::new(alloc);
    row.unite(always)?;
    unite_all(closed, lits, &mut row)?;
    Ok(row)
}

/// The rows of an action.
fn act_rows(
    alloc: Global,
    always: &BitRow,
    closed: &[BitRow],
    act: &Act,
) -> Result<ActRows, Memory> {
    let mut cut = BitRow::new(alloc);
    let mut made = BitRow::new(alloc);
    for effect in act.effects() {
        let lit = effect.lit();
        cut.insert(lit)?;
        cut.insert(opposite(lit))?;
        // Adds come before deletes of the same fact, and win over them.
        if !made.contains(opposite(lit)) {
            made.insert(lit)?;
        }
    }
    Ok(ActRows {
        pre: row_of(alloc, act.pre())?,
        closed: closed_of(alloc, always, closed, act.pre())?,
        cut,
        made,
    })
}

/// For each of so many literals the actions with an effect that is opposite to it.
fn undo_rows(alloc: Global, side: u32, task: &Task) -> Result<Vec<BitRow>, Memory> {
    let mut rows = empty_rows(alloc, side as usize)?;
    for number in 0..task.acts().len() as u32 {
        for effect in task.act(number).effects() {
            if let Some(row) = rows.get_mut(opposite(effect.lit()) as usize) {
                row.insert(number)?;
            }
        }
    }
    Ok(rows)
}

/// The rows of all actions.
fn all_act_rows(
    alloc: Global,
    always: &BitRow,
    closed: &[BitRow],
    acts: &[Act],
) -> Result<Vec<ActRows>, Memory> {
    let mut rows = Vec::with_capacity(alloc, acts.len())?;
    for act in acts {
        rows.push(act_rows(alloc, always, closed, act)?)?;
    }
    Ok(rows)
}

impl Tables {
    /// The rows of a task, under its known clauses.
    pub fn new(alloc: Global, task: &Task, known: &Pairs) -> Result<Tables, Memory> {
        let side = 2 * task.facts();
        let closed = closed_rows(alloc, known, side)?;
        let always = told_always(alloc, known, side, &closed)?;
        let acts = all_act_rows(alloc, &always, &closed, task.acts())?;
        let goal_closed = closed_of(alloc, &always, &closed, task.goal())?;
        Ok(Tables {
            side,
            undo: undo_rows(alloc, side, task)?,
            goal: row_of(alloc, task.goal())?,
            goal_closed,
            acts,
            closed,
        })
    }
}
