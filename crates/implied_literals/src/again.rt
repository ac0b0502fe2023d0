//! What is known after clauses were dropped, and which actions have to be tested again: those that may know less than when
//! they were tested last.

ghost use Rattle.std.specs.Prelude.{◌≡◌, ℕ, ◌*◌, ◌<◌, ◌≤◌, ◌==◌, ◌&&◌, ◌||◌, not, true, false, length, IfOk};
ghost use Rattle.std.specs.List.{list_all, list_any, AllByRecursion};
ghost use Rattle.bit_sets.specs.Rows.{row_has};
ghost use Rattle.implied_literals.specs.Rows.{clause_in, AreRows};
ghost use Rattle.implied_literals.specs.Tested.{IsSetOf, AreKnown, AsksAmong, act_at};
ghost use Rattle.implied_literals.specs.Renewed.{WereKnown, AreMoves, is_unmoved, IsSettled, IsTested};

use crate::asked::nothing_known;
use crate::bound::bound_literals;
use crate::close::{Done, Rules};
use crate::known::{Known, all_known};
use crate::renew::{renew_none, renew_rows};
use bit_sets::row::BitRow;
use gt_core::act::Act;
use gt_core::eff::Eff;
use gt_core::task::Task;
use std::alloc::{AllocError, Global};

/// What is known otherwise than before: the literals that tell another set by themselves, whether another set is known
/// from no literal, and the literals that do not tell all that is known from none either before or now alone.
#[derive(Drop)]
pub struct Moved {
    pub rows: BitRow,
    pub lacking: BitRow,
    pub none: bool,
}

/// The literals that are asked for and do not tell each of some literals.
fn find_lacking(
    alloc: Global,
    asked: &BitRow,
    rows: &[BitRow],
    lits: &BitRow,
) -> Result<BitRow, AllocError>
    requires few { length rows.now ≤ 4096 }
    requires asked { IsSetOf (length rows.now) (row_has asked.now) }
    ensures { IfOk result (λ lacking. (k m : ℕ) → row_has asked.now k ≡ true → row_has lacking k ≡ false → row_has lits.now m ≡ true → clause_in rows.now k m ≡ true) }
{
    let mut lacking = BitRow::new(alloc);
    let mut from = 0;
    while let Some(k) = asked.least(from) {
        if !lits.is_part_of(&rows[k as usize]) {
            lacking.insert(k)?;
        }
        from = k + 1;
    }
    Ok(lacking)
}

/// Works out what is known after clauses were dropped, and what of it is another than before.
fn renew_known<'a>(
    alloc: Global,
    facts: u32,
    clauses: &'a [BitRow],
    stale: &BitRow,
    asked: &'a BitRow,
    known: &mut Known,
) -> Result<Moved, AllocError>
    requires clauses { AreRows facts clauses.now }
    requires either { (l m : ℕ) → clause_in clauses.now l m ≡ clause_in clauses.now m l }
    requires asked { IsSetOf (2 * facts) (row_has asked.now) }
    requires were { WereKnown (clause_in clauses.now) (row_has stale.now) (2 * facts) (row_has asked.now) known.old }
    ensures known { IfOk result (λ moved. AreKnown (clause_in clauses.now) (2 * facts) (row_has asked.now) known.new) }
    ensures moved { IfOk result (λ moved. AreMoves (row_has asked.now) known.old known.new moved) }
{
    let bound = bound_literals(alloc, facts, clauses)?;
    let rules = Rules {
        facts,
        clauses,
        bound: &bound,
        asked,
    };
    let rows = renew_rows(alloc, &rules, stale, &mut known.rows)?;
    let done = Done {
        rules: &rules,
        rows: known.rows.as_slice(),
        below: 2 * facts,
    };
    let lits = renew_none(alloc, &done, &mut known.none)?;
    let lacking = find_lacking(alloc, asked, known.rows.as_slice(), &lits)?;
    Ok(Moved {
        rows,
        lacking,
        none: !lits.least(0).is_none(),
    })
}

/// Whether none of some literals is in a set.
fn none_in(set: &BitRow, lits: &[u32]) -> bool
    ensures { result ≡ list_all (λ l. not (row_has set.now l)) lits.now }
{
    for lit in lits {
        if set.contains(*lit) {
            return false;
        }
    }
    true
}

/// Whether no literal of the conditions of effects is in a set.
fn none_in_conditions(set: &BitRow, effects: &[Eff]) -> bool
    ensures { result ≡ list_all (λ e. list_all (λ l. not (row_has set.now l)) e.condition) effects.now }
{
    for effect in effects {
        if !none_in(set, effect.cond()) {
            return false;
        }
    }
    true
}

/// Whether an action knows what it knew before, in each case.
fn is_unmoved(moved: &Moved, act: &Act) -> bool
    ensures { result ≡ is_unmoved moved.now act.now }
{
    none_in(&moved.rows, act.pre())
        && none_in_conditions(&moved.rows, act.effects())
        && (!moved.none || !all_known(&moved.lacking, act.pre()))
}

/// The actions that may know something else than before.
fn to_test(alloc: Global, moved: &Moved, acts: &[Act]) -> Result<Vec<usize>, AllocError>
    ensures numbers { IfOk result (λ todo. AllByRecursion (λ a. a < length acts.now) todo.items) }
    ensures left { IfOk result (λ todo. (a : ℕ) → a < length acts.now → (list_any (λ b. b == a) todo.items || is_unmoved moved.now (act_at acts.now a)) ≡ true) }
{
    let mut todo = Vec::new(alloc);
    for a in 0..acts.len() {
        if !is_unmoved(moved, &acts[a]) {
            todo.push(a)?;
        }
    }
    Ok(todo)
}

/// Works out what is known by some clauses for the first time.
pub fn first_known(
    alloc: Global,
    facts: u32,
    clauses: &[BitRow],
    asked: &BitRow,
) -> Result<Known, AllocError>
    requires clauses { AreRows facts clauses.now }
    requires either { (l m : ℕ) → clause_in clauses.now l m ≡ clause_in clauses.now m l }
    requires asked { IsSetOf (2 * facts) (row_has asked.now) }
    ensures { IfOk result (AreKnown (clause_in clauses.now) (2 * facts) (row_has asked.now)) }
{
    let stale = BitRow::new(alloc);
    let mut known = nothing_known(alloc, facts, asked)?;
    // All rows are new, so which of them moved tells nothing.
    let _moved = renew_known(alloc, facts, clauses, &stale, asked, &mut known)?;
    Ok(known)
}

/// Works out what is known after a round. The actions that have to be tested again.
pub fn prepare(
    alloc: Global,
    task: &Task,
    clauses: &[BitRow],
    stale: &BitRow,
    asked: &BitRow,
    known: &mut Known,
) -> Result<Vec<usize>, AllocError>
    requires clauses { AreRows task.now.facts clauses.now }
    requires either { (l m : ℕ) → clause_in clauses.now l m ≡ clause_in clauses.now m l }
    requires asked { IsSetOf (2 * task.now.facts) (row_has asked.now) }
    requires among { AllByRecursion (AsksAmong (row_has asked.now)) task.now.actions }
    requires were { WereKnown (clause_in clauses.now) (row_has stale.now) (2 * task.now.facts) (row_has asked.now) known.old }
    requires settled { (a : ℕ) → a < length task.now.actions → IsSettled task.now.facts known.old clauses.now (act_at task.now.actions a) }
    ensures known { IfOk result (λ todo. AreKnown (clause_in clauses.now) (2 * task.now.facts) (row_has asked.now) known.new) }
    ensures tested { IfOk result (λ todo. IsTested task.now known.new clauses.now todo.items) }
{
    let moved = renew_known(alloc, task.facts(), clauses, stale, asked, known)?;
    let todo = to_test(alloc, &moved, task.acts())?;
    Ok(todo)
}
