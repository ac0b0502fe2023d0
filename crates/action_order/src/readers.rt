//! Which actions read a literal, in their precondition or in the condition of an effect, and which cannot share a step
//! with one that needs it.

ghost use Rattle.std.specs.Prelude.{◌≡◌, ℕ, ◌*◌, ◌/◌, ◌<◌, ◌≤◌, ◌==◌, ◌&&◌, ◌||◌, nat_lt, true, length, OnOk, IfOk};
ghost use Rattle.std.specs.List.{AllByRecursion};
ghost use Rattle.bit_sets.specs.Rows.{row_has};
ghost use Rattle.gt_core.specs.Literal.{is_in, opposite};
ghost use Rattle.gt_core.specs.Active.{EffectWithin};
ghost use Rattle.gt_core.specs.Interference.{action_asks, exclusive, has_clause};
ghost use Rattle.action_order.specs.own.Graph.{row_at};
ghost use Rattle.action_order.specs.own.Readers.{ActionWithin, IsEntered, AreRowsOf, AreExclusions, IsPartOf, IsOpposed, of_effects, needs, asks_of, has_fact, is_excluded};
ghost use Rattle.gt_core.specs.Limits.{most_facts, most_actions};

use bit_sets::row::{BitRow, empty_rows};
use gt_core::act::Act;
use gt_core::eff::Eff;
use gt_core::lits::opposite;
use gt_core::pairs::Pairs;
use std::alloc::{AllocError, Global};

/// For each literal the actions that have it in their precondition, and for each fact the actions that have it in an
/// effect condition.
#[derive(Drop)]
pub struct Readers {
    /// By literal, the actions with it in their precondition.
    pub needing: Vec<BitRow>,
    /// By fact, the actions with it in an effect condition.
    pub asking: Vec<BitRow>,
}

/// Puts a number into the row of a key.
fn enter(rows: &mut Vec<BitRow>, key: usize, b: u32) -> Result<(), AllocError>
    requires { key < length rows.old.items }
    ensures { OnOk result (IsEntered (λ k. key == k) b rows.old.items rows.new.items) }
{
    let row = &mut rows[key];
    row.insert(b)?;
    Ok(())
}

/// Puts a number into the row of each of some literals.
pub fn enter_literals(rows: &mut Vec<BitRow>, lits: &[u32], b: u32) -> Result<(), AllocError>
    requires { AllByRecursion (λ l. l < length rows.old.items) lits.now }
    ensures { OnOk result (IsEntered (is_in lits.now) b rows.old.items rows.new.items) }
{
    for lit in lits {
        enter(rows, *lit as usize, b)?;
    }
    Ok(())
}

/// Puts an action into the row of the fact of each literal of an effect condition.
fn enter_condition(rows: &mut Vec<BitRow>, condition: &[u32], b: u32) -> Result<(), AllocError>
    requires { AllByRecursion (λ l. l / 2 < length rows.old.items) condition.now }
    ensures { OnOk result (IsEntered (has_fact condition.now) b rows.old.items rows.new.items) }
{
    for lit in condition {
        enter(rows, (*lit / 2) as usize, b)?;
    }
    Ok(())
}

/// Puts an action into the row of each fact of its effect conditions.
fn enter_effects(rows: &mut Vec<BitRow>, effects: &[Eff], b: u32) -> Result<(), AllocError>
    requires { AllByRecursion (EffectWithin (length rows.old.items)) effects.now }
    ensures { OnOk result (IsEntered (action_asks (of_effects effects.now)) b rows.old.items rows.new.items) }
{
    for effect in effects {
        enter_condition(rows, effect.cond(), b)?;
    }
    Ok(())
}

/// The actions that read each literal.
pub fn find_readers(alloc: Global, facts: u32, acts: &[Act]) -> Result<Readers, AllocError>
    requires facts { facts ≤ most_facts }
    requires few { length acts.now ≤ most_actions }
    requires within { AllByRecursion (ActionWithin facts) acts.now }
    ensures needing { IfOk result (λ r. AreRowsOf (needs acts.now) (2 * facts) (length acts.now) r.needing.items) }
    ensures asking { IfOk result (λ r. AreRowsOf (asks_of acts.now) facts (length acts.now) r.asking.items) }
{
    let mut needing = empty_rows(alloc, 2 * facts as usize)?;
    let mut asking = empty_rows(alloc, facts as usize)?;
    for (b, act) in acts.iter().enumerate() {
        enter_literals(&mut needing, act.pre(), b as u32)?;
        enter_effects(&mut asking, act.effects(), b as u32)?;
    }
    Ok(Readers { needing, asking })
}

/// Whether two literals never hold together, as far as is known.
fn exclusive(pairs: &Pairs, p: u32, q: u32) -> bool
    ensures { result ≡ exclusive pairs.now.clauses p q }
{
    q == opposite(p)
        || pairs.has(opposite(p), opposite(q))
        || pairs.has(opposite(p), opposite(p))
        || pairs.has(opposite(q), opposite(q))
}

/// Puts in the actions that need a literal, where another excludes it.
fn add_excluded(
    row: &mut BitRow,
    pairs: &Pairs,
    needing: &[BitRow],
    p: u32,
    q: usize,
) -> Result<(), AllocError>
    requires few { length needing.now ≤ 4096 }
    requires q { q < length needing.now }
    ensures { OnOk result ((b : ℕ) → row_has row.new b ≡ ((exclusive pairs.now.clauses p q && row_has (row_at needing.now q) b) || row_has row.old b)) }
{
    if needing[q].is_without_room() || !exclusive(pairs, p, q as u32) {
        return Ok(());
    }
    row.unite(&needing[q])?;
    Ok(())
}

/// The actions with a precondition that a literal excludes, looked for literal by literal.
fn excluded_by_each(
    alloc: Global,
    pairs: &Pairs,
    needing: &[BitRow],
    p: u32,
) -> Result<BitRow, AllocError>
    requires { length needing.now ≤ 4096 }
    ensures { IfOk result (λ row. (b : ℕ) → row_has row b ≡ is_excluded pairs.now.clauses needing.now p (length needing.now) b) }
{
    let mut row = BitRow::new(alloc);
    for q in 0..needing.len() {
        add_excluded(&mut row, pairs, needing, p, q)?;
    }
    Ok(row)
}

/// The literals that are clauses by themselves.
fn lone_clauses(alloc: Global, pairs: &Pairs, count: u32) -> Result<BitRow, AllocError>
    ensures { IfOk result (λ row. (m : ℕ) → row_has row m ≡ (nat_lt m count && has_clause pairs.now.clauses m m)) }
{
    let mut row = BitRow::new(alloc);
    for m in 0..count {
        if pairs.has(m, m) {
            row.insert(m)?;
        }
    }
    Ok(row)
}

/// Puts in the actions that need the opposite of one of some literals; of these, those count for which there is a row.
fn add_opposed(row: &mut BitRow, needing: &[BitRow], lits: &BitRow) -> Result<(), AllocError>
    requires few { length needing.now ≤ 4096 }
    requires even { (l : ℕ) → l < length needing.now → opposite l < length needing.now }
    ensures old { OnOk result (IsPartOf row.old row.new) }
    ensures all { OnOk result ((m : ℕ) → m < length needing.now → row_has lits.now m ≡ true → IsPartOf (row_at needing.now (opposite m)) row.new) }
    ensures only { OnOk result (IsOpposed needing.now (row_has lits.now) row.old row.new) }
{
    let mut from = 0;
    while let Some(m) = lits.least(from) {
        if m as usize >= needing.len() {
            return Ok(());
        }
        row.unite(&needing[opposite(m) as usize])?;
        from = m + 1;
    }
    Ok(())
}

/// The actions with a precondition that a literal excludes. `alone` has the literals that are clauses by themselves.
fn excluded(
    alloc: Global,
    pairs: &Pairs,
    needing: &[BitRow],
    alone: &BitRow,
    p: u32,
) -> Result<BitRow, AllocError>
    requires few { length needing.now ≤ 4096 }
    requires long { length needing.now ≡ 2 * pairs.now.facts }
    requires alone { (m : ℕ) → row_has alone.now m ≡ (nat_lt m (length needing.now) && has_clause pairs.now.clauses m m) }
    requires p { p < length needing.now }
    ensures { IfOk result (λ row. (b : ℕ) → row_has row b ≡ is_excluded pairs.now.clauses needing.now p (length needing.now) b) }
{
    let other = opposite(p);
    if alone.contains(other) {
        return excluded_by_each(alloc, pairs, needing, p);
    }
    let mut row = BitRow::new(alloc);
    row.unite(&needing[other as usize])?;
    let partners = pairs.row(other);
    add_opposed(&mut row, needing, partners)?;
    add_opposed(&mut row, needing, alone)?;
    Ok(row)
}

/// For each literal that some action needs, the actions with a precondition that it excludes.
pub fn find_exclusions(
    alloc: Global,
    pairs: &Pairs,
    needing: &[BitRow],
) -> Result<Vec<BitRow>, AllocError>
    requires few { length needing.now ≤ 4096 }
    requires long { length needing.now ≡ 2 * pairs.now.facts }
    ensures { IfOk result (λ rows. AreExclusions pairs.now.clauses needing.now (length needing.now) rows.items) }
{
    let alone = lone_clauses(alloc, pairs, needing.len() as u32)?;
    let mut rows = Vec::new(alloc);
    for p in 0..needing.len() {
        let row = if needing[p].is_without_room() {
            BitRow::new(alloc)
        } else {
            excluded(alloc, pairs, needing, &alone, p as u32)?
        };
        rows.push(row)?;
    }
    Ok(rows)
}
