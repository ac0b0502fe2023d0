//! The clauses that are true in the initial state.

ghost use Rattle.std.specs.Prelude.{◌≡◌, ℕ, ◌*◌, ◌/◌, ◌<◌, ◌≤◌, ◌==◌, ◌&&◌, ◌||◌, nat_lt, not, length, IfOk};
ghost use Rattle.bit_sets.specs.Rows.{row_has};
ghost use Rattle.gt_core.specs.Literal.{opposite, holds, state_of};
ghost use Rattle.implied_literals.specs.Rows.{clause_in, AreRows};
ghost use Rattle.two_invariants.specs.own.First.{is_first};
ghost use Rattle.gt_core.specs.Limits.{most_facts};

use bit_sets::row::BitRow;
use gt_core::lits::opposite;
use implied_literals::known::copy;
use std::alloc::{AllocError, Global};

/// Whether a literal holds in a state.
fn holds(state: &[bool], l: u32) -> bool
    requires { l / 2 < length state.now }
    ensures { result ≡ holds (state_of state.now) l }
{
    let value = state[(l / 2) as usize];
    if l % 2 == 0 { value } else { !value }
}

/// All literals of a state.
fn all_literals(alloc: Global, facts: u32) -> Result<BitRow, AllocError>
    requires { facts ≤ most_facts }
    ensures { IfOk result (λ row. (m : ℕ) → row_has row m ≡ nat_lt m (2 * facts)) }
{
    let mut row = BitRow::new(alloc);
    for l in 0..2 * facts {
        row.insert(l)?;
    }
    Ok(row)
}

/// The literals that hold in a state.
fn true_literals(alloc: Global, state: &[bool]) -> Result<BitRow, AllocError>
    requires { length state.now ≤ most_facts }
    ensures { IfOk result (λ row. (m : ℕ) → row_has row m ≡ (nat_lt m (2 * length state.now) && holds (state_of state.now) m)) }
{
    let mut row = BitRow::new(alloc);
    for l in 0..2 * state.len() as u32 {
        if holds(state, l) {
            row.insert(l)?;
        }
    }
    Ok(row)
}

/// The clauses of a literal.
fn first_row(
    alloc: Global,
    state: &[bool],
    all: &BitRow,
    trues: &BitRow,
    l: u32,
) -> Result<BitRow, AllocError>
    requires few { length state.now ≤ most_facts }
    requires l { l < 2 * length state.now }
    requires all { (m : ℕ) → row_has all.now m ≡ nat_lt m (2 * length state.now) }
    requires trues { (m : ℕ) → row_has trues.now m ≡ (nat_lt m (2 * length state.now) && holds (state_of state.now) m) }
    ensures { IfOk result (λ row. (m : ℕ) → row_has row m ≡ is_first (length state.now) (state_of state.now) l m) }
{
    let mut row = copy(alloc, if holds(state, l) { all } else { trues })?;
    row.remove(opposite(l));
    Ok(row)
}

/// The clauses of one literal, or of two of different facts, that are true in a state.
pub fn first_clauses(alloc: Global, state: &[bool]) -> Result<Vec<BitRow>, AllocError>
    requires { length state.now ≤ most_facts }
    ensures rows { IfOk result (λ rows. AreRows (length state.now) rows.items) }
    ensures clauses { IfOk result (λ rows. (l m : ℕ) → clause_in rows.items l m ≡ is_first (length state.now) (state_of state.now) l m) }
{
    let all = all_literals(alloc, state.len() as u32)?;
    let trues = true_literals(alloc, state)?;
    let mut rows = Vec::new(alloc);
    for l in 0..2 * state.len() as u32 {
        let row = first_row(alloc, state, &all, &trues, l)?;
        rows.push(row)?;
    }
    Ok(rows)
}
