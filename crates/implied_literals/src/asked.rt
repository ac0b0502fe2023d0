//! The literals that actions ask for, in a precondition or in the condition of an effect.

ghost use Rattle.std.specs.Prelude.{◌≡◌, ℕ, ◌*◌, ◌<◌, ◌≤◌, ◌==◌, ◌||◌, true, false, length, IfOk, OnOk};
ghost use Rattle.std.specs.List.{list_any};
ghost use Rattle.bit_sets.specs.Rows.{row_has};
ghost use Rattle.implied_literals.specs.Rows.{row_at, clause_in, HasNoPair};
ghost use Rattle.implied_literals.specs.Renewed.{asks};
ghost use Rattle.gt_core.specs.Limits.{most_facts};

use crate::known::Known;
use bit_sets::row::BitRow;
use gt_core::act::Act;
use gt_core::eff::Eff;
use std::alloc::{AllocError, Global};

/// Puts literals into a set.
fn insert_all(lits: &[u32], row: &mut BitRow) -> Result<(), AllocError>
    ensures { OnOk result ((k : ℕ) → row_has row.new k ≡ (row_has row.old k || list_any (λ l. l == k) lits.now)) }
{
    for lit in lits {
        row.insert(*lit)?;
    }
    Ok(())
}

/// Puts the literals of the conditions of effects into a set.
fn insert_conditions(effects: &[Eff], row: &mut BitRow) -> Result<(), AllocError>
    ensures { OnOk result ((k : ℕ) → row_has row.new k ≡ (row_has row.old k || list_any (λ e. list_any (λ l. l == k) e.condition) effects.now)) }
{
    for effect in effects {
        insert_all(effect.cond(), row)?;
    }
    Ok(())
}

/// Puts the literals that an action asks for into a set.
fn insert_asked(act: &Act, row: &mut BitRow) -> Result<(), AllocError>
    ensures { OnOk result ((k : ℕ) → row_has row.new k ≡ (row_has row.old k || asks act.now k)) }
{
    insert_all(act.pre(), row)?;
    insert_conditions(act.effects(), row)?;
    Ok(())
}

/// The literals that actions ask for.
pub fn asked_literals(alloc: Global, acts: &[Act]) -> Result<BitRow, AllocError>
    ensures { IfOk result (λ row. (k : ℕ) → row_has row k ≡ list_any (λ x. asks x k) acts.now) }
{
    let mut row = BitRow::new(alloc);
    for act in acts {
        insert_asked(act, &mut row)?;
    }
    Ok(row)
}

/// A row that contradicts itself.
fn contradiction(alloc: Global) -> Result<BitRow, AllocError>
    ensures { IfOk result (λ row. HasNoPair (row_has row) → ⊥) }
{
    let mut row = BitRow::new(alloc);
    row.insert(0)?;
    row.insert(1)?;
    Ok(row)
}

/// A contradiction for a literal that is asked for, none for another.
fn first_row(alloc: Global, asked: &BitRow, l: u32) -> Result<BitRow, AllocError>
    ensures asked { IfOk result (λ row. row_has asked.now l ≡ true → HasNoPair (row_has row) → ⊥) }
    ensures other { IfOk result (λ row. row_has asked.now l ≡ false → (m : ℕ) → row_has row m ≡ false) }
{
    if asked.contains(l) {
        contradiction(alloc)
    } else {
        Ok(BitRow::new(alloc))
    }
}

/// A row for each literal of so many facts, before anything is worked out.
fn first_rows(alloc: Global, facts: u32, asked: &BitRow) -> Result<Vec<BitRow>, AllocError>
    requires { facts ≤ most_facts }
    ensures long { IfOk result (λ rows. length rows.items ≡ 2 * facts) }
    ensures asked { IfOk result (λ rows. (k : ℕ) → row_has asked.now k ≡ true → k < 2 * facts → HasNoPair (row_has (row_at rows.items k)) → ⊥) }
    ensures other { IfOk result (λ rows. (k m : ℕ) → row_has asked.now k ≡ false → clause_in rows.items k m ≡ false) }
{
    let mut rows = Vec::new(alloc);
    for l in 0..2 * facts {
        let row = first_row(alloc, asked, l)?;
        rows.push(row)?;
    }
    Ok(rows)
}

/// What stands for what is known before anything is worked out: what contradicts itself has to be.
pub fn nothing_known(alloc: Global, facts: u32, asked: &BitRow) -> Result<Known, AllocError>
    requires { facts ≤ most_facts }
    ensures none { IfOk result (λ known. HasNoPair (row_has known.none) → ⊥) }
    ensures long { IfOk result (λ known. length known.rows.items ≡ 2 * facts) }
    ensures asked { IfOk result (λ known. (k : ℕ) → row_has asked.now k ≡ true → k < 2 * facts → HasNoPair (row_has (row_at known.rows.items k)) → ⊥) }
    ensures other { IfOk result (λ known. (k m : ℕ) → row_has asked.now k ≡ false → clause_in known.rows.items k m ≡ false) }
{
    let none = contradiction(alloc)?;
    let rows = first_rows(alloc, facts, asked)?;
    Ok(Known { none, rows })
}
