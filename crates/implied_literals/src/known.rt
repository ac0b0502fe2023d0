//! What is known of a state in which each clause of a set holds. Each clause has at most two literals, so what several
//! literals tell is what each tells by itself.

ghost use Rattle.std.specs.Prelude.{◌≡◌, ℕ, ◌<◌, ◌≤◌, true, length, IfOk, OnOk};
ghost use Rattle.std.specs.List.{AllByRecursion, list_all};
ghost use Rattle.bit_sets.specs.Rows.{row_has};
ghost use Rattle.implied_literals.specs.Tested.{with_more};

use bit_sets::row::BitRow;
use std::alloc::{AllocError, Global};

/// What is known from no literal, and from each that is asked for by itself. Where a literal is known with its opposite,
/// a row may lack others.
#[derive(Drop)]
pub struct Known {
    pub none: BitRow,
    pub rows: Vec<BitRow>,
}

/// The same set again.
pub fn copy(alloc: Global, set: &BitRow) -> Result<BitRow, AllocError>
    ensures { IfOk result (λ row. (m : ℕ) → row_has row m ≡ row_has set.now m) }
{
    let mut row = BitRow::new(alloc);
    row.make_same(set)?;
    Ok(row)
}

/// Whether each of some literals is known.
pub fn all_known(set: &BitRow, lits: &[u32]) -> bool
    ensures { result ≡ list_all (row_has set.now) lits.now }
{
    for lit in lits {
        if !set.contains(*lit) {
            return false;
        }
    }
    true
}

/// Makes a row of a set with what some literals tell.
pub fn fill_with(
    rows: &[BitRow],
    set: &BitRow,
    lits: &[u32],
    row: &mut BitRow,
) -> Result<(), AllocError>
    requires { AllByRecursion (λ l. l < length rows.now) lits.now }
    ensures { OnOk result ((m : ℕ) → row_has row.new m ≡ with_more rows.now (row_has set.now) lits.now m) }
{
    row.make_same(set)?;
    for lit in lits {
        row.unite(&rows[*lit as usize])?;
    }
    Ok(())
}

/// A set with what some literals tell. Room for all literals is made at once.
pub fn with_more(
    alloc: Global,
    rows: &[BitRow],
    set: &BitRow,
    lits: &[u32],
) -> Result<BitRow, AllocError>
    requires few { length rows.now ≤ 4096 }
    requires lits { AllByRecursion (λ l. l < length rows.now) lits.now }
    ensures { IfOk result (λ row. (m : ℕ) → row_has row m ≡ with_more rows.now (row_has set.now) lits.now m) }
{
    let mut row = BitRow::new(alloc);
    row.make_room(rows.len())?;
    fill_with(rows, set, lits, &mut row)?;
    Ok(row)
}
