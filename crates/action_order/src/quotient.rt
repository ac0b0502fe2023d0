//! The graph of the components, and their names.

ghost use Rattle.std.specs.Prelude.{◌≡◌, ℕ, ◌<◌, ◌≤◌, length, IfOk};
ghost use Rattle.action_order.specs.own.Graph.{IsGraph, IsClassed, class_at};
ghost use Rattle.action_order.specs.own.Quotient.{AreUnited, IsWithoutOwn, IsQuotient, AreNames};
ghost use Rattle.gt_core.specs.Limits.{most_actions};

use bit_sets::row::{BitRow, empty_rows};
use std::alloc::{AllocError, Global};

/// The rows of the vertices of each component, as one.
fn unite(
    alloc: Global,
    mut targets: Vec<BitRow>,
    numbers: &[usize],
    count: usize,
) -> Result<Vec<BitRow>, AllocError>
    requires long { length numbers.now ≡ length targets.items }
    requires below { (a : ℕ) → a < length numbers.now → class_at numbers.now a < count }
    ensures { IfOk result (λ rows. AreUnited targets.items numbers.now count 0 rows.items) }
{
    let mut rows = empty_rows(alloc, count)?;
    while let Some(row) = targets.pop() {
        let whole = &mut rows[numbers[targets.len()]];
        whole.unite(&row)?;
    }
    Ok(rows)
}

/// Takes each vertex out of the row of its own component.
fn leave_own_out(rows: &mut Vec<BitRow>, numbers: &[usize])
    requires few { length numbers.now ≤ most_actions }
    requires below { (a : ℕ) → a < length numbers.now → class_at numbers.now a < length rows.old.items }
    ensures { IsWithoutOwn numbers.now (length numbers.now) rows.old.items rows.new.items }
{
    for (b, number) in numbers.iter().enumerate() {
        let row = &mut rows[*number];
        row.remove(b as u32);
    }
}

/// The graph of the components of a graph: each leads to the vertices outside it to which one of its own has an edge.
pub fn quotient(
    alloc: Global,
    targets: Vec<BitRow>,
    numbers: &[usize],
    roots: &[u32],
) -> Result<Vec<BitRow>, AllocError>
    requires graph { IsGraph targets.items }
    requires few { length targets.items ≤ most_actions }
    requires classes { IsClassed targets.items numbers.now roots.now }
    ensures { IfOk result (λ rows. IsQuotient targets.items numbers.now (length roots.now) rows.items) }
{
    let mut rows = unite(alloc, targets, numbers, roots.len())?;
    leave_own_out(&mut rows, numbers);
    Ok(rows)
}

/// The least vertex of each component.
pub fn names(alloc: Global, numbers: &[usize], roots: &[u32]) -> Result<Vec<u32>, AllocError>
    requires below { (a : ℕ) → a < length numbers.now → class_at numbers.now a < length roots.now }
    requires few { length numbers.now ≤ most_actions }
    requires used { AreNames numbers.now (length roots.now) 0 roots.now }
    ensures { IfOk result (λ names. AreNames numbers.now (length roots.now) (length numbers.now) names.items) }
{
    let mut names = Vec::from_slice(alloc, roots)?;
    for (a, number) in numbers.iter().enumerate() {
        if (a as u32) < names[*number] {
            names[*number] = a as u32;
        }
    }
    Ok(names)
}
