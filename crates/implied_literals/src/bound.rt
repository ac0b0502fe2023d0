//! The literals that stand in a clause, and what literals tell at once.

ghost use Rattle.std.specs.Prelude.{◌≡◌, ℕ, ◌*◌, ◌<◌, ◌≤◌, Bool, true, length, IfOk, OnOk};
ghost use Rattle.bit_sets.specs.Rows.{row_has};
ghost use Rattle.gt_core.specs.Literal.{opposite};
ghost use Rattle.implied_literals.specs.Rows.{clause_in, AreRows, IsPart, IsChained};
ghost use Rattle.implied_literals.specs.Tested.{IsSetOf};
ghost use Rattle.implied_literals.specs.Renewed.{IsBound};

use bit_sets::row::BitRow;
use gt_core::lits::opposite;
use std::alloc::{AllocError, Global};

/// The literals that stand in a clause, and their opposites, which tell something.
#[derive(Drop)]
pub struct Bound {
    pub literals: BitRow,
    pub opposites: BitRow,
}

/// Notes a literal that stands in a clause of its row.
fn note_bound(row: &BitRow, l: u32, bound: &mut Bound) -> Result<(), AllocError>
    ensures literals { OnOk result (IsPart (row_has bound.old.literals) (row_has bound.new.literals)) }
    ensures opposites { OnOk result (IsPart (row_has bound.old.opposites) (row_has bound.new.opposites)) }
    ensures own { OnOk result ((m : ℕ) → row_has row.now m ≡ true → (row_has bound.new.literals l ≡ true) × (row_has bound.new.opposites (opposite l) ≡ true)) }
{
    if row.least(0).is_none() {
        return Ok(());
    }
    bound.literals.insert(l)?;
    bound.opposites.insert(opposite(l))?;
    Ok(())
}

/// The literals that stand in a clause.
pub fn bound_literals(alloc: Global, facts: u32, clauses: &[BitRow]) -> Result<Bound, AllocError>
    requires { AreRows facts clauses.now }
    ensures { IfOk result (IsBound (clause_in clauses.now)) }
{
    let mut bound = Bound {
        literals: BitRow::new(alloc),
        opposites: BitRow::new(alloc),
    };
    for l in 0..2 * facts {
        note_bound(&clauses[l as usize], l, &mut bound)?;
    }
    Ok(bound)
}

/// Puts in what the literals of a set tell at once.
pub fn add_told(
    clauses: &[BitRow],
    bound: &Bound,
    set: &BitRow,
    told: &mut BitRow,
) -> Result<(), AllocError>
    requires few { length clauses.now ≤ 4096 }
    requires even { (l : ℕ) → l < length clauses.now → opposite l < length clauses.now }
    requires bound { IsBound (clause_in clauses.now) bound.now }
    requires set { IsSetOf (length clauses.now) (row_has set.now) }
    ensures all { OnOk result ((x y : ℕ) → row_has set.now x ≡ true → clause_in clauses.now (opposite x) y ≡ true → row_has told.new y ≡ true) }
    ensures only { OnOk result ((other : ℕ → Bool) → IsChained (clause_in clauses.now) other → IsPart (row_has set.now) other → IsPart (row_has told.old) other → IsPart (row_has told.new) other) }
{
    let mut from = 0;
    while let Some(x) = set.least_common(&bound.opposites, from) {
        told.unite(&clauses[opposite(x) as usize])?;
        from = x + 1;
    }
    Ok(())
}
