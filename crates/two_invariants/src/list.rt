//! Rows of clauses as a sorted list.

ghost use Rattle.std.specs.Prelude.{◌≡◌, ℕ, ◌*◌, ◌<◌, ◌≤◌, ◌==◌, ◌&&◌, ◌||◌, true, nat_lt, not, length, IfOk, OnOk};
ghost use Rattle.bit_sets.specs.Rows.{row_has};
ghost use Rattle.gt_core.specs.{Literal.opposite, Interference.has_clause, Clauses.IsKnownClauses};
ghost use Rattle.implied_literals.specs.Rows.{clause_in, AreRows};
ghost use Rattle.two_invariants.specs.own.Listed.{is_from};
ghost use Rattle.gt_core.specs.Limits.{most_facts};

use bit_sets::row::BitRow;
use containers::memory::Memory;
use gt_core::pairs::Pairs;
use std::alloc::Global;

/// Adds the clauses of a literal with itself and with greater ones.
fn add_row(pairs: &mut Pairs, facts: u32, row: &BitRow, l: u32) -> Result<(), Memory>
    requires facts { pairs.old.facts ≡ facts }
    requires few { facts ≤ most_facts }
    requires lawful { IsKnownClauses pairs.old }
    requires l { l < 2 * facts }
    requires within { (m : ℕ) → row_has row.now m ≡ true → m < 2 * facts }
    requires apart { row_has row.now (opposite l) ≡ true → ⊥ }
    ensures facts { pairs.new.facts ≡ facts }
    ensures lawful { OnOk result (IsKnownClauses pairs.new) }
    ensures has { OnOk result ((a b : ℕ) → has_clause pairs.new.clauses a b ≡ (has_clause pairs.old.clauses a b || is_from row.now l (2 * facts) a b)) }
{
    let mut from = l;
    while let Some(m) = row.least(from) {
        pairs.add(l, m)?;
        from = m + 1;
    }
    Ok(())
}

/// The clauses of rows.
pub fn list_clauses(alloc: Global, facts: u32, rows: &[BitRow]) -> Result<Pairs, Memory>
    requires rows { AreRows facts rows.now }
    requires either { (l m : ℕ) → clause_in rows.now l m ≡ clause_in rows.now m l }
    requires apart { (l : ℕ) → clause_in rows.now l (opposite l) ≡ true → ⊥ }
    ensures facts { IfOk result (λ pairs. pairs.facts ≡ facts) }
    ensures lawful { IfOk result IsKnownClauses }
    ensures clauses { IfOk result (λ pairs. (l m : ℕ) → has_clause pairs.clauses l m ≡ clause_in rows.now l m) }
{
    let mut pairs = Pairs::empty(alloc, facts)?;
    for l in 0..2 * facts {
        add_row(&mut pairs, facts, &rows[l as usize], l)?;
    }
    Ok(pairs)
}
