//! The known pairs at one time.

ghost use Rattle.std.specs.Prelude.{◌≡◌, ◌+◌, ◌++◌, OnOk, IfOk};
ghost use Rattle.formula_defs.specs.Coded.{coded};
ghost use Rattle.formula_defs.specs.Formula.{pair_clause};
ghost use Rattle.formula_defs.specs.Shift.{one_time};

use crate::literals::add_clause;
use clause_base::clause_list::ClauseList;
use clause_base::literal::Lit;
use containers::memory::Memory;
use gt_core::pairs::Pairs;
use std::alloc::Global;

/// Appends a known pair, unless one of its two literals is known by itself.
fn add_known(pairs: &Pairs, l: u32, m: u32, clauses: &mut ClauseList) -> Result<(), Memory>
    ensures { OnOk result (clauses.new ≡ clauses.old ++ coded (pair_clause (λ f. f) pairs.now.clauses (l, m))) }
{
    if l == m {
        return add_clause(clauses, &[Lit(l)]);
    }
    if pairs.has(l, l) || pairs.has(m, m) {
        return Ok(());
    }
    add_clause(clauses, &[Lit(l), Lit(m)])?;
    Ok(())
}

/// The known pairs, where fact f has variable f.
pub fn one_time(alloc: Global, pairs: &Pairs) -> Result<ClauseList, Memory>
    ensures { IfOk result (λ clauses. clauses ≡ one_time pairs.now.clauses) }
{
    let mut clauses = ClauseList::new(alloc);
    for i in 0..pairs.count() {
        let (l, m) = pairs.at(i);
        add_known(pairs, l, m, &mut clauses)?;
    }
    Ok(clauses)
}
