//! Clauses at the end of a formula.

ghost use Rattle.std.specs.Prelude.{◌≡◌, ◌/◌, ◌*◌, ◌+◌, ◌<◌, ◌≤◌, ◌∷◌, [], ◌++◌, drop, length, map, OnOk};
ghost use Rattle.std.specs.List.{AllByRecursion};
ghost use Rattle.never_form.specs.own.Parts.{with_made, moved, some, Fits, HasRoom};

use clause_base::clause::Clause;
use clause_base::formula::Formula;
use clause_base::literal::Lit;
use clause_base::view::View;
use containers::FlatLists;
use containers::memory::Memory;
use std::alloc::Global;

/// Adds the clause of these literals, unless two of them are opposite.
pub(crate) fn add(alloc: Global, lits: &[Lit], formula: &mut Formula) -> Result<(), Memory>
    requires below { AllByRecursion (λ l. l / 2 < formula.old.variables) lits.now }
    requires room { HasRoom formula.old 1 }
    ensures added { OnOk result (formula.new ≡ with_made formula.old (lits.now ∷ [])) }
    ensures few { OnOk result (length formula.new.clauses ≤ length formula.old.clauses + 1) }
{
    if let Some(clause) = Clause::of(alloc, lits)? {
        formula.add(clause)?;
    }
    Ok(())
}

/// Appends literals of facts, whose codes begin at a base.
fn push_moved(base: u32, lits: &[u32], into: &mut Vec<Lit>) -> Result<(), Memory>
    requires { AllByRecursion (λ l. base + l ≤ 4294967295) lits.now }
    ensures { OnOk result (into.new.items ≡ into.old.items ++ moved base lits.now) }
{
    for lit in lits {
        into.push(Lit(base + *lit))?;
    }
    Ok(())
}

/// Adds clauses of literals of facts, whose codes begin at a base.
pub(crate) fn add_clauses(
    alloc: Global,
    base: u32,
    clauses: &FlatLists<u32>,
    formula: &mut Formula,
) -> Result<(), Memory>
    requires small { formula.old.variables ≤ 2147483647 }
    requires fit { AllByRecursion (Fits base formula.old.variables) clauses.now }
    requires room { HasRoom formula.old (length clauses.now) }
    ensures added { OnOk result (formula.new ≡ with_made formula.old (map (moved base) clauses.now)) }
    ensures few { OnOk result (length formula.new.clauses ≤ length formula.old.clauses + length clauses.now) }
{
    let mut lits = Vec::new(alloc);
    for number in 0..clauses.len() {
        lits.clear();
        push_moved(base, clauses.at(number), &mut lits)?;
        add(alloc, &lits, formula)?;
    }
    Ok(())
}

/// Adds the clause of so many variables, from this one on.
pub(crate) fn add_some(
    alloc: Global,
    first: u32,
    count: u32,
    formula: &mut Formula,
) -> Result<(), Memory>
    requires below { first + count ≤ formula.old.variables }
    requires small { formula.old.variables ≤ 2147483647 }
    requires room { HasRoom formula.old 1 }
    ensures added { OnOk result (formula.new ≡ with_made formula.old (some first count ∷ [])) }
    ensures few { OnOk result (length formula.new.clauses ≤ length formula.old.clauses + 1) }
{
    let mut lits = Vec::new(alloc);
    for k in 0..count {
        lits.push(Lit(2 * (first + k)))?;
    }
    add(alloc, &lits, formula)
}

/// Appends the literals of a clause that is read where it stands.
fn push_view(view: &View<'_>, lits: &mut Vec<Lit>) -> Result<(), Memory>
    ensures { OnOk result (lits.new.items ≡ lits.old.items ++ view.now) }
{
    for place in 0..view.len() {
        lits.push(view.get(place))?;
    }
    Ok(())
}

/// Adds the clauses of another formula, from the one with this number on.
pub(crate) fn add_rest(
    alloc: Global,
    one: &Formula,
    start: u32,
    formula: &mut Formula,
) -> Result<(), Memory>
    requires fewer { one.now.variables ≤ formula.old.variables }
    requires room { HasRoom formula.old (length (drop start one.now.clauses)) }
    ensures { OnOk result (formula.new ≡ record formula.old { clauses = formula.old.clauses ++ drop start one.now.clauses }) }
{
    let mut lits = Vec::new(alloc);
    for number in start..one.count() {
        lits.clear();
        push_view(&one.clause(number), &mut lits)?;
        formula.add_sorted(&lits)?;
    }
    Ok(())
}
