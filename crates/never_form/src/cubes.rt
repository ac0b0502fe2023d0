//! The clauses of cubes: each has a variable, which makes its literals true after the step.

ghost use Rattle.std.specs.Prelude.{◌≡◌, ◌+◌, ◌*◌, ◌<◌, ◌≤◌, ◌++◌, map, length, OnOk};
ghost use Rattle.std.specs.List.{AllByRecursion};
ghost use Rattle.gt_core.specs.Literal.{opposite};
ghost use Rattle.formula_defs.specs.Coded.{literals_in};
ghost use Rattle.never_form.specs.own.Parts.{with_made, cube, cubes, Fits, HasRoom};

use crate::adds::add;
use clause_base::formula::Formula;
use clause_base::literal::Lit;
use containers::FlatLists;
use containers::codes::opposite;
use containers::memory::Memory;
use std::alloc::Global;

/// Adds that a variable makes literals of facts true, whose codes begin at a base.
pub(crate) fn add_cube(
    alloc: Global,
    base: u32,
    variable: u32,
    lits: &[u32],
    formula: &mut Formula,
) -> Result<(), Memory>
    requires small { formula.old.variables ≤ 2147483647 }
    requires below { variable < formula.old.variables }
    requires fit { Fits base formula.old.variables lits.now }
    requires room { HasRoom formula.old (length lits.now) }
    ensures added { OnOk result (formula.new ≡ with_made formula.old (cube base variable lits.now)) }
    ensures few { OnOk result (length formula.new.clauses ≤ length formula.old.clauses + length lits.now) }
{
    for lit in lits {
        add(alloc, &[Lit(2 * variable + 1), Lit(base + *lit)], formula)?;
    }
    Ok(())
}

/// Appends the opposites of literals.
fn push_opposites(lits: &[u32], into: &mut Vec<u32>) -> Result<(), Memory>
    ensures { OnOk result (into.new.items ≡ into.old.items ++ map opposite lits.now) }
{
    for lit in lits {
        into.push(opposite(*lit))?;
    }
    Ok(())
}

/// Adds the cubes that say of each of some clauses that it is false, with variables from this one on. The codes of facts begin at a base.
pub(crate) fn add_cubes(
    alloc: Global,
    base: u32,
    first: u32,
    clauses: &FlatLists<u32>,
    formula: &mut Formula,
) -> Result<(), Memory>
    requires small { formula.old.variables ≤ 2147483647 }
    requires below { first + length clauses.now ≤ formula.old.variables }
    requires fit { AllByRecursion (λ c. Fits base formula.old.variables (map opposite c)) clauses.now }
    requires room { HasRoom formula.old (literals_in clauses.now) }
    ensures added { OnOk result (formula.new ≡ with_made formula.old (cubes base first clauses.now)) }
    ensures few { OnOk result (length formula.new.clauses ≤ length formula.old.clauses + literals_in clauses.now) }
{
    let mut lits = Vec::new(alloc);
    for number in 0..clauses.len() {
        lits.clear();
        push_opposites(clauses.at(number), &mut lits)?;
        add_cube(alloc, base, first + number as u32, &lits, formula)?;
    }
    Ok(())
}
