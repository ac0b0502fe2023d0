//! Literals of the first step, and clauses of them.

ghost use Rattle.std.specs.Prelude.{◌≡◌, ◌/◌, ◌≤◌, ◌<◌, [], ◌++◌, if◌then◌else◌, OnOk};
ghost use Rattle.std.specs.List.{cons_option};
ghost use Rattle.formula_defs.specs.Layout.{action_at, fact_at, variables};
ghost use Rattle.clause_base.specs.Clause.{clause_of};
ghost use Rattle.formula_defs.specs.Clause.{Is, Not, code};
ghost use Rattle.formula_defs.specs.Formula.{literal_over};

use clause_base::clause_list::ClauseList;
use clause_base::literal::Lit;
use containers::memory::Memory;
use formula_defs::layout::Layout;

/// The variable of an action in the first step.
pub(crate) fn action_variable(layout: &Layout, a: u32) -> u32
    requires horizon { 0 < layout.now.horizon }
    requires a { a < layout.now.actions }
    ensures value { result ≡ action_at layout.now 0 a }
    ensures small { result ≤ 2147483647 }
{
    // For the proof: the layout is lawful, so what it numbers are variables of the formula.
    let _all = layout.variables();
    layout.action(0, a)
}

/// The literal that a fact has a value at a time.
pub fn fact_lit(layout: &Layout, time: u32, fact: u32, value: bool) -> Lit
    requires time { time ≤ layout.now.horizon }
    requires fact { fact < layout.now.facts }
    ensures code { result ≡ code (if value then Is (fact_at layout.now time fact) else Not (fact_at layout.now time fact)) }
    ensures within { result / 2 < variables layout.now }
{
    // For the proof: the layout is lawful, so what it numbers are variables of the formula.
    let _all = layout.variables();
    let variable = layout.fact(time, fact);
    if value {
        Lit::of(variable, true)
    } else {
        Lit::of(variable, false)
    }
}

/// The literal that a fact literal is at a time.
pub(crate) fn literal_at(layout: &Layout, time: u32, lit: u32) -> Lit
    requires time { time ≤ layout.now.horizon }
    requires fact { lit / 2 < layout.now.facts }
    ensures { result ≡ code (literal_over (fact_at layout.now time) lit) }
{
    fact_lit(layout, time, lit / 2, lit % 2 == 0)
}

/// Appends the clause of these literals, unless two of them are opposite.
pub(crate) fn add_clause(clauses: &mut ClauseList, lits: &[Lit]) -> Result<(), Memory>
    ensures { OnOk result (clauses.new ≡ clauses.old ++ cons_option (clause_of lits.now) []) }
{
    clauses.add_of(lits)?;
    Ok(())
}
