//! The clauses of a formula at its first and its last time.

ghost use Rattle.std.specs.Prelude.{◌≡◌, ◌+◌, ◌/◌, ◌≤◌, ◌<◌, [], ◌∷◌, map, length, if◌then◌else◌, OnOk};
ghost use Rattle.gt_core.specs.Task.{initial_state};
ghost use Rattle.formula_defs.specs.Layout.{fact_at, variables};
ghost use Rattle.formula_defs.specs.Clause.{Is, Not, code};
ghost use Rattle.formula_defs.specs.Formula.{literal_over, initial_clauses};
ghost use Rattle.formula_defs.specs.Coded.{coded};
ghost use Rattle.step_encoding.specs.own.Parts.{added, HasClauseRoom};

use clause_base::formula::Formula;
use clause_base::literal::Lit;
use containers::memory::Memory;
use formula_defs::layout::Layout;
use gt_core::task::Task;
use step_formula::literals::fact_lit;

/// Adds the clause of one literal.
fn add_single(formula: &mut Formula, lit: Lit) -> Result<(), Memory>
    requires within { lit / 2 < formula.old.variables }
    requires room { HasClauseRoom formula.old 1 }
    ensures { OnOk result (formula.new ≡ added formula.old ((lit ∷ []) ∷ [])) }
{
    formula.add_sorted(&[lit])
}

/// The initial value of a fact.
fn initial_value(task: &Task, fact: u32) -> bool
    requires { fact < task.now.facts }
    ensures { result ≡ initial_state task.now fact }
{
    // For the proof: the task is lawful.
    let _facts = task.facts();
    task.init()[fact as usize]
}

/// Adds that each fact has its initial value at time 0.
pub fn add_initial(task: &Task, layout: &Layout, formula: &mut Formula) -> Result<(), Memory>
    requires facts { layout.now.facts ≡ task.now.facts }
    requires variables { formula.old.variables ≡ variables layout.now }
    requires room { HasClauseRoom formula.old task.now.facts }
    ensures added { OnOk result (formula.new ≡ added formula.old (coded (initial_clauses layout.now task.now))) }
    ensures few { OnOk result (length formula.new.clauses ≤ length formula.old.clauses + task.now.facts) }
{
    for f in 0..task.facts() {
        add_single(formula, fact_lit(layout, 0, f, initial_value(task, f)))?;
    }
    Ok(())
}

/// Adds the empty clause where the goal is hopeless.
pub fn add_hopeless(task: &Task, formula: &mut Formula) -> Result<(), Memory>
    requires { HasClauseRoom formula.old 1 }
    ensures added { OnOk result (formula.new ≡ added formula.old (if task.now.hopeless then [] ∷ [] else [])) }
    ensures few { OnOk result (length formula.new.clauses ≤ length formula.old.clauses + 1) }
{
    if task.hopeless() {
        formula.add_sorted(&[])?;
    }
    Ok(())
}

/// Adds that the goal holds at the last time.
pub fn add_goal(task: &Task, layout: &Layout, formula: &mut Formula) -> Result<(), Memory>
    requires facts { layout.now.facts ≡ task.now.facts }
    requires variables { formula.old.variables ≡ variables layout.now }
    requires room { HasClauseRoom formula.old (length task.now.goal) }
    ensures added { OnOk result (formula.new ≡ added formula.old (map (λ l. code (literal_over (fact_at layout.now layout.now.horizon) l) ∷ []) task.now.goal)) }
    ensures few { OnOk result (length formula.new.clauses ≤ length formula.old.clauses + length task.now.goal) }
{
    // For the proof: the task is lawful.
    let _facts = task.facts();
    for lit in task.goal() {
        let fact = fact_lit(layout, layout.horizon, *lit / 2, *lit % 2 == 0);
        add_single(formula, fact)?;
    }
    Ok(())
}
