//! An action in a step has each literal of its precondition.

ghost use Rattle.std.specs.Prelude.{◌≡◌, ◌/◌, ◌<◌, [], ◌∷◌, ◌++◌, map, OnOk};
ghost use Rattle.std.specs.List.{AllByRecursion};
ghost use Rattle.formula_defs.specs.Layout.{action_at, fact_at};
ghost use Rattle.formula_defs.specs.Clause.{Not};
ghost use Rattle.formula_defs.specs.Coded.{coded};
ghost use Rattle.formula_defs.specs.Formula.{literal_over, precondition_clauses};
ghost use Rattle.step_formula.specs.Rows.{IsLaidOut};

use crate::literals::{action_variable, add_clause, literal_at};
use clause_base::clause_list::ClauseList;
use clause_base::literal::Lit;
use containers::memory::Memory;
use formula_defs::layout::Layout;
use gt_core::task::Task;

/// Appends the clauses of one action's precondition.
fn add_precondition(
    layout: &Layout,
    action: u32,
    precondition: &[u32],
    clauses: &mut ClauseList,
) -> Result<(), Memory>
    requires horizon { 0 < layout.now.horizon }
    requires action { action < layout.now.actions }
    requires within { AllByRecursion (λ l. l / 2 < layout.now.facts) precondition.now }
    ensures { OnOk result (clauses.new ≡ clauses.old ++ coded (map (λ l. Not (action_at layout.now 0 action) ∷ literal_over (fact_at layout.now 0) l ∷ []) precondition.now)) }
{
    let no_action = Lit::of(action_variable(layout, action), false);
    for lit in precondition {
        add_clause(clauses, &[no_action, literal_at(layout, 0, *lit)])?;
    }
    Ok(())
}

/// Appends the clauses of all preconditions.
pub(crate) fn add_preconditions(
    layout: &Layout,
    task: &Task,
    clauses: &mut ClauseList,
) -> Result<(), Memory>
    requires { IsLaidOut layout.now task.now }
    ensures { OnOk result (clauses.new ≡ clauses.old ++ coded (precondition_clauses (action_at layout.now 0) (fact_at layout.now 0) 0 task.now.actions)) }
{
    for a in 0..layout.actions {
        add_precondition(layout, a, task.act(a).pre(), clauses)?;
    }
    Ok(())
}
