//! A fact that changes in a step has an effect that changes it.

ghost use Rattle.std.specs.Prelude.{◌≡◌, ◌+◌, ◌*◌, ◌<◌, [], ◌∷◌, ◌++◌, OnOk};
ghost use Rattle.std.specs.List.{cons_option};
ghost use Rattle.gt_core.specs.Literal.{range};
ghost use Rattle.formula_defs.specs.Layout.{fact_at};
ghost use Rattle.clause_base.specs.Clause.{clause_of};
ghost use Rattle.formula_defs.specs.Clause.{code};
ghost use Rattle.formula_defs.specs.Coded.{coded};
ghost use Rattle.formula_defs.specs.Variables.{rows, variable_at};
ghost use Rattle.formula_defs.specs.Formula.{literal_over, frame_clauses};
ghost use Rattle.step_formula.specs.Rows.{IsIndex};

use crate::index::Makers;
use crate::literals::{add_clause, literal_at};
use clause_base::clause_list::ClauseList;
use clause_base::literal::Lit;
use containers::memory::Memory;
use formula_defs::layout::Layout;
use gt_core::task::Task;
use std::alloc::Global;

/// Appends that a fact literal that holds before the step holds after it, or one of these variables is true.
fn add_frame(
    alloc: Global,
    layout: &Layout,
    lit: u32,
    contrary: u32,
    makers: &[Lit],
    clauses: &mut ClauseList,
) -> Result<(), Memory>
    requires horizon { 0 < layout.now.horizon }
    requires lit { lit < 2 * layout.now.facts }
    requires contrary { contrary < 2 * layout.now.facts }
    ensures { OnOk result (clauses.new ≡ clauses.old ++ cons_option (clause_of (code (literal_over (fact_at layout.now 0) contrary) ∷ code (literal_over (fact_at layout.now 1) lit) ∷ makers.now)) []) }
{
    let mut lits = vec![in alloc; literal_at(layout, 0, contrary), literal_at(layout, 1, lit)]?;
    lits.extend_from_slice(makers)?;
    add_clause(clauses, lits.as_slice())?;
    Ok(())
}

/// Appends the frame clauses of all facts, over an index of the effects by literal.
pub(crate) fn add_frames(
    alloc: Global,
    layout: &Layout,
    task: &Task,
    index: &[Makers],
    clauses: &mut ClauseList,
) -> Result<(), Memory>
    requires horizon { 0 < layout.now.horizon }
    requires facts { layout.now.facts ≡ task.now.facts }
    requires index { IsIndex layout.now task.now index.now }
    ensures { OnOk result (clauses.new ≡ clauses.old ++ coded (frame_clauses (fact_at layout.now 0) (fact_at layout.now 1) (variable_at layout.now 0) (rows task.now) (range task.now.facts))) }
{
    for f in 0..task.facts() {
        let add = 2 * f;
        let delete = 2 * f + 1;
        let deleters = index[delete as usize].as_slice();
        add_frame(alloc, layout, add, delete, deleters, clauses)?;
        let adders = index[add as usize].as_slice();
        add_frame(alloc, layout, delete, add, adders, clauses)?;
    }
    Ok(())
}
