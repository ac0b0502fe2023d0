//! The formula of a horizon from the clauses of one step and of one time.

ghost use Rattle.std.specs.Prelude.{◌≡◌, ◌+◌, ◌*◌, ◌≤◌, [], ◌∷◌, ◌++◌, map, length, if◌then◌else◌, OnOk, IfOk};
ghost use Rattle.std.specs.List.{flat_map};
ghost use Rattle.gt_core.specs.Literal.{range};
ghost use Rattle.formula_defs.specs.Layout.{fact_at, variables};
ghost use Rattle.formula_defs.specs.Clause.{code};
ghost use Rattle.formula_defs.specs.Formula.{literal_over, initial_clauses};
ghost use Rattle.formula_defs.specs.Coded.{coded};
ghost use Rattle.clause_base.specs.Repeats.{repeated, variables_of};
ghost use Rattle.step_encoding.specs.own.Parts.{step_part, time_part, StepsFit, TimesFit};
ghost use Rattle.horizon_rates.specs.Limits.{last_horizon};

use crate::ends::{add_goal, add_hopeless, add_initial};
use clause_base::clause_list::ClauseList;
use clause_base::formula::Formula;
use clause_base::repeated::Repeated;
use clause_base::shared_list::SharedList;
use containers::memory::Memory;
use formula_defs::layout::Layout;
use gt_core::task::Task;
use std::alloc::Global;

/// The formula without clauses, with room for those of its ends.
fn empty_formula(alloc: Global, task: &Task, layout: &Layout) -> Result<Formula, Memory>
    requires few { task.now.facts + 1 + length task.now.goal ≤ 1073741824 }
    ensures { IfOk result (λ formula. formula ≡ record { name = layout.now.horizon; variables = variables layout.now; clauses = [] }) }
{
    let mut formula = Formula::new(alloc, layout.horizon, layout.variables());
    let ends = task.facts() as usize + 1 + task.goal().len();
    formula.reserve(ends, ends)?;
    Ok(formula)
}

/// The clauses of all steps and of all times of a layout, by those of one step and of one time.
fn repeated(
    alloc: Global,
    layout: &Layout,
    step: &SharedList,
    known: &SharedList,
) -> Result<Repeated, Memory>
    requires steps_fit { StepsFit layout.now step.now (variables layout.now) }
    requires times_fit { TimesFit layout.now known.now (variables layout.now) }
    requires few { layout.now.horizon * length step.now + (layout.now.horizon + 1) * length known.now ≤ 1073741824 }
    ensures clauses { IfOk result (λ part. repeated part ≡ flat_map (step_part layout.now step.now) (range layout.now.horizon) ++ flat_map (time_part layout.now known.now) (range (layout.now.horizon + 1))) }
    ensures long { IfOk result (λ part. length (repeated part) ≡ layout.now.horizon * length step.now + (layout.now.horizon + 1) * length known.now) }
    ensures variables { IfOk result (λ part. variables_of part ≡ variables layout.now) }
{
    // For the proof: the layout is lawful, so what it numbers are variables of the formula.
    let _all = layout.variables();
    let time = known.copy(alloc)?;
    if layout.horizon == 0 {
        let none = SharedList::own(ClauseList::new(alloc));
        return Ok(Repeated::sharing(0, 0, layout.facts, none, time));
    }
    let step = step.copy(alloc)?;
    let width = layout.actions + layout.conditional + layout.chains;
    Ok(Repeated::sharing(layout.horizon, width, layout.facts, step, time))
}

/// The formula of a layout's horizon, from the clauses of one step and of one time, whatever chains the step has. It
/// copies none of these where they are in memory that is shared.
pub fn formula(
    alloc: Global,
    task: &Task,
    layout: &Layout,
    step: &SharedList,
    known: &SharedList,
) -> Result<Formula, Memory>
    requires horizon { layout.now.horizon ≤ last_horizon }
    requires facts { layout.now.facts ≡ task.now.facts }
    requires steps_fit { StepsFit layout.now step.now (variables layout.now) }
    requires times_fit { TimesFit layout.now known.now (variables layout.now) }
    requires few { task.now.facts + 1 + length task.now.goal + layout.now.horizon * length step.now + (layout.now.horizon + 1) * length known.now ≤ 1073741824 }
    ensures { IfOk result (λ formula. formula ≡ record {
      name = layout.now.horizon;
      variables = variables layout.now;
      clauses = coded (initial_clauses layout.now task.now)
          ++ (((if task.now.hopeless then [] ∷ [] else []) ++ map (λ l. code (literal_over (fact_at layout.now layout.now.horizon) l) ∷ []) task.now.goal)
          ++ (flat_map (step_part layout.now step.now) (range layout.now.horizon) ++ flat_map (time_part layout.now known.now) (range (layout.now.horizon + 1))));
    }) }
{
    let mut formula = empty_formula(alloc, task, layout)?;
    add_initial(task, layout, &mut formula)?;
    add_hopeless(task, &mut formula)?;
    add_goal(task, layout, &mut formula)?;
    let part = repeated(alloc, layout, step, known)?;
    formula.repeat(alloc, part)
}
