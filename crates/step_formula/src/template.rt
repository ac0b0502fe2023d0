//! The clauses of one step.

ghost use Rattle.std.specs.Prelude.{◌≡◌, ℕ, ◌≤◌, List, length, IfOk};
ghost use Rattle.gt_core.specs.Lawful.{conditional_in};
ghost use Rattle.formula_defs.specs.Shift.{one_step};
ghost use Rattle.step_chains.specs.Chains.{AreChains};

use crate::effects::add_effects;
use crate::frames::add_frames;
use crate::index::index_of;
use crate::preconditions::add_preconditions;
use clause_base::clause_list::ClauseList;
use containers::memory::Memory;
use formula_defs::layout::Layout;
use gt_core::task::Task;
use std::alloc::Global;
use step_chains::Chains;

/// The layout of horizon 1.
pub fn one_layout(task: &Task, chains: u32) -> Layout
    requires { chains ≤ 1073741824 }
    ensures { result ≡ record { horizon = 1; actions = length task.now.actions; conditional = conditional_in task.now.actions; chains = chains; facts = task.now.facts } }
{
    Layout::new(
        1,
        task.acts().len() as u32,
        task.conditional(),
        chains,
        task.facts(),
    )
}

/// The clauses of one step with these chains, in the order of the definition: preconditions, effects, frames, chains.
pub fn one_step(alloc: Global, task: &Task, chains: &Chains) -> Result<ClauseList, Memory>
    requires actions { chains.now.actions ≡ length task.now.actions }
    ensures { IfOk result (λ clauses. (places : List (List ℕ × ℕ)) → AreChains task.now places chains.now → clauses ≡ one_step task.now places) }
{
    let layout = one_layout(task, chains.variables());
    let mut clauses = ClauseList::new(alloc);
    add_preconditions(&layout, task, &mut clauses)?;
    add_effects(alloc, &layout, task, &mut clauses)?;
    let index = index_of(alloc, &layout, task)?;
    add_frames(alloc, &layout, task, index.as_slice(), &mut clauses)?;
    chains.add_clauses(&layout, &mut clauses)?;
    Ok(clauses)
}
