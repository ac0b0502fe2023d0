//! The formula of clauses, from the formula of horizon 1.

ghost use Rattle.std.specs.Prelude.{◌≡◌, ◌+◌, ◌*◌, ◌<◌, ◌≤◌, [], length, IfOk, OnOk};
ghost use Rattle.std.specs.List.{AllByRecursion};
ghost use Rattle.formula_defs.specs.Coded.{literals_in};
ghost use Rattle.never_form.specs.own.Parts.{ends, own_parts, joined, HasNumbers};
ghost use Rattle.never_form.specs.own.One.{IsOne};

use crate::adds::{add_clauses, add_rest, add_some};
use crate::cubes::{add_cube, add_cubes};
use clause_base::formula::Formula;
use containers::FlatLists;
use containers::memory::Memory;
use gt_core::task::Task;
use std::alloc::Global;

/// How many clauses the formula of horizon 1 has before those of its step.
fn ends_of(task: &Task) -> u32
    requires { ends task.now ≤ 1073741824 }
    ensures { result ≡ ends task.now }
{
    let goal = task.goal().len() as u32;
    let hopeless = if task.hopeless() { 1 } else { 0 };
    task.facts() + hopeless + goal
}

/// Adds what clauses say before the step, and the cubes after it. The first cube has this variable, and the facts have those before it.
fn add_parts(
    alloc: Global,
    task: &Task,
    first: u32,
    clauses: &FlatLists<u32>,
    formula: &mut Formula,
) -> Result<(), Memory>
    requires numbers { HasNumbers task.now first clauses.now }
    requires variables { formula.old.variables ≡ first + (length clauses.now + 1) }
    requires none { formula.old.clauses ≡ [] }
    ensures added { OnOk result (formula.new ≡ record formula.old { clauses = own_parts task.now first clauses.now }) }
    ensures few { OnOk result (length formula.new.clauses ≤ length clauses.now + length task.now.goal + literals_in clauses.now + 1) }
{
    let facts = task.facts();
    let after = 2 * (first - facts);
    add_clauses(alloc, 2 * (first - 2 * facts), clauses, formula)?;
    add_cube(alloc, after, first, task.goal(), formula)?;
    add_cubes(alloc, after, first + 1, clauses, formula)?;
    add_some(alloc, first, clauses.len() as u32 + 1, formula)
}

/// The formula of clauses, from the formula of horizon 1.
pub(crate) fn joined(
    alloc: Global,
    task: &Task,
    one: &Formula,
    clauses: &FlatLists<u32>,
) -> Result<Formula, Memory>
    requires one { IsOne task.now one.now clauses.now }
    requires over { AllByRecursion (AllByRecursion (λ l. l < 2 * task.now.facts)) clauses.now }
    ensures { IfOk result (λ formula. formula ≡ joined task.now one.now clauses.now) }
{
    // For the proof: the task is lawful.
    let _facts = task.facts();
    let first = one.variables();
    let mut formula = Formula::new(alloc, 1, first + (clauses.len() as u32 + 1));
    add_parts(alloc, task, first, clauses, &mut formula)?;
    add_rest(alloc, one, ends_of(task), &mut formula)?;
    Ok(formula)
}
