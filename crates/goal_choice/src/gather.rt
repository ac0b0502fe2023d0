//! The supporters of each fact literal are gathered from a task.

ghost use Rattle.std.specs.Prelude.{◌≡◌, ℕ, ◌/◌, [], ◌∷◌, ◌++◌, true, false, length, map, slice_index_or, IfOk, OnOk};
ghost use Rattle.std.specs.List.{filter};
ghost use Rattle.goal_choice.specs.own.Search.{AreMarked};
ghost use Rattle.goal_choice.specs.own.Needs.{needs_of};
ghost use Rattle.gt_core.specs.Lawful.{is_conditional};

use crate::needs::Needs;
use clause_base::literal::Lit;
use containers::FlatLists;
use containers::memory::Memory;
use gt_core::act::Act;
use gt_core::task::Task;
use std::alloc::Global;
use step_formula::index::Makers;

/// How many numbers the lists have.
fn makers_in(index: &[Makers]) -> usize {
    let mut all: usize = 0;
    for makers in index {
        all = all.saturating_add(makers.as_slice().len());
    }
    all
}

/// The variables of literals.
fn variables_of(alloc: Global, lits: &[Lit]) -> Result<Vec<u32>, Memory>
    ensures { IfOk result (λ variables. variables.items ≡ map (λ l. l / 2) lits.now) }
{
    let mut variables = Vec::with_capacity(alloc, lits.len())?;
    for lit in lits {
        variables.push(lit.variable())?;
    }
    Ok(variables)
}

/// Adds the variables of a literal's effects to those of the literals before it, and whether each is at most the next one.
fn add_variables(
    alloc: Global,
    makers: &[Lit],
    lists: &mut FlatLists<u32>,
    rising: &mut Vec<bool>,
) -> Result<(), Memory>
    requires marked { AreMarked rising.old.items lists.old }
    ensures marked { OnOk result (AreMarked rising.new.items lists.new) }
    ensures lists { OnOk result (lists.new ≡ lists.old ++ map (λ l. l / 2) makers.now ∷ []) }
{
    let variables = variables_of(alloc, makers)?;
    rising.push(variables.is_sorted())?;
    lists.push(&variables)?;
    Ok(())
}

/// For each fact literal the variables of its effects, and whether each is at most the next one.
pub(crate) fn variables_by_literal(
    alloc: Global,
    index: &[Makers],
) -> Result<(FlatLists<u32>, Vec<bool>), Memory>
    ensures lists { IfOk result (λ p. p.0 ≡ map (map (λ l. l / 2)) index.now) }
    ensures marked { IfOk result (λ p. AreMarked p.1.items p.0) }
{
    let mut lists = FlatLists::with_room(alloc, index.len(), makers_in(index))?;
    let mut rising = Vec::with_capacity(alloc, index.len())?;
    for makers in index {
        add_variables(alloc, makers.as_slice(), &mut lists, &mut rising)?;
    }
    Ok((lists, rising))
}

/// How many literals the preconditions of actions have.
fn literals_before(acts: &[Act]) -> usize {
    let mut all: usize = 0;
    for act in acts {
        all = all.saturating_add(act.pre().len());
    }
    all
}

/// How many literals the conditions of the effects of an action have.
fn literals_of(act: &Act) -> usize {
    let mut all: usize = 0;
    for effect in act.effects() {
        all = all.saturating_add(effect.cond().len());
    }
    all
}

/// How many literals the conditions of the effects of actions have.
fn literals_in(acts: &[Act]) -> usize {
    let mut all: usize = 0;
    for act in acts {
        all = all.saturating_add(literals_of(act));
    }
    all
}

/// The precondition of each action.
fn preconditions_of(alloc: Global, acts: &[Act]) -> Result<FlatLists<u32>, Memory>
    ensures { IfOk result (λ lists. lists ≡ map (λ a. a.precondition) acts.now) }
{
    let mut lists = FlatLists::with_room(alloc, acts.len(), literals_before(acts))?;
    for act in acts {
        lists.push(act.pre())?;
    }
    Ok(lists)
}

/// Adds the conditions of the conditional effects of the action with a number, and for each this number.
fn add_conditions(
    act: &Act,
    number: usize,
    actions: &mut Vec<usize>,
    conditions: &mut FlatLists<u32>,
) -> Result<(), Memory>
    ensures actions { OnOk result (actions.new.items ≡ actions.old.items ++ map (λ e. number) (filter is_conditional act.now.effects)) }
    ensures conditions { OnOk result (conditions.new ≡ conditions.old ++ map (λ e. e.condition) (filter is_conditional act.now.effects)) }
{
    let effects = act.effects();
    for effect in effects {
        if effect.is_conditional() {
            actions.push(number)?;
            conditions.push(effect.cond())?;
        }
    }
    Ok(())
}

/// For each variable of the first step that is not a chain variable, what has to hold before its effects: of an action its
/// precondition, of a conditional effect that of its action and its condition.
pub(crate) fn needs_by_variable(alloc: Global, task: &Task) -> Result<Needs, Memory>
    ensures { IfOk result (λ needs. needs ≡ needs_of task.now) }
{
    let acts = task.acts();
    let count = task.conditional() as usize;
    let preconditions = preconditions_of(alloc, acts)?;
    let mut actions = Vec::with_capacity(alloc, count)?;
    let mut conditions = FlatLists::with_room(alloc, count, literals_in(acts))?;
    for number in 0..acts.len() {
        add_conditions(&acts[number], number, &mut actions, &mut conditions)?;
    }
    Ok(Needs {
        preconditions,
        actions,
        conditions,
    })
}
