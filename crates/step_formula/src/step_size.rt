//! How many literals the clauses of one step have.
ghost use Rattle.std.specs.Prelude.{◌≡◌, ℕ, ◌+◌, ◌*◌, ◌≤◌, List, length, sum_by};
ghost use Rattle.formula_defs.specs.Coded.{literals_in};
ghost use Rattle.formula_defs.specs.Shift.{one_step};
ghost use Rattle.step_chains.specs.Chains.{AreChains};
ghost use Rattle.step_formula.specs.own.Sizes.{effects_size, preconditions_size, effects_in};

use crate::effect_size::effects_size;
use gt_core::task::Task;
use step_chains::Chains;

/// How many literals the clauses of all preconditions have.
fn preconditions_size(task: &Task) -> u64
    ensures size { result ≡ preconditions_size task.now.actions }
    ensures few { result ≤ 134217728 }
{
    let mut size = 0;
    for act in task.acts() {
        size += 2 * act.pre().len() as u64;
    }
    size
}

/// How many effects the actions have.
fn effect_count(task: &Task) -> u64
    ensures count { result ≡ effects_in task.now.actions }
    ensures few { result ≤ 67174400 }
{
    let mut count = 0;
    for act in task.acts() {
        count += act.effects().len() as u64;
    }
    count
}

/// How many literals the clauses of all effects have.
fn all_effects_size(task: &Task) -> u64
    ensures size { result ≡ sum_by (λ x. effects_size x.effects) task.now.actions }
    ensures few { result ≤ 8804682956800 }
{
    let facts = task.facts();
    let mut size = 0;
    for act in task.acts() {
        size += effects_size(facts, act.effects());
    }
    size
}

/// How many literals the clauses of one step with these chains have.
pub fn step_size(task: &Task, chains: &Chains) -> u64
    ensures size { (places : List (List ℕ × ℕ)) → AreChains task.now places chains.now → result ≡ literals_in (one_step task.now places) }
    ensures few { result ≤ 17592186044416 }
{
    let frames = 4 * u64::from(task.facts()) + effect_count(task);
    preconditions_size(task) + (all_effects_size(task) + frames) + chains.size()
}
