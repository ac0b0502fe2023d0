//! The check of weights.

ghost use Rattle.std.specs.Prelude.{◌≡◌, ℕ, ◌*◌, ◌<◌, ◌≤◌, [], true, length, take, sum_by, if◌then◌else◌, IfOk, OnOk, MatchOption};
ghost use Rattle.std.specs.List.{AllByRecursion};
ghost use Rattle.gt_core.specs.{Literal.is_in, Clauses.IsKnownClauses, Lawful.is_task, Task.initial_state, Task.action};
ghost use Rattle.implied_literals.specs.Tested.{ActionFits};
ghost use Rattle.never_defs.specs.{Sets.weight_of, Sets.weight_in, After.comes_perhaps, After.goes_surely};
ghost use Rattle.never_defs.specs.{Weights.PassesWeights, Weights.GoalPassesWeights};
ghost use Rattle.never_check.specs.{Rules.AreRules, Verdicts.Decides, WeightsVerdicts.AreSummed, WeightsVerdicts.IsWeighing, WeightsVerdicts.IsWeightsVerdict};

use crate::after::{comes_perhaps, goes_surely};
use crate::begin::begun;
use crate::refutes::refutes;
use crate::rules::{Nothing, Rules};
use crate::trail::Trail;
use containers::memory::Memory;
use gt_core::act::Act;
use gt_core::pairs::Pairs;
use gt_core::task::Task;
use std::alloc::Global;

/// What comes of the check of weights.
#[derive(Drop)]
pub enum WeightsVerdict {
    /// They pass.
    Accepted,
    /// What surely holds with the goal weighs no more than the initial state.
    Goal,
    /// The action with this number may raise the sum.
    Action(u32),
}

/// A weight that counts, or nothing.
fn counted(counts: bool, weight: u64) -> u64
    ensures { result ≡ (if counts then weight else 0) }
{
    if counts { weight } else { 0 }
}

/// The sums of the weights of the literals that may come true by an action, and of those that surely become false.
fn moved(trail: &Trail, act: &Act, weights: &[(u32, u64)]) -> (u64, u64)
    requires fits { ActionFits (2 * trail.now.facts) act.now }
    requires weights { AreSummed (2 * trail.now.facts) weights.now }
    ensures coming { result.0 ≡ weight_of (comes_perhaps (is_in trail.now.literals) act.now) weights.now }
    ensures going { result.1 ≡ weight_of (goes_surely (is_in trail.now.literals) act.now) weights.now }
{
    let mut coming = 0;
    let mut going = 0;
    for weight in weights {
        coming += counted(comes_perhaps(trail, act, weight.0), weight.1);
        going += counted(goes_surely(trail, act, weight.0), weight.1);
    }
    (coming, going)
}

/// The sums of the weights of the literals that hold in the initial state, and of those on a trail.
fn compared(task: &Task, trail: &Trail, weights: &[(u32, u64)]) -> (u64, u64)
    requires lawful { is_task task.now ≡ true }
    requires facts { trail.now.facts ≡ task.now.facts }
    requires weights { AreSummed (2 * task.now.facts) weights.now }
    ensures initial { result.0 ≡ weight_in (initial_state task.now) weights.now }
    ensures reached { result.1 ≡ weight_of (is_in trail.now.literals) weights.now }
{
    let mut first = 0;
    let mut reached = 0;
    for weight in weights {
        first += counted(task.holds(task.init(), weight.0), weight.1);
        reached += counted(trail.has(weight.0), weight.1);
    }
    (first, reached)
}

/// Whether an action passes. The trail is as it was.
fn passes(
    rules: &Rules,
    act: &Act,
    weights: &[(u32, u64)],
    trail: &mut Trail,
) -> Result<bool, Memory>
    requires weighing { IsWeighing rules.now weights.now trail.old }
    requires fits { ActionFits (2 * rules.now.known.now.facts) act.now }
    ensures kept { OnOk result (trail.new ≡ trail.old) }
    ensures told { IfOk result (Decides (PassesWeights rules.now.known.now.clauses weights.now act.now)) }
{
    let from = trail.len();
    if refutes(rules, act.pre(), trail)? {
        trail.go_back(from);
        return Ok(true);
    }
    let sums = moved(trail, act, weights);
    trail.go_back(from);
    Ok(sums.0 <= sums.1)
}

/// The first action that does not pass.
fn first_raising(
    rules: &Rules,
    task: &Task,
    weights: &[(u32, u64)],
    trail: &mut Trail,
) -> Result<Option<u32>, Memory>
    requires weighing { IsWeighing rules.now weights.now trail.old }
    requires lawful { is_task task.now ≡ true }
    requires facts { rules.now.known.now.facts ≡ task.now.facts }
    ensures { IfOk result (λ o. MatchOption o
        ((a : ℕ) → a < length task.now.actions → PassesWeights rules.now.known.now.clauses weights.now (action task.now a))
        (λ a. (a < length task.now.actions) × (PassesWeights rules.now.known.now.clauses weights.now (action task.now a) → ⊥))) }
{
    for number in 0..task.acts().len() as u32 {
        if !passes(rules, task.act(number), weights, trail)? {
            return Ok(Some(number));
        }
    }
    Ok(None)
}

/// Whether the goal passes. The trail may have grown.
fn goal_passes(
    rules: &Rules,
    task: &Task,
    weights: &[(u32, u64)],
    trail: &mut Trail,
) -> Result<bool, Memory>
    requires weighing { IsWeighing rules.now weights.now trail.old }
    requires lawful { is_task task.now ≡ true }
    requires facts { rules.now.known.now.facts ≡ task.now.facts }
    ensures front { OnOk result (take (length trail.old.literals) trail.new.literals ≡ trail.old.literals) }
    ensures facts { OnOk result (trail.new.facts ≡ trail.old.facts) }
    ensures told { IfOk result (Decides (GoalPassesWeights task.now rules.now.known.now.clauses weights.now)) }
{
    if task.hopeless() {
        return Ok(true);
    }
    if refutes(rules, task.goal(), trail)? {
        return Ok(true);
    }
    let sums = compared(task, trail, weights);
    Ok(sums.0 < sums.1)
}

/// The check of weights by rules of the known clauses alone.
fn check_plain(
    alloc: Global,
    plain: &Rules,
    task: &Task,
    weights: &[(u32, u64)],
) -> Result<WeightsVerdict, Memory>
    requires rules { AreRules plain.now }
    requires none { plain.now.clauses.now ≡ [] }
    requires lawful { is_task task.now ≡ true }
    requires facts { plain.now.known.now.facts ≡ task.now.facts }
    requires weights { AreSummed (2 * plain.now.known.now.facts) weights.now }
    ensures { IfOk result (IsWeightsVerdict task.now plain.now.known.now.clauses weights.now) }
{
    let Some(mut trail) = begun(alloc, plain)? else {
        return Ok(WeightsVerdict::Accepted);
    };
    let from = trail.len();
    if !goal_passes(plain, task, weights, &mut trail)? {
        return Ok(WeightsVerdict::Goal);
    }
    trail.go_back(from);
    match first_raising(plain, task, weights, &mut trail)? {
        None => Ok(WeightsVerdict::Accepted),
        Some(number) => Ok(WeightsVerdict::Action(number)),
    }
}

/// The check of weights as what no action of a task raises, under its known clauses.
pub fn check_weights(
    alloc: Global,
    task: &Task,
    known: &Pairs,
    weights: &[(u32, u64)],
) -> Result<WeightsVerdict, Memory>
    requires lawful { is_task task.now ≡ true }
    requires facts { known.now.facts ≡ task.now.facts }
    requires known { IsKnownClauses known.now }
    requires over { AllByRecursion (λ w. w.0 < 2 * task.now.facts) weights.now }
    requires total { sum_by (λ w. w.1) weights.now ≤ 9223372036854775807 }
    ensures { IfOk result (λ verdict. IsWeightsVerdict task.now known.now.clauses weights.now verdict) }
{
    let nothing = Nothing::new(alloc, task.facts())?;
    let plain = nothing.rules(known);
    let verdict = check_plain(alloc, &plain, task, weights)?;
    Ok(verdict)
}
