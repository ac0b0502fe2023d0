//! The check of clauses that are read forward.

ghost use Rattle.std.specs.Prelude.{◌≡◌, ℕ, ◌*◌, ◌<◌, ◌≤◌, [], true, false, length, slice_index_or, IfOk, OnOk, MatchOption};
ghost use Rattle.std.specs.List.{AllByRecursion};
ghost use Rattle.containers.specs.Limits.{certificate_bytes};
ghost use Rattle.gt_core.specs.{Literal.is_in, Clauses.IsKnownClauses, Lawful.is_task, Task.initial_state, Task.action};
ghost use Rattle.never_defs.specs.{Sets.is_true_in, Sets.AreTrue, Forward.GoalPassesForward};
ghost use Rattle.never_check.specs.{Follow.AreBelow, Rules.AreRules, Given.AreGiven, Verdicts.IsBase, Verdicts.Decides, Verdicts.AreCasesRefuted};
ghost use Rattle.never_check.specs.{Verdicts.ArePassed, Verdicts.DoesNotPass, Verdicts.TellsPassed, Verdicts.IsForwardVerdict, Trials.IsBegun, Trials.IsAssumed};

use crate::begin::begun;
use crate::cases::{Held, Pair, refute_from};
use crate::given::Given;
use crate::refutes::refutes;
use crate::rules::Rules;
use crate::trail::Trail;
use crate::uses::uses_of;
use containers::FlatLists;
use containers::memory::Memory;
use gt_core::act::Act;
use gt_core::lits::opposite;
use gt_core::pairs::Pairs;
use gt_core::task::Task;
use std::alloc::Global;

/// What comes of the check of a forward set.
#[derive(Drop)]
pub enum ForwardVerdict {
    /// It passes.
    Accepted,
    /// The clause with this number is false in the initial state.
    Initial(u32),
    /// The goal does not contradict the clauses.
    Goal,
    /// At the clause with this number the action with this one does not pass.
    Pair(u32, u32),
}

/// Whether a clause is true in the initial state.
fn is_initial(task: &Task, clause: &[u32]) -> bool
    requires lawful { is_task task.now ≡ true }
    requires below { AreBelow (2 * task.now.facts) clause.now }
    ensures { result ≡ is_true_in (initial_state task.now) clause.now }
{
    for lit in clause {
        if task.holds(task.init(), *lit) {
            return true;
        }
    }
    false
}

/// The first clause that is false in the initial state.
pub fn first_false(task: &Task, clauses: &FlatLists<u32>) -> Option<usize>
    requires lawful { is_task task.now ≡ true }
    requires over { AllByRecursion (AreBelow (2 * task.now.facts)) clauses.now }
    ensures { MatchOption result
        (AreTrue (initial_state task.now) clauses.now)
        (λ k. (k < length clauses.now) × (is_true_in (initial_state task.now) (slice_index_or clauses.now k []) ≡ false)) }
{
    for number in 0..clauses.len() {
        if !is_initial(task, clauses.at(number)) {
            return Some(number);
        }
    }
    None
}

/// An action that is tried, and what literals are followed by.
#[derive(Drop)]
pub struct Trial<'a> {
    pub alloc: Global,
    pub rules: &'a Rules<'a>,
    pub act: &'a Act,
}

/// Whether each case of a clause is refuted, over what was assumed. The trail is as it was.
fn refute_pair(trial: &Trial, number: u32, trail: &mut Trail) -> Result<bool, Memory>
    requires assumed { IsAssumed trial.now trail.old }
    requires number { number < length trial.now.rules.now.clauses.now }
    ensures kept { OnOk result (trail.new ≡ trail.old) }
    ensures told { IfOk result (Decides (AreCasesRefuted trial.now.rules.now trial.now.act.now number)) }
{
    let from = trail.len();
    let more = FlatLists::new(trial.alloc);
    let pair = Pair {
        alloc: trial.alloc,
        rules: trial.rules,
        act: trial.act,
        clause: trial.rules.clauses.at(number as usize),
    };
    let held = Held { more: &more, from };
    let refuted = refute_from(&pair, 0, &held, trail)?;
    trail.go_back(from);
    Ok(refuted)
}

/// The number of a clause with a literal at which an action does not pass.
fn check_uses(trial: &Trial, lit: u32, trail: &mut Trail) -> Result<Option<u32>, Memory>
    requires assumed { IsAssumed trial.now trail.old }
    requires lit { lit < 2 * trial.now.rules.now.known.now.facts }
    ensures kept { OnOk result (trail.new ≡ trail.old) }
    ensures told { IfOk result (λ o. MatchOption o
        ((k : ℕ) → is_in (slice_index_or trial.now.rules.now.uses.now lit []) k ≡ true → AreCasesRefuted trial.now.rules.now trial.now.act.now k)
        (λ k. (k < length trial.now.rules.now.clauses.now)
        × (is_in (slice_index_or trial.now.rules.now.uses.now lit []) k ≡ true)
        × (AreCasesRefuted trial.now.rules.now trial.now.act.now k → ⊥))) }
{
    for number in trial.rules.uses[lit as usize].as_slice() {
        if !refute_pair(trial, *number, trail)? {
            return Ok(Some(*number));
        }
    }
    Ok(None)
}

/// The number of a clause at which an action does not pass, over a trail that has its precondition.
fn check_effects(trial: &Trial, trail: &mut Trail) -> Result<Option<u32>, Memory>
    requires { IsAssumed trial.now trail.old }
    ensures kept { OnOk result (trail.new ≡ trail.old) }
    ensures told { IfOk result (TellsPassed trial.now.rules.now trial.now.act.now) }
{
    for effect in trial.act.effects() {
        let found = check_uses(trial, opposite(effect.lit()), trail)?;
        if found.is_some() {
            return Ok(found);
        }
    }
    Ok(None)
}

/// The same, where the precondition is assumed first. The trail is as it was.
fn check_action(trial: &Trial, trail: &mut Trail) -> Result<Option<u32>, Memory>
    requires { IsBegun trial.now trail.old }
    ensures kept { OnOk result (trail.new ≡ trail.old) }
    ensures told { IfOk result (TellsPassed trial.now.rules.now trial.now.act.now) }
{
    let from = trail.len();
    if refutes(trial.rules, trial.act.pre(), trail)? {
        trail.go_back(from);
        return Ok(None);
    }
    let found = check_effects(trial, trail)?;
    trail.go_back(from);
    Ok(found)
}

/// A clause and an action that does not pass at it.
fn check_actions<'a>(
    alloc: Global,
    rules: &'a Rules<'a>,
    task: &'a Task,
    trail: &mut Trail,
) -> Result<Option<(u32, u32)>, Memory>
    requires rules { AreRules rules.now }
    requires lawful { is_task task.now ≡ true }
    requires facts { rules.now.known.now.facts ≡ task.now.facts }
    requires base { IsBase rules.now trail.old }
    ensures { IfOk result (λ o. MatchOption o
        ((a : ℕ) → a < length task.now.actions → ArePassed rules.now (action task.now a))
        (λ p. (p.1 < length task.now.actions) × DoesNotPass rules.now (action task.now p.1) p.0)) }
{
    for number in 0..task.acts().len() as u32 {
        let act = task.act(number);
        match check_action(&Trial { alloc, rules, act }, trail)? {
            None => continue,
            Some(clause) => return Ok(Some((clause, number))),
        }
    }
    Ok(None)
}

/// Whether the goal passes. The trail is as it was.
fn check_goal(rules: &Rules, task: &Task, trail: &mut Trail) -> Result<bool, Memory>
    requires rules { AreRules rules.now }
    requires lawful { is_task task.now ≡ true }
    requires facts { rules.now.known.now.facts ≡ task.now.facts }
    requires base { IsBase rules.now trail.old }
    ensures kept { OnOk result (trail.new ≡ trail.old) }
    ensures told { IfOk result (Decides (GoalPassesForward task.now rules.now.known.now.clauses rules.now.clauses.now)) }
{
    if task.hopeless() {
        return Ok(true);
    }
    let from = trail.len();
    let refuted = refutes(rules, task.goal(), trail)?;
    trail.go_back(from);
    Ok(refuted)
}

/// The check of clauses that are true in the initial state.
fn check_kept(alloc: Global, given: &Given) -> Result<ForwardVerdict, Memory>
    requires given { AreGiven given.now }
    requires initial { AreTrue (initial_state given.now.task.now) given.now.clauses.now }
    ensures { IfOk result (IsForwardVerdict given.now.task.now given.now.known.now.clauses given.now.clauses.now) }
{
    let uses = uses_of(alloc, given.task.facts(), given.clauses)?;
    let rules = Rules {
        known: given.known,
        clauses: given.clauses,
        uses: &uses,
    };
    let Some(mut trail) = begun(alloc, &rules)? else {
        return Ok(ForwardVerdict::Accepted);
    };
    if !check_goal(&rules, given.task, &mut trail)? {
        return Ok(ForwardVerdict::Goal);
    }
    match check_actions(alloc, &rules, given.task, &mut trail)? {
        None => Ok(ForwardVerdict::Accepted),
        Some((clause, action)) => Ok(ForwardVerdict::Pair(clause, action)),
    }
}

/// The check of clauses as a forward set of a task, under its known clauses.
pub fn check_forward(
    alloc: Global,
    task: &Task,
    known: &Pairs,
    clauses: &FlatLists<u32>,
) -> Result<ForwardVerdict, Memory>
    requires lawful { is_task task.now ≡ true }
    requires facts { known.now.facts ≡ task.now.facts }
    requires known { IsKnownClauses known.now }
    requires few { length clauses.now ≤ certificate_bytes }
    requires over { AllByRecursion (AreBelow (2 * task.now.facts)) clauses.now }
    ensures { IfOk result (λ verdict. IsForwardVerdict task.now known.now.clauses clauses.now verdict) }
{
    if let Some(number) = first_false(task, clauses) {
        return Ok(ForwardVerdict::Initial(number as u32));
    }
    let given = Given {
        task,
        known,
        clauses,
    };
    let verdict = check_kept(alloc, &given)?;
    Ok(verdict)
}
