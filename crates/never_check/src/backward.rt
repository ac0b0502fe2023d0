//! The check of clauses that are read backward.

ghost use Rattle.std.specs.Prelude.{◌≡◌, ℕ, ◌*◌, ◌<◌, ◌≤◌, ◌++◌, [], map, true, length, take, slice_index_or, IfOk, OnOk, MatchOption};
ghost use Rattle.std.specs.List.{AllByRecursion};
ghost use Rattle.containers.specs.Limits.{certificate_bytes};
ghost use Rattle.gt_core.specs.{Literal.opposite, Literal.is_in, Clauses.IsKnownClauses, Lawful.is_task, Task.initial_state, Task.action};
ghost use Rattle.implied_literals.specs.Tested.{ActionFits};
ghost use Rattle.never_defs.specs.{Sets.AreTrue, Propagation.IsRefuted, After.holds_surely, Backward.GoalPassesBackward};
ghost use Rattle.never_check.specs.{Follow.AreBelow, Rules.AreRules, Given.AreGiven, Given.AreGivenPlain, Verdicts.IsBase, Verdicts.IsLeast};
ghost use Rattle.never_check.specs.{Verdicts.AreRefuted, Verdicts.AllOrOne, Verdicts.Decides, Steps.AreSides, Steps.IsBegunStep, Steps.IsAssumedStep, Steps.AreSame};
ghost use Rattle.never_check.specs.{BackwardVerdicts.IsStepRefuted, BackwardVerdicts.ArePassedBackward, BackwardVerdicts.FailsBackward, BackwardVerdicts.TellsStep};
ghost use Rattle.never_check.specs.{BackwardVerdicts.AllStepsPass, BackwardVerdicts.StepFails, BackwardVerdicts.IsBackwardVerdict};

use crate::after::sure_after;
use crate::begin::begun;
use crate::forward::first_false;
use crate::given::Given;
use crate::refutes::{are_refuted, refutes};
use crate::rules::{Nothing, Rules};
use crate::settle::turned;
use crate::trail::Trail;
use crate::uses::uses_of;
use containers::FlatLists;
use containers::memory::Memory;
use gt_core::act::Act;
use gt_core::pairs::Pairs;
use gt_core::task::Task;
use std::alloc::Global;

/// What comes of the check of a backward set.
#[derive(Drop)]
pub enum BackwardVerdict {
    /// It passes.
    Accepted,
    /// Each clause is true in the initial state.
    Initial,
    /// The clause with this number may be false where the goal holds.
    Goal(u32),
    /// At the clause with this number the action with this one does not pass.
    Pair(u32, u32),
}

/// The first clause that may be false where the goal holds, over a trail that has the goal. The trail is as it was.
fn first_open(
    alloc: Global,
    plain: &Rules,
    given: &Given,
    trail: &mut Trail,
) -> Result<Option<u32>, Memory>
    requires goal { IsLeast plain.now given.now.task.now.goal trail.old }
    requires given { AreGivenPlain plain.now given.now }
    ensures kept { OnOk result (trail.new ≡ trail.old) }
    ensures told { IfOk result (AllOrOne (λ c. AreRefuted plain.now (given.now.task.now.goal ++ map opposite c)) given.now.clauses.now) }
{
    for number in 0..given.clauses.len() {
        let lits = turned(alloc, given.clauses.at(number))?;
        if !are_refuted(plain, &lits, trail)? {
            return Ok(Some(number as u32));
        }
    }
    Ok(None)
}

/// The first clause at which the goal does not pass. The trail may have grown.
fn check_goal(
    alloc: Global,
    plain: &Rules,
    given: &Given,
    trail: &mut Trail,
) -> Result<Option<u32>, Memory>
    requires given { AreGivenPlain plain.now given.now }
    requires base { IsBase plain.now trail.old }
    ensures front { OnOk result (take (length trail.old.literals) trail.new.literals ≡ trail.old.literals) }
    ensures facts { OnOk result (trail.new.facts ≡ trail.old.facts) }
    ensures told { IfOk result (AllOrOne (GoalPassesBackward given.now.task.now plain.now.known.now.clauses) given.now.clauses.now) }
{
    if given.task.hopeless() {
        return Ok(None);
    }
    if refutes(plain, given.task.goal(), trail)? {
        return Ok(None);
    }
    let open = first_open(alloc, plain, given, trail)?;
    Ok(open)
}

/// Whether what surely holds after an action is refuted, where the literals of a trail hold before it. The other trail is as it was.
fn refute_after(
    alloc: Global,
    whole: &Rules,
    act: &Act,
    before: &Trail,
    after: &mut Trail,
) -> Result<bool, Memory>
    requires rules { AreRules whole.now }
    requires facts { before.now.facts ≡ whole.now.known.now.facts }
    requires fits { ActionFits (2 * whole.now.known.now.facts) act.now }
    requires base { IsBase whole.now after.old }
    ensures kept { OnOk result (after.new ≡ after.old) }
    ensures told { IfOk result (Decides (IsRefuted whole.now.known.now.clauses whole.now.clauses.now (holds_surely (is_in before.now.literals) act.now))) }
{
    let sure = sure_after(alloc, before, act)?;
    let refuted = are_refuted(whole, &sure, after)?;
    Ok(refuted)
}

/// By what literals are followed: before a step by the known clauses alone, after it by the others too.
#[derive(Drop)]
pub struct Sides<'a> {
    pub plain: &'a Rules<'a>,
    pub whole: &'a Rules<'a>,
}

/// An action that is tried, and what literals are followed by on both sides of it.
#[derive(Drop)]
pub struct Step<'a> {
    pub alloc: Global,
    pub sides: &'a Sides<'a>,
    pub act: &'a Act,
}

/// Whether an action passes at a clause, over a trail that has its precondition. Both trails are as they were.
fn refute_step(
    step: &Step,
    number: u32,
    before: &mut Trail,
    after: &mut Trail,
) -> Result<bool, Memory>
    requires assumed { IsAssumedStep step.now before.old after.old }
    requires number { number < length step.now.sides.now.whole.now.clauses.now }
    ensures before { OnOk result (before.new ≡ before.old) }
    ensures after { OnOk result (after.new ≡ after.old) }
    ensures told { IfOk result (Decides (IsStepRefuted step.now.sides.now.whole.now step.now.act.now number)) }
{
    let from = before.len();
    let whole = step.sides.whole;
    let lits = turned(step.alloc, whole.clauses.at(number as usize))?;
    if refutes(step.sides.plain, &lits, before)? {
        before.go_back(from);
        return Ok(true);
    }
    let refuted = refute_after(step.alloc, whole, step.act, before, after)?;
    before.go_back(from);
    Ok(refuted)
}

/// The number of a clause with a literal at which an action does not pass.
fn check_uses(
    step: &Step,
    lit: u32,
    before: &mut Trail,
    after: &mut Trail,
) -> Result<Option<u32>, Memory>
    requires assumed { IsAssumedStep step.now before.old after.old }
    requires lit { lit < 2 * step.now.sides.now.whole.now.known.now.facts }
    ensures before { OnOk result (before.new ≡ before.old) }
    ensures after { OnOk result (after.new ≡ after.old) }
    ensures told { IfOk result (λ o. MatchOption o
        ((k : ℕ) → is_in (slice_index_or step.now.sides.now.whole.now.uses.now lit []) k ≡ true
        → IsStepRefuted step.now.sides.now.whole.now step.now.act.now k)
        (λ k. (k < length step.now.sides.now.whole.now.clauses.now)
        × (is_in (slice_index_or step.now.sides.now.whole.now.uses.now lit []) k ≡ true)
        × (IsStepRefuted step.now.sides.now.whole.now step.now.act.now k → ⊥))) }
{
    for number in step.sides.whole.uses[lit as usize].as_slice() {
        if !refute_step(step, *number, before, after)? {
            return Ok(Some(*number));
        }
    }
    Ok(None)
}

/// The number of a clause at which an action does not pass, over a trail that has its precondition.
fn check_effects(step: &Step, before: &mut Trail, after: &mut Trail) -> Result<Option<u32>, Memory>
    requires { IsAssumedStep step.now before.old after.old }
    ensures kept { OnOk result (AreSame before.new after.new before.old after.old) }
    ensures told { IfOk result (TellsStep step.now.sides.now.whole.now step.now.act.now) }
{
    for effect in step.act.effects() {
        let found = check_uses(step, effect.lit(), before, after)?;
        if found.is_some() {
            return Ok(found);
        }
    }
    Ok(None)
}

/// The same, where the precondition is assumed first. Both trails are as they were.
fn check_action(step: &Step, before: &mut Trail, after: &mut Trail) -> Result<Option<u32>, Memory>
    requires { IsBegunStep step.now before.old after.old }
    ensures kept { OnOk result (AreSame before.new after.new before.old after.old) }
    ensures told { IfOk result (TellsStep step.now.sides.now.whole.now step.now.act.now) }
{
    let from = before.len();
    if refutes(step.sides.plain, step.act.pre(), before)? {
        before.go_back(from);
        return Ok(None);
    }
    let found = check_effects(step, before, after)?;
    before.go_back(from);
    Ok(found)
}

/// A clause and an action that does not pass at it.
fn check_actions<'a>(
    alloc: Global,
    sides: &'a Sides<'a>,
    task: &'a Task,
    before: &mut Trail,
    after: &mut Trail,
) -> Result<Option<(u32, u32)>, Memory>
    requires sides { AreSides sides.now }
    requires lawful { is_task task.now ≡ true }
    requires facts { sides.now.whole.now.known.now.facts ≡ task.now.facts }
    requires plain { IsBase sides.now.plain.now before.old }
    requires base { IsBase sides.now.whole.now after.old }
    ensures { IfOk result (λ o. MatchOption o
        ((a : ℕ) → a < length task.now.actions → ArePassedBackward sides.now.whole.now (action task.now a))
        (λ p. (p.1 < length task.now.actions) × FailsBackward sides.now.whole.now (action task.now p.1) p.0)) }
{
    for number in 0..task.acts().len() as u32 {
        let act = task.act(number);
        match check_action(&Step { alloc, sides, act }, before, after)? {
            None => continue,
            Some(clause) => return Ok(Some((clause, number))),
        }
    }
    Ok(None)
}

/// The same, where the trail of what holds after a step is begun here.
fn check_steps(
    alloc: Global,
    plain: &Rules,
    given: &Given,
    before: &mut Trail,
) -> Result<Option<(u32, u32)>, Memory>
    requires given { AreGivenPlain plain.now given.now }
    requires base { IsBase plain.now before.old }
    ensures { IfOk result (λ o. MatchOption o
        (AllStepsPass given.now.task.now plain.now.known.now.clauses given.now.clauses.now)
        (StepFails given.now.task.now plain.now.known.now.clauses given.now.clauses.now)) }
{
    let uses = uses_of(alloc, given.task.facts(), given.clauses)?;
    let whole = Rules {
        known: plain.known,
        clauses: given.clauses,
        uses: &uses,
    };
    let Some(mut after) = begun(alloc, &whole)? else {
        return Ok(None);
    };
    let sides = Sides {
        plain,
        whole: &whole,
    };
    let found = check_actions(alloc, &sides, given.task, before, &mut after)?;
    Ok(found)
}

/// The check of clauses of which one is false in the initial state, by rules of the known clauses alone.
fn check_plain(alloc: Global, plain: &Rules, given: &Given) -> Result<BackwardVerdict, Memory>
    requires given { AreGivenPlain plain.now given.now }
    requires initial { AreTrue (initial_state given.now.task.now) given.now.clauses.now → ⊥ }
    ensures { IfOk result (IsBackwardVerdict given.now.task.now plain.now.known.now.clauses given.now.clauses.now) }
{
    let Some(mut trail) = begun(alloc, plain)? else {
        return Ok(BackwardVerdict::Accepted);
    };
    let from = trail.len();
    let open = check_goal(alloc, plain, given, &mut trail)?;
    if let Some(number) = open {
        return Ok(BackwardVerdict::Goal(number));
    }
    trail.go_back(from);
    match check_steps(alloc, plain, given, &mut trail)? {
        None => Ok(BackwardVerdict::Accepted),
        Some((clause, action)) => Ok(BackwardVerdict::Pair(clause, action)),
    }
}

/// The same, where these rules are made here.
fn check_kept(alloc: Global, given: &Given) -> Result<BackwardVerdict, Memory>
    requires given { AreGiven given.now }
    requires initial { AreTrue (initial_state given.now.task.now) given.now.clauses.now → ⊥ }
    ensures { IfOk result (IsBackwardVerdict given.now.task.now given.now.known.now.clauses given.now.clauses.now) }
{
    let nothing = Nothing::new(alloc, given.task.facts())?;
    let plain = nothing.rules(given.known);
    let verdict = check_plain(alloc, &plain, given)?;
    Ok(verdict)
}

/// The check of clauses as a backward set of a task, under its known clauses.
pub fn check_backward(
    alloc: Global,
    task: &Task,
    known: &Pairs,
    clauses: &FlatLists<u32>,
) -> Result<BackwardVerdict, Memory>
    requires lawful { is_task task.now ≡ true }
    requires facts { known.now.facts ≡ task.now.facts }
    requires known { IsKnownClauses known.now }
    requires few { length clauses.now ≤ certificate_bytes }
    requires over { AllByRecursion (AreBelow (2 * task.now.facts)) clauses.now }
    ensures { IfOk result (λ verdict. IsBackwardVerdict task.now known.now.clauses clauses.now verdict) }
{
    if first_false(task, clauses).is_none() {
        return Ok(BackwardVerdict::Initial);
    }
    let given = Given {
        task,
        known,
        clauses,
    };
    let verdict = check_kept(alloc, &given)?;
    Ok(verdict)
}
