//! By what a goal is excluded without any certificate.

ghost use Rattle.std.specs.Prelude.{◌≡◌, ◌*◌, ◌<◌, ◌++◌, [], ◌∷◌, true, false, length, take, IfOk, OnOk, MatchOption};
ghost use Rattle.gt_core.specs.{Literal.is_in, Clauses.IsKnownClauses, Interference.Knows, Lawful.is_task, Task.initial_state};
ghost use Rattle.never_check.specs.{Follow.AreBelow, Rules.AreRules, Verdicts.IsBase, Verdicts.AreRefuted, Verdicts.HasLeast, Exclusions.IsFirstRefuted};
ghost use Rattle.never_check.specs.{Exclusions.IsExclusion};

use crate::begin::begun;
use crate::refutes::{are_refuted, refutes};
use crate::rules::{Nothing, Rules};
use crate::trail::Trail;
use containers::memory::Memory;
use gt_core::pairs::Pairs;
use gt_core::task::Task;
use never_defs::laws::laws;
use std::alloc::Global;

/// By what a goal is excluded; literals are of the goal.
#[derive(Drop)]
pub enum Exclusion {
    /// By nothing: the known clauses leave it open.
    Open,
    /// It is hopeless: it has a part that no state has.
    Hopeless,
    /// This literal is never true.
    One(u32),
    /// These two are never true together.
    Two(u32, u32),
}

/// The place of the first literal that is refuted together with those before it. The trail may have grown.
fn first_refuted(rules: &Rules, lits: &[u32], trail: &mut Trail) -> Result<Option<usize>, Memory>
    requires rules { AreRules rules.now }
    requires lits { AreBelow (2 * rules.now.known.now.facts) lits.now }
    requires base { IsBase rules.now trail.old }
    ensures facts { OnOk result (trail.new.facts ≡ trail.old.facts) }
    ensures front { OnOk result (take (length trail.old.literals) trail.new.literals ≡ trail.old.literals) }
    ensures told { IfOk result (λ o. MatchOption o
        (AreRefuted rules.now lits.now → ⊥)
        (IsFirstRefuted rules.now lits.now)) }
{
    for place in 0..lits.len() {
        if refutes(rules, &[lits[place]], trail)? {
            return Ok(Some(place));
        }
    }
    Ok(None)
}

/// By which of the literals before it a literal is refuted, where they are refuted with it but not without it; by none where it is
/// refuted by itself. The trail is as it was.
fn partner(
    rules: &Rules,
    before: &[u32],
    lit: u32,
    trail: &mut Trail,
) -> Result<Option<u32>, Memory>
    requires rules { AreRules rules.now }
    requires none { rules.now.clauses.now ≡ [] }
    requires before { AreBelow (2 * rules.now.known.now.facts) before.now }
    requires lit { lit < 2 * rules.now.known.now.facts }
    requires base { IsBase rules.now trail.old }
    requires least { HasLeast rules.now before.now }
    requires refuted { AreRefuted rules.now (before.now ++ lit ∷ []) }
    ensures { IfOk result (λ o. MatchOption o
        (AreRefuted rules.now (lit ∷ []))
        (λ other. (is_in before.now other ≡ true) × AreRefuted rules.now (other ∷ lit ∷ []))) }
{
    if are_refuted(rules, &[lit], trail)? {
        return Ok(None);
    }
    for other in before {
        if are_refuted(rules, &[*other, lit], trail)? {
            return Ok(Some(*other));
        }
    }
    unreachable!()
}

/// By what a goal is excluded that is not hopeless.
fn excluded_by(rules: &Rules, task: &Task, trail: &mut Trail) -> Result<Exclusion, Memory>
    requires rules { AreRules rules.now }
    requires none { rules.now.clauses.now ≡ [] }
    requires lawful { is_task task.now ≡ true }
    requires facts { rules.now.known.now.facts ≡ task.now.facts }
    requires hopeful { task.now.hopeless ≡ false }
    requires base { IsBase rules.now trail.old }
    ensures { IfOk result (λ by. IsExclusion task.now rules.now.known.now.clauses by) }
{
    let goal = task.goal();
    let from = trail.len();
    match first_refuted(rules, goal, trail)? {
        None => Ok(Exclusion::Open),
        Some(place) => {
            trail.go_back(from);
            let lit = goal[place];
            match partner(rules, &goal[..place], lit, trail)? {
                None => Ok(Exclusion::One(lit)),
                Some(other) => Ok(Exclusion::Two(other, lit)),
            }
        }
    }
}

/// By what the goal of a task is excluded without any certificate, under known clauses that hold in the initial state.
pub fn excluded_goal(alloc: Global, task: &Task, known: &Pairs) -> Result<Exclusion, Memory>
    requires lawful { is_task task.now ≡ true }
    requires facts { known.now.facts ≡ task.now.facts }
    requires known { IsKnownClauses known.now }
    requires initial { Knows known.now.clauses (initial_state task.now) }
    ensures { IfOk result (λ by. IsExclusion task.now known.now.clauses by) }
{
    laws();
    if task.hopeless() {
        return Ok(Exclusion::Hopeless);
    }
    let nothing = Nothing::new(alloc, task.facts())?;
    let rules = nothing.rules(known);
    let Some(mut trail) = begun(alloc, &rules)? else {
        unreachable!()
    };
    let by = excluded_by(&rules, task, &mut trail)?;
    Ok(by)
}
