//! The state after an action, and whether a state is a goal, where states are rows.

ghost use Rattle.std.specs.Prelude.{◌≡◌, ℕ, ◌+◌, ◌*◌, ◌/◌, ◌<◌, ◌≤◌, length, not, true, false, ◌&&◌, ◌||◌};
ghost use Rattle.std.specs.List.{AllByRecursion, list_any};
ghost use Rattle.bit_sets.specs.Rows.{row_has};
ghost use Rattle.gt_core.specs.Literal.{is_in, state_of, all_hold};
ghost use Rattle.gt_core.specs.Task.{action, precondition};
ghost use Rattle.gt_core.specs.Active.{is_active, EffectWithin};
ghost use Rattle.gt_core.specs.Execution.{IsGoal, next_values};
ghost use Rattle.state_store.specs.Packed.{unpacked, IsPacked};
ghost use Rattle.successors.specs.Moves.{IsMoves};
ghost use Rattle.successors.specs.own.After.{after_effects};

use crate::moves::Moves;
use crate::row::all_hold;
use bit_sets::flat::{clear_bit, set_bit};
use gt_core::eff::Eff;
use gt_core::task::Task;

/// Whether a state is a goal.
pub fn is_goal(task: &Task, row: &[u64]) -> bool
    requires { IsPacked task.now.facts row.now }
    ensures goal { result ≡ true → IsGoal task.now (state_of (unpacked task.now.facts row.now)) }
    ensures none { result ≡ false → IsGoal task.now (state_of (unpacked task.now.facts row.now)) → ⊥ }
{
    // For the proof: the task is lawful.
    let _facts = task.facts();
    all_hold(row, task.goal()) && !task.hopeless()
}

/// Takes an active delete's fact from the state after.
#[inline(always)]
fn take_delete(row: &[u64], effect: &Eff, into: &mut Vec<u64>)
    requires within { effect.now.literal / 2 < 64 * length into.old.items }
    requires condition { AllByRecursion (λ l. l / 2 < 64 * length row.now) effect.now.condition }
    ensures has { (f : ℕ) → row_has into.new.items f ≡ (row_has into.old.items f && not (is_active (row_has row.now) (2 * f + 1) effect.now)) }
    ensures long { length into.new.items ≡ length into.old.items }
{
    if effect.lit() % 2 == 1 && all_hold(row, effect.cond()) {
        clear_bit(into, effect.lit() / 2);
    }
}

/// Puts an active add's fact into the state after.
#[inline(always)]
fn take_add(row: &[u64], effect: &Eff, into: &mut Vec<u64>)
    requires within { effect.now.literal / 2 < 64 * length into.old.items }
    requires condition { AllByRecursion (λ l. l / 2 < 64 * length row.now) effect.now.condition }
    ensures has { (f : ℕ) → row_has into.new.items f ≡ (is_active (row_has row.now) (2 * f) effect.now || row_has into.old.items f) }
    ensures long { length into.new.items ≡ length into.old.items }
{
    if effect.lit() % 2 == 0 && all_hold(row, effect.cond()) {
        set_bit(into, effect.lit() / 2);
    }
}

fn take_deletes(row: &[u64], effects: &[Eff], into: &mut Vec<u64>)
    requires same { length into.old.items ≡ length row.now }
    requires within { AllByRecursion (EffectWithin (64 * length row.now)) effects.now }
    ensures has { (f : ℕ) → row_has into.new.items f ≡ (row_has into.old.items f && not (list_any (is_active (row_has row.now) (2 * f + 1)) effects.now)) }
    ensures long { length into.new.items ≡ length into.old.items }
{
    for effect in effects {
        take_delete(row, effect, into);
    }
}

fn take_adds(row: &[u64], effects: &[Eff], into: &mut Vec<u64>)
    requires same { length into.old.items ≡ length row.now }
    requires within { AllByRecursion (EffectWithin (64 * length row.now)) effects.now }
    ensures has { (f : ℕ) → row_has into.new.items f ≡ (list_any (is_active (row_has row.now) (2 * f)) effects.now || row_has into.old.items f) }
    ensures long { length into.new.items ≡ length into.old.items }
{
    for effect in effects {
        take_add(row, effect, into);
    }
}

/// Makes a row the same as another one.
pub fn copy(row: &[u64], into: &mut Vec<u64>)
    requires { length into.old.items ≡ length row.now }
    ensures { into.new.items ≡ row.now }
{
    into.as_mut_slice().copy_from_slice(row);
}

/// Deletes facts from a state.
#[inline(always)]
fn clear_all(facts: &[u32], into: &mut Vec<u64>)
    requires { AllByRecursion (λ f. f < 64 * length into.old.items) facts.now }
    ensures has { (f : ℕ) → row_has into.new.items f ≡ (row_has into.old.items f && not (is_in facts.now f)) }
    ensures long { length into.new.items ≡ length into.old.items }
{
    for fact in facts {
        clear_bit(into, *fact);
    }
}

/// Adds facts to a state.
#[inline(always)]
fn set_all(facts: &[u32], into: &mut Vec<u64>)
    requires { AllByRecursion (λ f. f < 64 * length into.old.items) facts.now }
    ensures has { (f : ℕ) → row_has into.new.items f ≡ (is_in facts.now f || row_has into.old.items f) }
    ensures long { length into.new.items ≡ length into.old.items }
{
    for fact in facts {
        set_bit(into, *fact);
    }
}

/// The state after an action that can run, one of whose effects has a condition: each effect is looked at.
fn after_each(row: &[u64], effects: &[Eff], into: &mut Vec<u64>)
    requires into { length into.old.items ≡ length row.now }
    requires within { AllByRecursion (EffectWithin (64 * length row.now)) effects.now }
    ensures has { (f : ℕ) → row_has into.new.items f ≡ after_effects (row_has row.now) effects.now f }
    ensures long { length into.new.items ≡ length into.old.items }
{
    copy(row, into);
    take_deletes(row, effects, into);
    take_adds(row, effects, into);
}

/// The state after an action that can run, none of whose effects has a condition.
#[inline(always)]
fn after_facts(row: &[u64], deletes: &[u32], adds: &[u32], into: &mut Vec<u64>)
    requires into { length into.old.items ≡ length row.now }
    requires deletes { AllByRecursion (λ f. f < 64 * length row.now) deletes.now }
    requires adds { AllByRecursion (λ f. f < 64 * length row.now) adds.now }
    ensures has { (f : ℕ) → row_has into.new.items f ≡ (is_in adds.now f || (row_has row.now f && not (is_in deletes.now f))) }
    ensures long { length into.new.items ≡ length into.old.items }
{
    copy(row, into);
    clear_all(deletes, into);
    set_all(adds, into);
}

/// The state after an action that can run.
#[inline(always)]
fn after(task: &Task, moves: &Moves, row: &[u64], act: u32, into: &mut Vec<u64>)
    requires packed { IsPacked task.now.facts row.now }
    requires moves { IsMoves task.now moves.now }
    requires act { act < length task.now.actions }
    requires into { length into.old.items ≡ length row.now }
    ensures has { (f : ℕ) → row_has into.new.items f ≡ after_effects (row_has row.now) (action task.now act).effects f }
    ensures long { length into.new.items ≡ length into.old.items }
{
    let does = task.act(act);
    if !moves.is_plain(act) {
        return after_each(row, does.effects(), into);
    }
    after_facts(row, moves.deletes(act), moves.adds(act), into);
}

/// Whether an action can run in a state. If so, `into` becomes the state after it. Effects read the state before, and an add wins
/// over a delete (PDDL 2.1, level 1).
#[inline(always)]
pub fn next(task: &Task, moves: &Moves, row: &[u64], act: u32, into: &mut Vec<u64>) -> bool
    requires packed { IsPacked task.now.facts row.now }
    requires moves { IsMoves task.now moves.now }
    requires act { act < length task.now.actions }
    requires into { length into.old.items ≡ length row.now }
    ensures runs { result ≡ all_hold (state_of (unpacked task.now.facts row.now)) (precondition task.now act) }
    ensures next { result ≡ true → unpacked task.now.facts into.new.items ≡ next_values task.now (state_of (unpacked task.now.facts row.now)) act }
    ensures packed { result ≡ true → IsPacked task.now.facts into.new.items }
    ensures long { length into.new.items ≡ length into.old.items }
{
    // For the proof: the task is lawful.
    let _facts = task.facts();
    if !all_hold(row, moves.needs(act)) {
        return false;
    }
    after(task, moves, row, act, into);
    true
}
