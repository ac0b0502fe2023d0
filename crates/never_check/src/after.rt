//! What surely holds after an action, and what may come true, where the literals of a trail hold before it.

ghost use Rattle.std.specs.Prelude.{◌≡◌, ℕ, ◌*◌, ◌<◌, true, IfOk, OnOk};
ghost use Rattle.std.specs.List.{list_all, list_any, AllByRecursion};
ghost use Rattle.gt_core.specs.Literal.{opposite, is_in};
ghost use Rattle.implied_literals.specs.Tested.{ActionFits};
ghost use Rattle.never_defs.specs.After.{makes_surely, makes_perhaps, holds_surely, comes_perhaps, goes_surely};
ghost use Rattle.never_check.specs.{Follow.AreBelow, Follow.HasAll, Sure.IsSure};

use crate::trail::Trail;
use containers::memory::Memory;
use gt_core::act::Act;
use gt_core::lits::opposite;
use std::alloc::Global;

/// Whether all of some literals were reached.
fn has_all(trail: &Trail, lits: &[u32]) -> bool
    requires { AreBelow (2 * trail.now.facts) lits.now }
    ensures { result ≡ list_all (is_in trail.now.literals) lits.now }
{
    for lit in lits {
        if !trail.has(*lit) {
            return false;
        }
    }
    true
}

/// Whether the opposite of one of some literals was reached.
fn has_opposite(trail: &Trail, lits: &[u32]) -> bool
    requires { AreBelow (2 * trail.now.facts) lits.now }
    ensures { result ≡ list_any (λ m. is_in trail.now.literals (opposite m)) lits.now }
{
    for lit in lits {
        if trail.has(opposite(*lit)) {
            return true;
        }
    }
    false
}

/// Whether an effect surely makes a literal true.
fn makes_surely(trail: &Trail, act: &Act, lit: u32) -> bool
    requires fits { ActionFits (2 * trail.now.facts) act.now }
    ensures { result ≡ makes_surely (is_in trail.now.literals) act.now lit }
{
    for effect in act.effects() {
        if effect.lit() == lit && has_all(trail, effect.cond()) {
            return true;
        }
    }
    false
}

/// Whether an effect may make a literal true.
fn makes_perhaps(trail: &Trail, act: &Act, lit: u32) -> bool
    requires fits { ActionFits (2 * trail.now.facts) act.now }
    ensures { result ≡ makes_perhaps (is_in trail.now.literals) act.now lit }
{
    for effect in act.effects() {
        if effect.lit() == lit && !has_opposite(trail, effect.cond()) {
            return true;
        }
    }
    false
}

/// Whether a literal surely holds afterwards.
pub fn holds_surely(trail: &Trail, act: &Act, lit: u32) -> bool
    requires fits { ActionFits (2 * trail.now.facts) act.now }
    requires lit { lit < 2 * trail.now.facts }
    ensures { result ≡ holds_surely (is_in trail.now.literals) act.now lit }
{
    if lit % 2 == 0 {
        return makes_surely(trail, act, lit)
            || (trail.has(lit) && !makes_perhaps(trail, act, opposite(lit)));
    }
    (trail.has(lit) || makes_surely(trail, act, lit)) && !makes_perhaps(trail, act, opposite(lit))
}

/// Whether a literal may come true.
pub fn comes_perhaps(trail: &Trail, act: &Act, lit: u32) -> bool
    requires fits { ActionFits (2 * trail.now.facts) act.now }
    requires lit { lit < 2 * trail.now.facts }
    ensures { result ≡ comes_perhaps (is_in trail.now.literals) act.now lit }
{
    !trail.has(lit)
        && makes_perhaps(trail, act, lit)
        && (lit % 2 == 0 || !makes_surely(trail, act, opposite(lit)))
}

/// Whether a literal surely becomes false.
pub fn goes_surely(trail: &Trail, act: &Act, lit: u32) -> bool
    requires fits { ActionFits (2 * trail.now.facts) act.now }
    requires lit { lit < 2 * trail.now.facts }
    ensures { result ≡ goes_surely (is_in trail.now.literals) act.now lit }
{
    trail.has(lit) && holds_surely(trail, act, opposite(lit))
}

/// Adds a literal to some, where it surely holds afterwards.
fn put_sure(trail: &Trail, act: &Act, lit: u32, sure: &mut Vec<u32>) -> Result<(), Memory>
    requires fits { ActionFits (2 * trail.now.facts) act.now }
    requires lit { lit < 2 * trail.now.facts }
    requires sure { AllByRecursion (IsSure trail.now act.now) sure.old.items }
    ensures sure { OnOk result (AllByRecursion (IsSure trail.now act.now) sure.new.items) }
    ensures more { OnOk result (HasAll (is_in sure.new.items) sure.old.items) }
    ensures one { OnOk result (holds_surely (is_in trail.now.literals) act.now lit ≡ true → is_in sure.new.items lit ≡ true) }
{
    if holds_surely(trail, act, lit) {
        sure.push(lit)?;
    }
    Ok(())
}

/// The literals of a trail that surely still hold afterwards.
fn still_sure(alloc: Global, trail: &Trail, act: &Act) -> Result<Vec<u32>, Memory>
    requires fits { ActionFits (2 * trail.now.facts) act.now }
    ensures sure { IfOk result (λ v. AllByRecursion (IsSure trail.now act.now) v.items) }
    ensures all { IfOk result (λ v. (m : ℕ) → is_in trail.now.literals m ≡ true → holds_surely (is_in trail.now.literals) act.now m ≡ true → is_in v.items m ≡ true) }
{
    let mut sure = Vec::new(alloc);
    for place in 0..trail.len() {
        put_sure(trail, act, trail.at(place), &mut sure)?;
    }
    Ok(sure)
}

/// All literals that surely hold afterwards.
pub fn sure_after(alloc: Global, trail: &Trail, act: &Act) -> Result<Vec<u32>, Memory>
    requires fits { ActionFits (2 * trail.now.facts) act.now }
    ensures sure { IfOk result (λ v. AllByRecursion (IsSure trail.now act.now) v.items) }
    ensures all { IfOk result (λ v. (m : ℕ) → holds_surely (is_in trail.now.literals) act.now m ≡ true → is_in v.items m ≡ true) }
{
    let mut sure = still_sure(alloc, trail, act)?;
    for effect in act.effects() {
        put_sure(trail, act, effect.lit(), &mut sure)?;
    }
    Ok(sure)
}
