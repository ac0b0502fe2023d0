//! Unit propagation over some more clauses.

ghost use Rattle.std.specs.Prelude.{◌≡◌, ℕ, ◌+◌, ◌*◌, ◌<◌, ◌≤◌, ◌++◌, ◌&&◌, not, [], true, length, take, map, IfOk, OnOk, MatchBool};
ghost use Rattle.std.specs.List.{AllByRecursion};
ghost use Rattle.gt_core.specs.{Literal.opposite, Literal.is_in, Interference.action_may_make, Interference.action_surely_makes};
ghost use Rattle.never_defs.specs.Cases.{none_makes};
ghost use Rattle.never_check.specs.{Follow.Obeys, Follow.AreBelow, Follow.IsGrown, Follow.IsContradiction, Rules.AreRules, Rules.AreFollowed, Refuted.ObeysMore};

use crate::begin::look_all;
use crate::propagate::propagate;
use crate::rules::Rules;
use crate::trail::Trail;
use containers::FlatLists;
use containers::memory::Memory;
use gt_core::act::Act;
use gt_core::lits::opposite;
use std::alloc::Global;

/// Adds all that follows by the rules and some more clauses, where the literals before a place were followed by the rules; true
/// where that is a contradiction.
pub fn settle(
    rules: &Rules,
    more: &FlatLists<u32>,
    trail: &mut Trail,
    from: usize,
) -> Result<bool, Memory>
    requires rules { AreRules rules.now }
    requires facts { trail.old.facts ≡ rules.now.known.now.facts }
    requires more { AllByRecursion (AreBelow (2 * trail.old.facts)) more.now }
    requires from { from ≤ length trail.old.literals }
    requires followed { AreFollowed rules.now (take from trail.old.literals) trail.old.literals }
    ensures facts { trail.new.facts ≡ trail.old.facts }
    ensures front { OnOk result (take (length trail.old.literals) trail.new.literals ≡ trail.old.literals) }
    ensures told { IfOk result (λ b. MatchBool b
        (IsContradiction (ObeysMore rules.now more.now) trail.old.literals)
        (IsGrown (ObeysMore rules.now more.now) trail.old.literals trail.new.literals
        × AreFollowed rules.now trail.new.literals trail.new.literals
        × AllByRecursion (Obeys (is_in trail.new.literals)) more.now)) }
{
    let mut start = from;
    'settle: loop {
        if propagate(rules, trail, start)? {
            return Ok(true);
        }
        start = trail.len();
        if look_all(more, trail)? {
            return Ok(true);
        }
        if trail.len() == start {
            return Ok(false);
        }
    }
}

/// The opposites of literals.
pub fn turned(alloc: Global, lits: &[u32]) -> Result<Vec<u32>, Memory>
    ensures { IfOk result (λ v. v.items ≡ map opposite lits.now) }
{
    let mut list = Vec::new(alloc);
    for lit in lits {
        list.push(opposite(*lit))?;
    }
    Ok(list)
}

/// The clauses which say that no effect of an action makes a literal true.
pub fn none_makes(alloc: Global, act: &Act, lit: u32) -> Result<FlatLists<u32>, Memory>
    ensures { IfOk result (λ clauses. clauses ≡ none_makes act.now lit) }
{
    let mut clauses = FlatLists::new(alloc);
    for effect in act.effects() {
        if effect.lit() == lit {
            let clause = turned(alloc, effect.cond())?;
            clauses.push(&clause)?;
        }
    }
    Ok(clauses)
}

/// Clauses with others after them.
pub fn joined(
    first: &FlatLists<u32>,
    second: &FlatLists<u32>,
    alloc: Global,
) -> Result<FlatLists<u32>, Memory>
    ensures { IfOk result (λ clauses. clauses ≡ first.now ++ second.now) }
{
    let mut clauses = first.copy(alloc)?;
    for number in 0..second.len() {
        clauses.push(second.at(number))?;
    }
    Ok(clauses)
}

/// Whether an effect without a condition makes a literal true.
pub fn surely_makes(act: &Act, lit: u32) -> bool
    ensures { result ≡ action_surely_makes act.now lit }
{
    act.effects()
        .iter()
        .any(|effect| effect.lit() == lit && effect.cond().is_empty())
}

/// Whether an effect of an action has a literal.
fn may_make(act: &Act, lit: u32) -> bool
    ensures { result ≡ action_may_make act.now lit }
{
    act.effects().iter().any(|effect| effect.lit() == lit)
}

/// Whether there is more than one way in which a literal may hold afterwards: an effect makes it true, and none surely.
pub fn parts(act: &Act, lit: u32) -> bool
    ensures { result ≡ (action_may_make act.now lit && not (action_surely_makes act.now lit)) }
{
    may_make(act, lit) && !surely_makes(act, lit)
}
