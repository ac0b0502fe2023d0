//! What clauses tell by themselves, before any literal is assumed; and literals that are assumed.

ghost use Rattle.std.specs.Prelude.{◌≡◌, ℕ, ◌+◌, ◌*◌, ◌<◌, ◌≤◌, [], true, length, take, IfOk, OnOk, MatchOption};
ghost use Rattle.std.specs.List.{AllByRecursion};
ghost use Rattle.gt_core.specs.{Literal.is_in, Clauses.IsKnownClauses, Interference.has_clause};
ghost use Rattle.never_defs.specs.Propagation.{IsLeft};
ghost use Rattle.never_check.specs.{Follow.Obeys, Follow.AreBelow, Follow.HasAll, Follow.Adds, Follow.IsContradiction, Rules.AreRules, Rules.ObeysRules};
ghost use Rattle.never_check.specs.{Rules.AreFollowed, Verdicts.IsBase};

use crate::propagate::{add, look, propagate};
use crate::rules::Rules;
use crate::trail::Trail;
use containers::FlatLists;
use containers::memory::Memory;
use gt_core::pairs::Pairs;
use std::alloc::Global;

/// Adds literals; true where the opposite of one was reached.
pub fn assume(trail: &mut Trail, lits: &[u32]) -> Result<bool, Memory>
    requires { AreBelow (2 * trail.old.facts) lits.now }
    ensures facts { trail.new.facts ≡ trail.old.facts }
    ensures front { OnOk result (take (length trail.old.literals) trail.new.literals ≡ trail.old.literals) }
    ensures told { IfOk result (Adds (λ set. HasAll set lits.now) trail.old.literals trail.new.literals (HasAll (is_in trail.new.literals) lits.now)) }
{
    for lit in lits {
        if add(trail, *lit)? {
            return Ok(true);
        }
    }
    Ok(false)
}

/// Adds the literals that are known clauses by themselves; true where that contradicts what was reached.
fn add_single(known: &Pairs, trail: &mut Trail) -> Result<bool, Memory>
    requires known { IsKnownClauses known.now }
    requires facts { trail.old.facts ≡ known.now.facts }
    ensures facts { trail.new.facts ≡ trail.old.facts }
    ensures told { IfOk result (Adds (λ set. (l : ℕ) → has_clause known.now.clauses l l ≡ true → set l ≡ true) trail.old.literals trail.new.literals
        ((l : ℕ) → l < 2 * known.now.facts → has_clause known.now.clauses l l ≡ true → is_in trail.new.literals l ≡ true)) }
{
    for lit in 0..2 * known.facts() {
        if !known.has(lit, lit) {
            continue;
        }
        if add(trail, lit)? {
            return Ok(true);
        }
    }
    Ok(false)
}

/// Adds what is left of each of some clauses; true where one of them is false.
pub fn look_all(clauses: &FlatLists<u32>, trail: &mut Trail) -> Result<bool, Memory>
    requires { AllByRecursion (AreBelow (2 * trail.old.facts)) clauses.now }
    ensures facts { trail.new.facts ≡ trail.old.facts }
    ensures front { OnOk result (take (length trail.old.literals) trail.new.literals ≡ trail.old.literals) }
    ensures told { IfOk result (Adds (λ set. AllByRecursion (Obeys set) clauses.now) trail.old.literals trail.new.literals
        (AllByRecursion (λ c. (l : ℕ) → IsLeft (is_in trail.old.literals) c l → is_in trail.new.literals l ≡ true) clauses.now)) }
{
    for number in 0..clauses.len() {
        if look(trail, clauses.at(number))? {
            return Ok(true);
        }
    }
    Ok(false)
}

/// Adds all that the clauses tell by themselves; true where that is a contradiction.
fn begin(rules: &Rules, trail: &mut Trail) -> Result<bool, Memory>
    requires rules { AreRules rules.now }
    requires facts { trail.old.facts ≡ rules.now.known.now.facts }
    requires empty { trail.old.literals ≡ [] }
    ensures facts { trail.new.facts ≡ trail.old.facts }
    ensures told { IfOk result (Adds (ObeysRules rules.now) [] trail.new.literals (AreFollowed rules.now trail.new.literals trail.new.literals)) }
{
    if add_single(rules.known, trail)? {
        return Ok(true);
    }
    if look_all(rules.clauses, trail)? {
        return Ok(true);
    }
    let clashes = propagate(rules, trail, 0)?;
    Ok(clashes)
}

/// A trail of all that the clauses tell by themselves; none where that is a contradiction.
pub fn begun(alloc: Global, rules: &Rules) -> Result<Option<Trail>, Memory>
    requires { AreRules rules.now }
    ensures { IfOk result (λ o. MatchOption o (IsContradiction (ObeysRules rules.now) []) (IsBase rules.now)) }
{
    let mut trail = Trail::new(alloc, rules.known.facts())?;
    if begin(rules, &mut trail)? {
        return Ok(None);
    }
    Ok(Some(trail))
}
