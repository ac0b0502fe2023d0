//! Unit propagation: literals are followed until nothing is left to follow.

ghost use Rattle.std.specs.Prelude.{◌≡◌, ℕ, ◌+◌, ◌*◌, ◌<◌, ◌≤◌, [], true, length, take, slice_index, slice_index_or, IfOk, OnOk, MatchBool};
ghost use Rattle.std.specs.List.{AllByRecursion};
ghost use Rattle.gt_core.specs.{Literal.opposite, Literal.is_in, Clauses.IsKnownClauses, Interference.has_clause};
ghost use Rattle.implied_literals.specs.Known.{IsFull};
ghost use Rattle.never_defs.specs.Propagation.{IsLeft};
ghost use Rattle.never_check.specs.{Follow.Obeys, Follow.AreBelow, Follow.IsGrown, Follow.Adds, Rules.AreRules, Rules.ObeysRules, Rules.AreFollowed};

use crate::left::{Left, left_of};
use crate::rules::Rules;
use crate::trail::Trail;
use containers::memory::Memory;
use gt_core::lits::opposite;
use gt_core::pairs::Pairs;

/// Adds a literal, where it was not reached yet; true where its opposite was.
pub fn add(trail: &mut Trail, lit: u32) -> Result<bool, Memory>
    requires { lit < 2 * trail.old.facts }
    ensures facts { trail.new.facts ≡ trail.old.facts }
    ensures front { OnOk result (take (length trail.old.literals) trail.new.literals ≡ trail.old.literals) }
    ensures told { IfOk result (λ b. MatchBool b
        (is_in trail.old.literals (opposite lit) ≡ true)
        (IsGrown (λ set. set lit ≡ true) trail.old.literals trail.new.literals × (is_in trail.new.literals lit ≡ true))) }
{
    if trail.has(opposite(lit)) {
        return Ok(true);
    }
    if !trail.has(lit) {
        trail.push(lit)?;
    }
    Ok(false)
}

/// Adds the literal that is left of a clause, if one is; true where the clause is false.
pub fn look(trail: &mut Trail, clause: &[u32]) -> Result<bool, Memory>
    requires { AreBelow (2 * trail.old.facts) clause.now }
    ensures facts { trail.new.facts ≡ trail.old.facts }
    ensures front { OnOk result (take (length trail.old.literals) trail.new.literals ≡ trail.old.literals) }
    ensures told { IfOk result (Adds (λ set. Obeys set clause.now) trail.old.literals trail.new.literals
        ((l : ℕ) → IsLeft (is_in trail.old.literals) clause.now l → is_in trail.new.literals l ≡ true)) }
{
    match left_of(trail, clause) {
        Left::Nothing => Ok(true),
        Left::One(lit) => {
            let clashes = add(trail, lit)?;
            Ok(clashes)
        }
        Left::More => Ok(false),
    }
}

/// Adds what the known clauses tell of a literal that was reached; true where that contradicts what was reached.
fn follow_known(known: &Pairs, trail: &mut Trail, lit: u32) -> Result<bool, Memory>
    requires known { IsKnownClauses known.now }
    requires facts { trail.old.facts ≡ known.now.facts }
    requires lit { lit < 2 * trail.old.facts }
    requires reached { is_in trail.old.literals lit ≡ true }
    ensures facts { trail.new.facts ≡ trail.old.facts }
    ensures front { OnOk result (take (length trail.old.literals) trail.new.literals ≡ trail.old.literals) }
    ensures told { IfOk result (Adds (IsFull (has_clause known.now.clauses) []) trail.old.literals trail.new.literals
        ((y : ℕ) → has_clause known.now.clauses (opposite lit) y ≡ true → is_in trail.new.literals y ≡ true)) }
{
    let top = 2 * known.facts();
    let row = known.row(opposite(lit));
    let mut from = 0;
    'row: while let Some(other) = row.least(from) {
        if other >= top {
            return Ok(false);
        }
        if add(trail, other)? {
            return Ok(true);
        }
        from = other + 1;
    }
    Ok(false)
}

/// Adds what is left of the clauses in which the opposite of a literal stands; true where one of them is false.
fn follow_clauses(rules: &Rules, trail: &mut Trail, lit: u32) -> Result<bool, Memory>
    requires rules { AreRules rules.now }
    requires facts { trail.old.facts ≡ rules.now.known.now.facts }
    requires lit { lit < 2 * trail.old.facts }
    ensures facts { trail.new.facts ≡ trail.old.facts }
    ensures front { OnOk result (take (length trail.old.literals) trail.new.literals ≡ trail.old.literals) }
    ensures told { IfOk result (Adds (λ set. AllByRecursion (Obeys set) rules.now.clauses.now) trail.old.literals trail.new.literals
        ((k : ℕ) → k < length rules.now.clauses.now → is_in (slice_index_or rules.now.clauses.now k []) (opposite lit) ≡ true
        → (l : ℕ) → IsLeft (is_in trail.old.literals) (slice_index_or rules.now.clauses.now k []) l → is_in trail.new.literals l ≡ true)) }
{
    let numbers = rules.uses[opposite(lit) as usize].as_slice();
    for number in numbers {
        let clause = rules.clauses.at(*number as usize);
        if look(trail, clause)? {
            return Ok(true);
        }
    }
    Ok(false)
}

/// Adds what follows at once from the literal at a place; true where that is a contradiction.
fn follow(rules: &Rules, trail: &mut Trail, place: usize) -> Result<bool, Memory>
    requires rules { AreRules rules.now }
    requires facts { trail.old.facts ≡ rules.now.known.now.facts }
    requires place { place < length trail.old.literals }
    requires followed { AreFollowed rules.now (take place trail.old.literals) trail.old.literals }
    ensures facts { trail.new.facts ≡ trail.old.facts }
    ensures front { OnOk result (take (length trail.old.literals) trail.new.literals ≡ trail.old.literals) }
    ensures told { IfOk result (Adds (ObeysRules rules.now) trail.old.literals trail.new.literals
        (AreFollowed rules.now (take (place + 1) trail.new.literals) trail.new.literals)) }
{
    let lit = trail.at(place);
    if follow_known(rules.known, trail, lit)? {
        return Ok(true);
    }
    let clashes = follow_clauses(rules, trail, lit)?;
    Ok(clashes)
}

/// Adds all that follows from the literals from a place on, where the ones before were followed; true where that is a contradiction.
pub fn propagate(rules: &Rules, trail: &mut Trail, from: usize) -> Result<bool, Memory>
    requires rules { AreRules rules.now }
    requires facts { trail.old.facts ≡ rules.now.known.now.facts }
    requires from { from ≤ length trail.old.literals }
    requires followed { AreFollowed rules.now (take from trail.old.literals) trail.old.literals }
    ensures facts { trail.new.facts ≡ trail.old.facts }
    ensures front { OnOk result (take (length trail.old.literals) trail.new.literals ≡ trail.old.literals) }
    ensures told { IfOk result (Adds (ObeysRules rules.now) trail.old.literals trail.new.literals
        (AreFollowed rules.now trail.new.literals trail.new.literals)) }
{
    let mut place = from;
    'follow: while place < trail.len() {
        if follow(rules, trail, place)? {
            return Ok(true);
        }
        place += 1;
    }
    Ok(false)
}
