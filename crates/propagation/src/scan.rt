//! What is found by reading the literals of a clause: how it stands, what it asks for, and another one to watch.
ghost use Rattle.std.specs.Prelude.{◌≡◌, ℕ, ◌+◌, ◌*◌, ◌<◌, ◌≤◌, Bool, length, true, false, slice_index, MatchOption, IfSome};
ghost use Rattle.clause_base.specs.Clause.{has_literal};
ghost use Rattle.propagation.specs.own.Asks.{IsAsk};
ghost use Rattle.propagation.specs.Pending.{AreFalseBut, AreFalseFrom, IsSought, is_free};
ghost use Rattle.propagation.specs.own.Status.{IsStatus};
ghost use Rattle.cdcl_defs.specs.Pending.{is_pending, open_ones};

use crate::pending::NO_LITERAL;
use crate::status::Status;
use cdcl_tables::assignment::Assignment;
use clause_base::literal::Lit;
use clause_base::view::View;

/// How a clause stands, by its literals, each of which is read once.
pub fn status_of(assignment: &Assignment, clause: &View) -> Status
    requires { (p : ℕ) → p < length clause.now → slice_index clause.now p < 2 * assignment.now.variables }
    ensures { IsStatus (is_pending (has_literal assignment.now.trail) clause.now) (open_ones (has_literal assignment.now.trail) clause.now) result }
{
    let mut left: Option<Lit> = None;
    for place in 0..clause.len() {
        let lit = clause.get(place);
        if assignment.is_true(lit.0) {
            return Status::Open;
        }
        if !assignment.is_false(lit.0) {
            if left.is_some() {
                return Status::Open;
            }
            left = Some(lit);
        }
    }
    match left {
        Some(lit) => Status::Unit(lit),
        None => Status::Falsified,
    }
}

/// What a clause asks for of which all literals after the first are false: for the first one, if it has any.
fn first_ask(clause: &View) -> u32
    ensures { (on : ℕ → Bool) → ((p : ℕ) → 0 < p → p < length clause.now → is_free on (slice_index clause.now p) ≡ false) → IsAsk on clause.now result }
{
    if clause.len() == 0 {
        return NO_LITERAL;
    }
    let first = clause.get(0);
    first.0
}

/// What a clause of fewer than two literals asks for.
pub fn only_ask(clause: &View) -> u32
    requires { length clause.now < 2 }
    ensures { (on : ℕ → Bool) → IsAsk on clause.now result }
{
    first_ask(clause)
}

/// What a clause asks for, if it is pending: its literal that is not false, or its first one where all are false.
pub fn ask_of(assignment: &Assignment, clause: &View) -> Option<u32>
    requires { (p : ℕ) → p < length clause.now → slice_index clause.now p < 2 * assignment.now.variables }
    ensures { MatchOption result (is_pending (has_literal assignment.now.trail) clause.now ≡ false) (λ ask. IsAsk (has_literal assignment.now.trail) clause.now ask) }
{
    match status_of(assignment, clause) {
        Status::Open => None,
        Status::Falsified => Some(first_ask(clause)),
        Status::Unit(lit) => Some(lit.0),
    }
}

/// A place from `low` up to `high` whose literal, which goes up by a number, is not false and not the skipped one.
#[inline(always)]
fn new_watch_in_time(
    assignment: &Assignment,
    lits: &[Lit],
    up: u32,
    skipped: u32,
    low: usize,
    high: usize,
) -> Option<u32>
    requires short { high ≤ 4294967295 }
    requires inside { high ≤ length lits.now }
    requires fits { (p : ℕ) → low ≤ p → p < length lits.now → slice_index lits.now p ≤ 4294967295 → up + slice_index lits.now p ≤ 4294967295 }
    requires below { (p : ℕ) → low ≤ p → p < length lits.now → up + slice_index lits.now p < 2 * assignment.now.variables }
    ensures { IsSought assignment.now.trail lits.now up skipped low high result }
{
    for place in low..high {
        let lit = lits[place];
        let code = up + lit.0;
        if !assignment.is_false(code) && code != skipped {
            return Some(place as u32);
        }
    }
    None
}

/// A place from `low` up to `high` whose literal is not false and not the skipped one. The literals below the limit of the view are
/// searched in one run and the others in a second one, so that neither chooses in each turn how a literal is moved.
#[inline(always)]
pub fn new_watch_between(
    assignment: &Assignment,
    clause: &View,
    skipped: u32,
    low: usize,
    high: usize,
) -> Option<u32>
    requires below { (p : ℕ) → p < length clause.now → slice_index clause.now p < 2 * assignment.now.variables }
    requires short { high ≤ 4294967295 }
    requires high { high ≤ length clause.now }
    ensures none { MatchOption result (AreFalseFrom assignment.now.trail clause.now skipped low high) (λ p. is_free (has_literal assignment.now.trail) (slice_index clause.now p) ≡ true) }
    ensures other { IfSome result (λ p. slice_index clause.now p ≡ skipped → ⊥) }
    ensures inside { IfSome result (λ p. p < length clause.now) }
{
    let moving = clause.moving();
    let lits = moving.lits;
    for place in low..high {
        let lit = lits[place];
        if lit.0 >= moving.limit {
            return new_watch_in_time(assignment, lits, moving.high, skipped, place, high);
        }
        let code = moving.low + lit.0;
        if !assignment.is_false(code) && code != skipped {
            return Some(place as u32);
        }
    }
    None
}

/// A place whose literal is not false and not the skipped one, sought from `from` on and then from the front.
pub fn new_watch(assignment: &Assignment, clause: &View, skipped: u32, from: u32) -> Option<u32>
    requires below { (p : ℕ) → p < length clause.now → slice_index clause.now p < 2 * assignment.now.variables }
    requires short { length clause.now ≤ 4294967295 }
    ensures none { MatchOption result (AreFalseBut assignment.now.trail clause.now skipped) (λ p. is_free (has_literal assignment.now.trail) (slice_index clause.now p) ≡ true) }
    ensures other { IfSome result (λ p. slice_index clause.now p ≡ skipped → ⊥) }
    ensures inside { IfSome result (λ p. p < length clause.now) }
{
    let length = clause.len();
    let middle = (from as usize).min(length);
    match new_watch_between(assignment, clause, skipped, middle, length) {
        Some(place) => Some(place),
        None => new_watch_between(assignment, clause, skipped, 0, middle),
    }
}
