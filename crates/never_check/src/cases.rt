//! The cases in which a clause is false after an action, looked through one way after another.

ghost use Rattle.std.specs.Prelude.{◌≡◌, ◌*◌, ◌<◌, length, take, slice_index, IfOk, OnOk};
ghost use Rattle.gt_core.specs.Literal.{opposite};
ghost use Rattle.std.specs.List.{AllByRecursion};
ghost use Rattle.never_defs.specs.Cases.{conditions_of};
ghost use Rattle.never_check.specs.{Follow.AreBelow, Verdicts.Decides, Pairs.IsPairOf, Pairs.IsReady, Pairs.IsAt, Pairs.IsPlace};
ghost use Rattle.never_check.specs.Pairs.{AreLeftRefuted, IsWayRefuted, IsWayRefutedAt, made_at};

use crate::begin::assume;
use crate::rules::Rules;
use crate::settle::{joined, none_makes, parts, settle, surely_makes};
use crate::trail::Trail;
use containers::FlatLists;
use containers::memory::Memory;
use gt_core::act::Act;
use gt_core::lits::opposite;
use std::alloc::Global;

/// An action and a clause, and what literals are followed by.
#[derive(Drop)]
pub struct Pair<'a> {
    pub alloc: Global,
    pub rules: &'a Rules<'a>,
    pub act: &'a Act,
    pub clause: &'a [u32],
}

/// A trail, up to where its literals were followed, and more clauses that hold.
#[derive(Drop)]
pub struct Held<'a> {
    pub more: &'a FlatLists<u32>,
    pub from: usize,
}

/// A place of the clause, and the clauses which say that no effect makes the literal there true.
#[derive(Drop)]
pub struct At<'a> {
    pub pair: &'a Pair<'a>,
    pub place: usize,
    pub none: &'a FlatLists<u32>,
}

/// Whether each case of the literals of the clause from a place on is contradicted. Where the ways part at
/// the place, what is known already is settled first: often no way is left.
#[cycle(refute)]
pub fn refute_from(
    pair: &Pair,
    place: usize,
    held: &Held,
    trail: &mut Trail,
) -> Result<bool, Memory>
    requires { IsAt pair.now place held.now trail.old }
    ensures facts { OnOk result (trail.new.facts ≡ trail.old.facts) }
    ensures front { OnOk result (take (length trail.old.literals) trail.new.literals ≡ trail.old.literals) }
    ensures told { IfOk result (Decides (AreLeftRefuted pair.now place held.now trail.old)) }
{
    if place == pair.clause.len() || !parts(pair.act, opposite(pair.clause[place])) {
        let refuted = refute_ways(pair, place, held, trail)?;
        return Ok(refuted);
    }
    if settle(pair.rules, held.more, trail, held.from)? {
        return Ok(true);
    }
    let refuted = refute_ways(
        pair,
        place,
        &Held {
            more: held.more,
            from: trail.len(),
        },
        trail,
    )?;
    Ok(refuted)
}

/// The same, way by way.
#[cycle(refute)]
fn refute_ways(pair: &Pair, place: usize, held: &Held, trail: &mut Trail) -> Result<bool, Memory>
    requires { IsAt pair.now place held.now trail.old }
    ensures facts { OnOk result (trail.new.facts ≡ trail.old.facts) }
    ensures front { OnOk result (take (length trail.old.literals) trail.new.literals ≡ trail.old.literals) }
    ensures told { IfOk result (Decides (AreLeftRefuted pair.now place held.now trail.old)) }
{
    if place == pair.clause.len() {
        let refuted = settle(pair.rules, held.more, trail, held.from)?;
        return Ok(refuted);
    }
    let lit = opposite(pair.clause[place]);
    let none = none_makes(pair.alloc, pair.act, opposite(lit))?;
    let at = At {
        pair,
        place,
        none: &none,
    };
    if surely_makes(pair.act, lit) {
        let refuted = refute_made(&at, &[], held, trail)?;
        return Ok(refuted);
    }
    if !refute_way(pair, place, &[lit], &none, held, trail)? {
        return Ok(false);
    }
    let refuted = refute_conditions(&at, held, trail)?;
    Ok(refuted)
}

/// Whether each case is contradicted in which an effect made the opposite of the literal at a place, by each of its conditions.
#[cycle(refute)]
fn refute_conditions(at: &At, held: &Held, trail: &mut Trail) -> Result<bool, Memory>
    requires { IsPlace at.now held.now trail.old }
    ensures kept { OnOk result (trail.new ≡ trail.old) }
    ensures told { IfOk result (Decides
        (AllByRecursion (λ c. IsWayRefuted at.now held.now trail.old (made_at at.now c)) (conditions_of at.now.pair.now.act.now (opposite (slice_index at.now.pair.now.clause.now at.now.place))))) }
{
    let lit = opposite(at.pair.clause[at.place]);
    for effect in at.pair.act.effects() {
        if effect.lit() != lit {
            continue;
        }
        if !refute_made(at, effect.cond(), held, trail)? {
            return Ok(false);
        }
    }
    Ok(true)
}

/// Whether each case is contradicted in which an effect with this condition made the opposite of the literal at a place.
#[cycle(refute)]
fn refute_made(at: &At, cond: &[u32], held: &Held, trail: &mut Trail) -> Result<bool, Memory>
    requires at { IsPlace at.now held.now trail.old }
    requires cond { AreBelow (2 * trail.old.facts) cond.now }
    ensures kept { OnOk result (trail.new ≡ trail.old) }
    ensures told { IfOk result (Decides (IsWayRefuted at.now held.now trail.old (made_at at.now cond.now))) }
{
    if opposite(at.pair.clause[at.place]) % 2 == 0 {
        let refuted = refute_way(
            at.pair,
            at.place,
            cond,
            &FlatLists::new(at.pair.alloc),
            held,
            trail,
        )?;
        return Ok(refuted);
    }
    let refuted = refute_way(at.pair, at.place, cond, at.none, held, trail)?;
    Ok(refuted)
}

/// Whether each case is contradicted that goes one way at a place: these literals hold, and these clauses are true. The trail
/// is as it was.
#[cycle(refute)]
fn refute_way(
    pair: &Pair,
    place: usize,
    literals: &[u32],
    clauses: &FlatLists<u32>,
    held: &Held,
    trail: &mut Trail,
) -> Result<bool, Memory>
    requires pair { IsPairOf pair.now }
    requires place { place < length pair.now.clause.now }
    requires literals { AreBelow (2 * trail.old.facts) literals.now }
    requires clauses { AllByRecursion (AreBelow (2 * trail.old.facts)) clauses.now }
    requires ready { IsReady pair.now held.now trail.old }
    ensures kept { OnOk result (trail.new ≡ trail.old) }
    ensures told { IfOk result (Decides (IsWayRefutedAt pair.now place held.now trail.old (record { literals = literals.now; clauses = clauses.now }))) }
{
    let len = trail.len();
    if assume(trail, literals)? {
        trail.go_back(len);
        return Ok(true);
    }
    if clauses.len() == 0 {
        let refuted = refute_from(pair, place + 1, held, trail)?;
        trail.go_back(len);
        return Ok(refuted);
    }
    let more = joined(held.more, clauses, pair.alloc)?;
    let refuted = refute_from(
        pair,
        place + 1,
        &Held {
            more: &more,
            from: held.from,
        },
        trail,
    )?;
    trail.go_back(len);
    Ok(refuted)
}
