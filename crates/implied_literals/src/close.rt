//! All that literals tell: the least set with them that has, with a literal, each other one of a clause with its
//! opposite. Literals whose sets are done are followed one by one, the others all at once.

ghost use Rattle.std.specs.Prelude.{◌≡◌, ℕ, ◌*◌, ◌<◌, ◌==◌, true, false, None, IfSome, OnOk};
ghost use Rattle.bit_sets.specs.Rows.{row_has};
ghost use Rattle.implied_literals.specs.Rows.{clause_in, IsClosure, IsGrowing, IsGrownFrom, work};
ghost use Rattle.implied_literals.specs.Tested.{IsSetOf};
ghost use Rattle.implied_literals.specs.Renewed.{AreRules, AreDone};

use crate::bound::{Bound, add_told};
use bit_sets::row::BitRow;
use std::alloc::AllocError;

/// What literals tell by: clauses over literals of so many facts, which literals stand in one, and the literals that are
/// asked for.
#[derive(Drop)]
pub struct Rules<'a> {
    pub facts: u32,
    pub clauses: &'a [BitRow],
    pub bound: &'a Bound,
    pub asked: &'a BitRow,
}

/// What each literal tells that is asked for and below one: its row.
#[derive(Drop)]
pub struct Done<'a> {
    pub rules: &'a Rules<'a>,
    pub rows: &'a [BitRow],
    pub below: u32,
}

/// Whether what a literal tells is done: each literal that is asked for, below one.
fn is_done(asked: &BitRow, below: u32, x: u32) -> bool
    ensures { result ≡ true → (row_has asked.now x ≡ true) × (x < below) }
{
    x < below && asked.contains(x)
}

/// Rows to work in: the literals that were not followed yet, and room for a row.
#[derive(Drop)]
pub struct Spare {
    pub rest: BitRow,
    pub room: BitRow,
}

/// Follows all literals that are left at once.
fn follow_all(rules: &Rules, row: &mut BitRow, spare: &mut Spare) -> Result<(), AllocError>
    requires rules { AreRules rules.now }
    requires growing { IsGrowing (clause_in rules.now.clauses.now) (2 * rules.now.facts) (row_has row.old) (row_has spare.old.rest) }
    ensures grown { OnOk result (IsGrownFrom (clause_in rules.now.clauses.now) (row_has row.old) (row_has row.new)) }
    ensures growing { OnOk result (IsGrowing (clause_in rules.now.clauses.now) (2 * rules.now.facts) (row_has row.new) (row_has spare.new.rest)) }
    ensures less { OnOk result ((x : ℕ) → row_has spare.old.rest x ≡ true → work (2 * rules.now.facts) (row_has row.new) (row_has spare.new.rest) < work (2 * rules.now.facts) (row_has row.old) (row_has spare.old.rest)) }
{
    spare.room.clear();
    add_told(rules.clauses, rules.bound, &spare.rest, &mut spare.room)?;
    spare.rest.make_same(&spare.room)?;
    spare.rest.subtract(row);
    row.unite(&spare.room)?;
    Ok(())
}

/// Follows a literal that is left where what it tells is done, with all that follows; else all that are left.
fn follow(done: &Done, x: u32, row: &mut BitRow, spare: &mut Spare) -> Result<(), AllocError>
    requires done { AreDone done.now }
    requires growing { IsGrowing (clause_in done.now.rules.now.clauses.now) (2 * done.now.rules.now.facts) (row_has row.old) (row_has spare.old.rest) }
    requires todo { row_has spare.old.rest x ≡ true }
    ensures grown { OnOk result (IsGrownFrom (clause_in done.now.rules.now.clauses.now) (row_has row.old) (row_has row.new)) }
    ensures growing { OnOk result (IsGrowing (clause_in done.now.rules.now.clauses.now) (2 * done.now.rules.now.facts) (row_has row.new) (row_has spare.new.rest)) }
    ensures less { OnOk result (work (2 * done.now.rules.now.facts) (row_has row.new) (row_has spare.new.rest) < work (2 * done.now.rules.now.facts) (row_has row.old) (row_has spare.old.rest)) }
{
    if is_done(done.rules.asked, done.below, x) {
        let known = &done.rows[x as usize];
        row.unite(known)?;
        spare.rest.remove(x);
        spare.rest.subtract(known);
        return Ok(());
    }
    follow_all(done.rules, row, spare)?;
    Ok(())
}

/// A literal to follow: one that is done, where the first that is asked for is, else the first.
fn to_follow(asked: &BitRow, below: u32, todo: &BitRow) -> Option<u32>
    ensures some { IfSome result (λ x. row_has todo.now x ≡ true) }
    ensures none { result ≡ None → (x : ℕ) → row_has todo.now x ≡ false }
{
    match todo.least_common(asked, 0) {
        Some(x) if x < below => Some(x),
        _ => todo.least(0),
    }
}

/// Makes a row the least set with its literals that has, with a literal, each other one of a clause with its opposite.
pub fn close(done: &Done, row: &mut BitRow, spare: &mut Spare) -> Result<(), AllocError>
    requires done { AreDone done.now }
    requires within { IsSetOf (2 * done.now.rules.now.facts) (row_has row.old) }
    ensures { OnOk result (IsClosure (clause_in done.now.rules.now.clauses.now) (row_has row.old) (row_has row.new)) }
{
    spare.rest.make_same(row)?;
    'follow: loop {
        if row.has_pair() {
            return Ok(());
        }
        match to_follow(done.rules.asked, done.below, &spare.rest) {
            None => return Ok(()),
            Some(x) => follow(done, x, row, spare)?,
        }
    }
}
