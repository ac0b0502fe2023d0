//! Literals that are made true and taken back over 100,000 clauses, 100,000 times in each row: a body that looks at all clauses
//! each time does not end. Where nothing was pending before, only what the literal wakes is looked at.
//!
//! The clauses say of each three variables in a row that the first two imply the third. A row prints the sum of the numbers of
//! the clauses that asked first.

ghost use Rattle.std.specs.Prelude.{◌≡◌, ◌+◌, ◌*◌, ◌≤◌, ◌<◌, ◌++◌, ◌∷◌, [], length, true, OnSome};

use crate::dimacs::add_clause;
use crate::lines::{Out, put};
use clause_base::clause::Clause;
use clause_base::formula::Formula;
use clause_base::literal::Lit;
use std::alloc::Global;
use watch_lists::watches::Watches;

/// How many clauses there are at first.
const CLAUSES: u32 = 100_000;

/// How many variables there are.
const VARIABLES: u32 = CLAUSES + 2;

/// How often each row makes literals true and takes them back.
const ROUNDS: u32 = 100_000;

/// For each three variables in a row, that the first two imply the third.
fn triples(out: &mut Out) -> Formula
    ensures { result.variables ≡ 100002 }
{
    let mut formula = Formula::new(out.alloc, 0, VARIABLES);
    for v in 0..CLAUSES {
        let lits = [
            Lit::of(v, false),
            Lit::of(v + 1, false),
            Lit::of(v + 2, true),
        ];
        add_clause(out, &mut formula, &lits);
    }
    formula
}

/// The number of the clause that asks first, or 0.
fn first_asking(watches: &Watches) -> u64 {
    match watches.least_pending() {
        Some(number) => u64::from(number),
        None => 0,
    }
}

/// The number of the clause that asks first where a variable is true, which is taken back.
fn asked_by_one(watches: &mut Watches, v: u32) -> u64
    requires variable { v < watches.old.variables }
    requires few { watches.old.variables ≤ 2147483647 }
    requires none { watches.old.trail ≡ [] }
    ensures { watches.new ≡ watches.old }
{
    watches.assign(Lit::of(v, true));
    let asked = first_asking(watches);
    watches.undo_to(0);
    asked
}

/// The number of the clause that asks first where two variables in a row are true, which are taken back.
fn asked_by_two(watches: &mut Watches, v: u32) -> u64
    requires variable { v + 1 < watches.old.variables }
    requires few { watches.old.variables ≤ 2147483647 }
    requires none { watches.old.trail ≡ [] }
    ensures { watches.new ≡ watches.old }
{
    watches.assign(Lit::of(v, true));
    watches.assign(Lit::of(v + 1, true));
    let asked = first_asking(watches);
    watches.undo_to(0);
    asked
}

/// Makes each two variables in a row true and takes them back.
fn undone(watches: &mut Watches) -> u64
    requires many { watches.old.variables ≡ 100002 }
    requires none { watches.old.trail ≡ [] }
    ensures { watches.new ≡ watches.old }
{
    let mut sum: u64 = 0;
    for v in 0..ROUNDS {
        sum = sum.wrapping_add(asked_by_two(watches, v));
    }
    sum
}

/// Adds, with the next number, that a variable and the next one are not both true.
fn add_two(alloc: Global, watches: &mut Watches, v: u32) -> Option<()>
    requires many { watches.old.variables ≡ 100002 }
    requires variable { v < 100000 }
    requires none { watches.old.trail ≡ [] }
    requires room { length watches.old.kept ≤ 200000 }
    ensures many { OnSome result (watches.new.variables ≡ 100002) }
    ensures none { OnSome result (watches.new.trail ≡ []) }
    ensures kept { OnSome result (watches.new.kept ≡ watches.old.kept ++ true ∷ []) }
{
    let lits = [Lit::of(v, false), Lit::of(v + 1, false)];
    let clause = Clause::of(alloc, &lits).ok()??;
    if !clause.fits(VARIABLES) {
        return None;
    }
    watches.add(clause).ok()
}

/// Adds, with the next number, that two variables in a row are not both true, and removes it. What is told is the number of the
/// clause that asks where the first is true, before the clause is removed and, 1,000,000 times, after.
fn asked_when_added(alloc: Global, watches: &mut Watches, v: u32, number: u32) -> Option<u64>
    requires many { watches.old.variables ≡ 100002 }
    requires variable { v < 100000 }
    requires none { watches.old.trail ≡ [] }
    requires count { length watches.old.kept ≡ number }
    requires few { number ≤ 200000 }
    ensures many { OnSome result (watches.new.variables ≡ 100002) }
    ensures none { OnSome result (watches.new.trail ≡ []) }
    ensures count { OnSome result (length watches.new.kept ≡ number + 1) }
{
    add_two(alloc, watches, v)?;
    let before = asked_by_one(watches, v);
    watches.remove(number);
    let after = asked_by_one(watches, v);
    Some(before.wrapping_add(after.wrapping_mul(1_000_000)))
}

/// Adds and removes a clause for each two variables in a row.
fn added(alloc: Global, watches: &mut Watches, first: u32) -> Option<u64>
    requires many { watches.old.variables ≡ 100002 }
    requires none { watches.old.trail ≡ [] }
    requires count { length watches.old.kept ≡ first }
    requires few { first ≤ 100000 }
{
    let mut sum: u64 = 0;
    for v in 0..ROUNDS {
        sum = sum.wrapping_add(asked_when_added(alloc, watches, v, first + v)?);
    }
    Some(sum)
}

/// Writes the sums of both rows over a formula.
fn put_rows(out: &mut Out, formula: &Formula)
    requires { formula.now.variables ≡ 100002 }
{
    let count = formula.count();
    if count > CLAUSES {
        return out.fail();
    }
    let Ok(mut watches) = Watches::new(out.alloc, formula) else {
        return out.fail();
    };
    let undone = undone(&mut watches);
    put(out, "undone 100000 times: #\n", &[undone]);
    match added(out.alloc, &mut watches, count) {
        Some(added) => put(out, "added and removed 100000 times: #\n", &[added]),
        None => out.fail(),
    }
}

/// Writes the sums of both rows.
pub(crate) fn put_sums(out: &mut Out) {
    let formula = triples(out);
    put_rows(out, &formula);
}
