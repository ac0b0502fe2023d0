//! What literals tell, worked out anew after clauses were dropped: only where it may have become less.

ghost use Rattle.std.specs.Prelude.{◌≡◌, ℕ, ◌+◌, ◌*◌, ◌<◌, ◌≤◌, ◌==◌, ◌&&◌, ◌||◌, not, true, false, if◌then◌else◌, length, IfOk, OnOk};
ghost use Rattle.std.specs.Bool.{OnTrue};
ghost use Rattle.bit_sets.specs.Rows.{row_has};
ghost use Rattle.gt_core.specs.Literal.{opposite};
ghost use Rattle.implied_literals.specs.Rows.{row_at, clause_in, AreRows, IsPart, IsClosure};
ghost use Rattle.implied_literals.specs.Tested.{IsSetOf};
ghost use Rattle.implied_literals.specs.Renewed.{IsBound, AreRules, AreDone, WasClosed, WasTold};

use crate::bound::add_told;
use crate::close::{Done, Rules, Spare, close};
use bit_sets::row::BitRow;
use gt_core::lits::opposite;
use std::alloc::{AllocError, Global};

/// Whether none of a set stands in a row with its opposite.
fn is_apart(row: &BitRow, set: &BitRow) -> bool
    ensures { OnTrue result ((x : ℕ) → row_has set.now x ≡ true → row_has row.now (opposite x) ≡ true → ⊥) }
{
    if row.has_pair_across(set) {
        return false;
    }
    if set.has_pair_across(row) {
        return false;
    }
    true
}

/// Whether two sets of numbers below 4,096 have no more in common than two others have.
fn has_fewer(one: &BitRow, other: &BitRow, third: &BitRow, fourth: &BitRow) -> bool
    requires one { IsSetOf 4096 (row_has one.now) }
    requires third { IsSetOf 4096 (row_has third.now) }
{
    let mut from = 0;
    let mut low = 0;
    while let Some(x) = one.least_common(other, from) {
        let Some(y) = third.least_common(fourth, low) else {
            return false;
        };
        from = x + 1;
        low = y + 1;
    }
    true
}

/// Puts in the literals that stand in a clause with one of some literals.
fn add_partners(rules: &Rules, lits: &BitRow, partners: &mut BitRow) -> Result<(), AllocError>
    requires few { length rules.now.clauses.now ≤ 4096 }
    requires bound { IsBound (clause_in rules.now.clauses.now) rules.now.bound.now }
    requires lits { IsSetOf (length rules.now.clauses.now) (row_has lits.now) }
    ensures { OnOk result ((y m : ℕ) → row_has lits.now y ≡ true → clause_in rules.now.clauses.now y m ≡ true → row_has partners.new m ≡ true) }
{
    let mut from = 0;
    while let Some(y) = lits.least_common(&rules.bound.literals, from) {
        partners.unite(&rules.clauses[y as usize])?;
        from = y + 1;
    }
    Ok(())
}

/// Whether none of some literals stands in a clause with the opposite of one of a set. Goes through the fewer of those of
/// the set that tell something and of the others that stand in a clause. `room` is room for a row.
fn none_follows(
    rules: &Rules,
    set: &BitRow,
    lits: &BitRow,
    room: &mut BitRow,
) -> Result<bool, AllocError>
    requires rules { AreRules rules.now }
    requires set { IsSetOf (2 * rules.now.facts) (row_has set.now) }
    requires lits { IsSetOf (2 * rules.now.facts) (row_has lits.now) }
    ensures { IfOk result (λ none. none ≡ true → (x y : ℕ) → row_has set.now x ≡ true → row_has lits.now y ≡ true → clause_in rules.now.clauses.now y (opposite x) ≡ true → ⊥) }
{
    room.clear();
    if has_fewer(set, &rules.bound.opposites, lits, &rules.bound.literals) {
        add_told(rules.clauses, rules.bound, set, room)?;
        return Ok(lits.least_common(room, 0).is_none());
    }
    add_partners(rules, lits, room)?;
    Ok(is_apart(room, set))
}

/// Rows without numbers.
fn no_spare(alloc: Global) -> Spare {
    Spare {
        rest: BitRow::new(alloc),
        room: BitRow::new(alloc),
    }
}

/// Makes `next`, which has what is known at once, the set of all that follows. Whether it is another than the old set,
/// which is the same else.
fn renew(
    done: &Done,
    old: &BitRow,
    next: &mut BitRow,
    spare: &mut Spare,
) -> Result<bool, AllocError>
    requires done { AreDone done.now }
    requires within { IsSetOf (2 * done.now.rules.now.facts) (row_has next.old) }
    requires was { WasClosed (clause_in done.now.rules.now.clauses.now) (2 * done.now.rules.now.facts) (row_has next.old) (row_has old.now) }
    ensures { IfOk result (λ anew. IsClosure (clause_in done.now.rules.now.clauses.now) (row_has next.old) (row_has (if anew then next.new else old.now))) }
{
    if next.is_same(old) {
        return Ok(false);
    }
    if next.has_pair() {
        return Ok(true);
    }
    if !old.has_pair() {
        let rest = &mut spare.rest;
        rest.make_same(old)?;
        rest.subtract(next);
        if none_follows(done.rules, next, rest, &mut spare.room)? {
            return Ok(true);
        }
    }
    close(done, next, spare)?;
    if next.is_same(old) {
        return Ok(false);
    }
    Ok(true)
}

/// Fills a row with a literal and what its clauses tell.
fn fill_first(clauses: &[BitRow], x: u32, row: &mut BitRow) -> Result<(), AllocError>
    requires { opposite x < length clauses.now }
    ensures { OnOk result ((m : ℕ) → row_has row.new m ≡ ((x == m) || clause_in clauses.now (opposite x) m)) }
{
    row.make_same(&clauses[opposite(x) as usize])?;
    row.insert(x)?;
    Ok(())
}

/// Whether no clause that a set could have used is gone: `stale` has the opposites of the literals whose clauses are
/// fewer.
fn is_untouched(set: &BitRow, stale: &BitRow) -> bool
    ensures free { OnTrue result ((f : ℕ) → row_has set.now (2 * f) ≡ true → row_has set.now (2 * f + 1) ≡ true → ⊥) }
    ensures apart { OnTrue result ((m : ℕ) → (row_has set.now m && row_has stale.now m) ≡ false) }
{
    !set.has_pair() && set.least_common(stale, 0).is_none()
}

/// Works out what the first literal that is not done tells. Whether it is another set than the old one, and in `next`.
fn renew_row(
    done: &Done,
    stale: &BitRow,
    next: &mut BitRow,
    spare: &mut Spare,
) -> Result<bool, AllocError>
    requires done { AreDone done.now }
    requires below { done.now.below < 2 * done.now.rules.now.facts }
    requires was { WasTold (clause_in done.now.rules.now.clauses.now) (row_has stale.now) (2 * done.now.rules.now.facts) done.now.below (row_has (row_at done.now.rows.now done.now.below)) }
    ensures { IfOk result (λ anew. IsClosure (clause_in done.now.rules.now.clauses.now) (λ m. done.now.below == m) (row_has (if anew then next.new else row_at done.now.rows.now done.now.below))) }
{
    let old = &done.rows[done.below as usize];
    if is_untouched(old, stale) {
        return Ok(false);
    }
    fill_first(done.rules.clauses, done.below, next)?;
    let anew = renew(done, old, next, spare)?;
    Ok(anew)
}

/// Makes one row the same as another.
fn set_row(rows: &mut Vec<BitRow>, x: u32, row: &BitRow) -> Result<(), AllocError>
    requires { x < length rows.old.items }
    ensures long { OnOk result (length rows.new.items ≡ length rows.old.items) }
    ensures others { OnOk result ((k : ℕ) → (k ≡ x → ⊥) → row_at rows.new.items k ≡ row_at rows.old.items k) }
    ensures same { OnOk result (row_at rows.new.items x ≡ row.now) }
{
    let place = &mut rows[x as usize];
    place.make_same(row)
}

/// Renews the row of a literal, and puts the literal into `moved` where the row is another than before.
fn renew_at<'a>(
    rules: &'a Rules<'a>,
    stale: &BitRow,
    rows: &mut Vec<BitRow>,
    x: u32,
    next: &mut BitRow,
    spare: &mut Spare,
    moved: &mut BitRow,
) -> Result<(), AllocError>
    requires rules { AreRules rules.now }
    requires x { x < 2 * rules.now.facts }
    requires long { length rows.old.items ≡ 2 * rules.now.facts }
    requires done { (k : ℕ) → row_has rules.now.asked.now k ≡ true → k < x → IsClosure (clause_in rules.now.clauses.now) (λ m. k == m) (row_has (row_at rows.old.items k)) }
    requires was { WasTold (clause_in rules.now.clauses.now) (row_has stale.now) (2 * rules.now.facts) x (row_has (row_at rows.old.items x)) }
    ensures long { OnOk result (length rows.new.items ≡ length rows.old.items) }
    ensures others { OnOk result ((k : ℕ) → (k ≡ x → ⊥) → row_at rows.new.items k ≡ row_at rows.old.items k) }
    ensures closure { OnOk result (IsClosure (clause_in rules.now.clauses.now) (λ m. x == m) (row_has (row_at rows.new.items x))) }
    ensures more { OnOk result ((k : ℕ) → row_has moved.new k ≡ false → row_has moved.old k ≡ false) }
    ensures same { OnOk result (row_has moved.new x ≡ false → row_at rows.new.items x ≡ row_at rows.old.items x) }
{
    let done = Done {
        rules,
        rows: rows.as_slice(),
        below: x,
    };
    if renew_row(&done, stale, next, spare)? {
        set_row(rows, x, next)?;
        moved.insert(x)?;
    }
    Ok(())
}

/// Renews the row of each literal that is asked for. The literals whose rows are others than before.
pub fn renew_rows(
    alloc: Global,
    rules: &Rules,
    stale: &BitRow,
    rows: &mut Vec<BitRow>,
) -> Result<BitRow, AllocError>
    requires rules { AreRules rules.now }
    requires asked { IsSetOf (2 * rules.now.facts) (row_has rules.now.asked.now) }
    requires long { length rows.old.items ≡ 2 * rules.now.facts }
    requires were { (k : ℕ) → row_has rules.now.asked.now k ≡ true → WasTold (clause_in rules.now.clauses.now) (row_has stale.now) (2 * rules.now.facts) k (row_has (row_at rows.old.items k)) }
    ensures long { IfOk result (λ moved. length rows.new.items ≡ 2 * rules.now.facts) }
    ensures each { IfOk result (λ moved. (k : ℕ) → row_has rules.now.asked.now k ≡ true → IsClosure (clause_in rules.now.clauses.now) (λ m. k == m) (row_has (row_at rows.new.items k))) }
    ensures others { IfOk result (λ moved. (k : ℕ) → row_has rules.now.asked.now k ≡ false → row_at rows.new.items k ≡ row_at rows.old.items k) }
    ensures same { IfOk result (λ moved. (k : ℕ) → row_has moved k ≡ false → row_at rows.new.items k ≡ row_at rows.old.items k) }
{
    let mut next = BitRow::new(alloc);
    let mut spare = no_spare(alloc);
    let mut moved = BitRow::new(alloc);
    let mut from = 0;
    while let Some(x) = rules.asked.least(from) {
        renew_at(&*rules, stale, rows, x, &mut next, &mut spare, &mut moved)?;
        from = x + 1;
    }
    Ok(moved)
}

/// Whether a literal is a clause by itself.
fn is_single(clauses: &[BitRow], l: u32) -> bool
    requires { l < length clauses.now }
    ensures { result ≡ clause_in clauses.now l l }
{
    clauses[l as usize].contains(l)
}

/// The literals that are clauses by themselves.
fn single_clauses(alloc: Global, facts: u32, clauses: &[BitRow]) -> Result<BitRow, AllocError>
    requires { AreRows facts clauses.now }
    ensures { IfOk result (λ row. (l : ℕ) → row_has row l ≡ clause_in clauses.now l l) }
{
    let mut row = BitRow::new(alloc);
    for l in 0..2 * facts {
        if is_single(clauses, l) {
            row.insert(l)?;
        }
    }
    Ok(row)
}

/// The numbers that are in one of two sets only.
fn difference(alloc: Global, one: &BitRow, other: &BitRow) -> Result<BitRow, AllocError>
    ensures { IfOk result (λ row. (m : ℕ) → row_has row m ≡ false → row_has one.now m ≡ row_has other.now m) }
{
    let mut row = BitRow::new(alloc);
    row.unite_without(one, other)?;
    row.unite_without(other, one)?;
    Ok(row)
}

/// Works out anew what is known from no literal, where what literals tell is done. The literals that were known before and are not now, or the other way round.
pub fn renew_none(alloc: Global, done: &Done, none: &mut BitRow) -> Result<BitRow, AllocError>
    requires done { AreDone done.now }
    requires was { WasClosed (clause_in done.now.rules.now.clauses.now) (2 * done.now.rules.now.facts) (λ l. clause_in done.now.rules.now.clauses.now l l) (row_has none.old) }
    ensures closure { IfOk result (λ moved. IsClosure (clause_in done.now.rules.now.clauses.now) (λ l. clause_in done.now.rules.now.clauses.now l l) (row_has none.new)) }
    ensures same { IfOk result (λ moved. (m : ℕ) → row_has moved m ≡ false → row_has none.new m ≡ row_has none.old m) }
{
    let mut next = single_clauses(alloc, done.rules.facts, done.rules.clauses)?;
    let mut spare = no_spare(alloc);
    if !renew(done, none, &mut next, &mut spare)? {
        return Ok(BitRow::new(alloc));
    }
    let moved = difference(alloc, &next, none)?;
    none.make_same(&next)?;
    Ok(moved)
}
