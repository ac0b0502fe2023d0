//! Broken clauses are dropped.

ghost use Rattle.std.specs.Prelude.{◌≡◌, ℕ, ◌*◌, ◌<◌, ◌≤◌, ◌==◌, ◌&&◌, ◌||◌, true, false, not, length};
ghost use Rattle.bit_sets.specs.Rows.{row_has, room};
ghost use Rattle.gt_core.specs.Literal.{opposite};
ghost use Rattle.implied_literals.specs.Rows.{clause_in, row_at};
ghost use Rattle.implied_literals.specs.Tested.{IsSetOf};
ghost use Rattle.two_invariants.specs.own.Losses.{IsDropped};

use bit_sets::row::BitRow;
use gt_core::lits::opposite;

/// Takes a literal out of the row of another, and puts the opposite of the other into `stale`.
fn take_out(rows: &mut Vec<BitRow>, row: u32, lit: u32, stale: &mut BitRow)
    requires row { row < length rows.old.items }
    requires room { opposite row < room stale.old }
    ensures long { length rows.new.items ≡ length rows.old.items }
    ensures room { room stale.new ≡ room stale.old }
    ensures has { (a b : ℕ) → clause_in rows.new.items a b ≡ (clause_in rows.old.items a b && not ((row == a) && (lit == b))) }
    ensures stale { (k : ℕ) → row_has stale.new k ≡ ((opposite row == k) || row_has stale.old k) }
{
    let bits = &mut rows[row as usize];
    bits.remove(lit);
    stale.set(opposite(row));
}

/// Takes literals out of the row of another, and puts the opposite of the other into `stale`.
fn take_all_out(rows: &mut Vec<BitRow>, row: u32, lits: &BitRow, stale: &mut BitRow)
    requires row { row < length rows.old.items }
    requires room { opposite row < room stale.old }
    ensures long { length rows.new.items ≡ length rows.old.items }
    ensures room { room stale.new ≡ room stale.old }
    ensures has { (a b : ℕ) → clause_in rows.new.items a b ≡ (clause_in rows.old.items a b && not ((row == a) && row_has lits.now b)) }
    ensures stale { (k : ℕ) → row_has stale.new k ≡ ((opposite row == k) || row_has stale.old k) }
{
    let bits = &mut rows[row as usize];
    bits.subtract(lits);
    stale.set(opposite(row));
}

/// Takes a literal out of the rows of others, of those that it stands in a clause with.
fn take_out_of_all(rows: &mut Vec<BitRow>, others: &BitRow, lit: u32, stale: &mut BitRow)
    requires few { length rows.old.items ≤ 4096 }
    requires even { (l : ℕ) → l < length rows.old.items → opposite l < room stale.old }
    requires lit { lit < length rows.old.items }
    requires within { (m : ℕ) → row_has others.now m ≡ true → m < length rows.old.items }
    requires either { (a b : ℕ) → clause_in rows.old.items a b ≡ clause_in rows.old.items b a }
    ensures long { length rows.new.items ≡ length rows.old.items }
    ensures room { room stale.new ≡ room stale.old }
    ensures has { (a b : ℕ) → clause_in rows.new.items a b ≡ (clause_in rows.old.items a b && not (row_has others.now a && (lit == b))) }
    ensures dropped { IsDropped rows.old.items rows.new.items (row_has stale.old) (row_has stale.new) }
{
    let mut from = 0;
    while let Some(m) = others.least_common(&rows[lit as usize], from) {
        take_out(rows, m, lit, stale);
        from = m + 1;
    }
}

/// Drops the clauses of a literal with others. Whether there are others. The opposites of the literals whose clauses
/// become fewer are put into `stale`.
fn drop_row(rows: &mut Vec<BitRow>, l: u32, others: &BitRow, stale: &mut BitRow) -> bool
    requires few { length rows.old.items ≤ 4096 }
    requires even { (l : ℕ) → l < length rows.old.items → opposite l < room stale.old }
    requires l { l < length rows.old.items }
    requires within { IsSetOf (length rows.old.items) (row_has others.now) }
    requires either { (a b : ℕ) → clause_in rows.old.items a b ≡ clause_in rows.old.items b a }
    ensures long { length rows.new.items ≡ length rows.old.items }
    ensures room { room stale.new ≡ room stale.old }
    ensures has { (a b : ℕ) → clause_in rows.new.items a b ≡ (clause_in rows.old.items a b && not (((l == a) && row_has others.now b) || ((l == b) && row_has others.now a))) }
    ensures dropped { IsDropped rows.old.items rows.new.items (row_has stale.old) (row_has stale.new) }
    ensures some { result ≡ true → (m : ℕ) × (row_has others.now m ≡ true) }
    ensures none { result ≡ false → (m : ℕ) → row_has others.now m ≡ false }
{
    if others.least(0).is_none() {
        return false;
    }
    take_out_of_all(rows, others, l, stale);
    take_all_out(rows, l, others, stale);
    true
}

/// Drops clauses that are lost, a row a literal. Whether there are some. The opposites of the literals whose clauses
/// become fewer are put into `stale`.
pub fn drop_lost(rows: &mut Vec<BitRow>, lost: &[BitRow], stale: &mut BitRow) -> bool
    requires few { length rows.old.items ≤ 4096 }
    requires even { (l : ℕ) → l < length rows.old.items → opposite l < room stale.old }
    requires long { length lost.now ≡ length rows.old.items }
    requires within { (l m : ℕ) → clause_in lost.now l m ≡ true → m < length rows.old.items }
    requires either { (a b : ℕ) → clause_in rows.old.items a b ≡ clause_in rows.old.items b a }
    ensures long { length rows.new.items ≡ length rows.old.items }
    ensures room { room stale.new ≡ room stale.old }
    ensures has { (a b : ℕ) → clause_in rows.new.items a b ≡ (clause_in rows.old.items a b && not (clause_in lost.now a b || clause_in lost.now b a)) }
    ensures dropped { IsDropped rows.old.items rows.new.items (row_has stale.old) (row_has stale.new) }
    ensures some { result ≡ true → (a b : ℕ) × (clause_in lost.now a b ≡ true) }
    ensures none { result ≡ false → (a b : ℕ) → clause_in lost.now a b ≡ false }
{
    let mut dropped = false;
    for l in 0..lost.len() {
        let more = drop_row(rows, l as u32, &lost[l], stale);
        dropped = dropped || more;
    }
    dropped
}
