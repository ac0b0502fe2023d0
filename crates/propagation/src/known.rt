//! Which clauses are pending where the trail has some length, in few words: so many are looked at where it is taken back to that
//! length, and no others.
ghost use Rattle.std.specs.Prelude.{◌≡◌, ℕ, ◌*◌, ◌<◌, ◌≤◌, length, true, slice_index};
ghost use Rattle.bit_sets.specs.Layered.{words_have};
ghost use Rattle.propagation.specs.own.Asks.{HasAsks};
ghost use Rattle.propagation.specs.Front.{AreRead, StayWhere};
ghost use Rattle.propagation.specs.Known.{IsListed};
ghost use Rattle.propagation.specs.own.Tables.{AreTables, pending_in};
ghost use Rattle.propagation.specs.own.Visit.{Grows};

use crate::front::{next, scan_one};
use crate::pending::Pending;
use crate::tables::Tables;
use bit_sets::set::NumberSet;
use cdcl_tables::assignment::Assignment;

/// How many clauses are listed.
pub const FEW: usize = 4;

/// A number that no clause has.
const NO_CLAUSE: u32 = 4_294_967_295;

/// The first clauses that are kept and pending: each that is so and whose number is below `from` is one of `numbers`.
#[derive(Clone, Copy)]
pub struct PendingUpTo {
    pub numbers: [u32; FEW],
    pub from: u32,
}

impl PendingUpTo {
    /// No clause whose number is below this one is kept and pending.
    pub fn none_below(from: u32) -> PendingUpTo
        ensures from { result.from ≡ from }
        ensures long { length result.numbers ≡ 4 }
    {
        PendingUpTo {
            numbers: [NO_CLAUSE; FEW],
            from,
        }
    }
}

/// The first members that are kept and pending, from a place of the list on. Lesser members that are not go.
pub fn list_from(
    tables: &Tables,
    assignment: &Assignment,
    pending: &mut Pending,
    place: usize,
) -> PendingUpTo
    requires read { AreRead tables.now assignment.now pending.old }
    requires place { place ≤ 4 }
    ensures listed { (k : ℕ) → pending_in tables.now assignment.now.trail k ≡ true → words_have pending.old.numbers k ≡ true → k < result.from → IsListed result.numbers place k }
    ensures below { result.from ≤ length tables.now.store.clauses }
    ensures long { length result.numbers ≡ 4 }
    ensures asks { HasAsks tables.now.store.clauses assignment.now.trail pending.new }
    ensures stay { StayWhere (pending_in tables.now assignment.now.trail) pending.old pending.new }
{
    next(tables, assignment, pending);
    match pending.numbers.least() {
        None => PendingUpTo::none_below(tables.kept.len() as u32),
        Some(number) => {
            if place == FEW {
                return PendingUpTo::none_below(number);
            }
            let ask = pending.asks[number as usize];
            pending.numbers.remove_least();
            let mut known = list_from(tables, assignment, pending, place + 1);
            pending.put(number, ask);
            known.numbers[place] = number;
            known
        }
    }
}

/// Puts the listed clauses into a set that are kept and pending.
pub fn scan_listed(tables: &Tables, assignment: &Assignment, pending: &mut Pending, listed: &[u32])
    requires tables { AreTables tables.now (2 * assignment.now.variables) }
    requires asks { HasAsks tables.now.store.clauses assignment.now.trail pending.old }
    ensures own { (p : ℕ) → p < length listed.now → pending_in tables.now assignment.now.trail (slice_index listed.now p) ≡ true → words_have pending.new.numbers (slice_index listed.now p) ≡ true }
    ensures asks { HasAsks tables.now.store.clauses assignment.now.trail pending.new }
{
    for &number in listed {
        if (number as usize) < tables.kept.len() {
            scan_one(tables, assignment, pending, number);
        }
    }
}
