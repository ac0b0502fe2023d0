//! For which lengths of the trail below the whole one nothing is pending: so much is known without a look at the clauses, where
//! the trail is taken back to one of them.
ghost use Rattle.std.specs.Prelude.{◌≡◌, ℕ, ◌+◌, ◌*◌, ◌<◌, ◌≤◌, length, false, slice_index_or, OnOk};
ghost use Rattle.propagation.specs.own.Added.{IsRaised};
ghost use Rattle.propagation.specs.own.Asks.{IsFlagged, IsWithoutOne};

use crate::enter::Entered;
use crate::pending::Pending;
use bit_sets::first::First;
use bit_sets::flat::Flat;
use bit_sets::layer::Layer;
use bit_sets::set::NumberSet;
use cdcl_tables::assignment::Assignment;
use containers::memory::Memory;

/// Takes the flags of the lengths from one up to another away.
fn unquiet(quiet: &mut Vec<bool>, low: u32, high: u32)
    requires { high ≤ length quiet.old.items }
    ensures size { length quiet.new.items ≡ length quiet.old.items }
    ensures below { (n : ℕ) → n < low → slice_index_or quiet.new.items n false ≡ slice_index_or quiet.old.items n false }
    ensures off { (n : ℕ) → low ≤ n → n < high → slice_index_or quiet.new.items n false ≡ false }
{
    for length in low..high {
        quiet[length as usize] = false;
    }
}

/// Puts a new clause into the set, unless it is pending on the trail in none of its prefixes, nor on the whole. Of the lengths
/// below the whole one in whose prefixes it may be pending the flags go.
pub fn raise(
    assignment: &Assignment,
    pending: &mut Pending,
    quiet: &mut Vec<bool>,
    number: u32,
    entered: Entered,
)
    requires number { number < 64 * length pending.old.numbers }
    requires asks { number < length pending.old.asks.items }
    requires long { assignment.now.variables < length quiet.old.items }
    ensures raised { IsRaised assignment.now.trail number entered pending.old pending.new }
    ensures size { length quiet.new.items ≡ length quiet.old.items }
    ensures below { (n : ℕ) → n < entered.low → slice_index_or quiet.new.items n false ≡ slice_index_or quiet.old.items n false }
    ensures off { (n : ℕ) → entered.low ≤ n → n < length assignment.now.trail → slice_index_or quiet.new.items n false ≡ false }
{
    let length = assignment.length();
    if entered.low > length {
        return;
    }
    unquiet(quiet, entered.low, length);
    pending.put(number, entered.ask);
}

/// Writes whether nothing is pending at a length of the trail, where a literal becomes true there for a reason or by a decision. The clause
/// that forces it is the least of the set, and is pending no more: without it the set is mostly empty, so that the next one that enters is
/// the least. The solver takes its trail back to lengths at which a decision was made, so that the flag of no other is worked out.
#[inline(always)]
pub fn leave(quiet: &mut Vec<bool>, at: u32, pending: &mut Pending, reason: Option<u32>)
    requires { at < length quiet.old.items }
    ensures flagged { IsFlagged at pending.old quiet.old.items quiet.new.items }
    ensures without { IsWithoutOne reason pending.old pending.new }
{
    match reason {
        Some(number) => {
            quiet[at as usize] = false;
            pending.take_least(number);
        }
        None => {
            let least = pending.numbers.least();
            quiet[at as usize] = least.is_none();
        }
    }
}

/// Makes the flags of the lengths of an empty trail over so many variables: there is none below the whole one, so that they are free.
pub fn fit_quiet(quiet: &mut Vec<bool>, variables: u32) -> Result<(), Memory>
    requires { variables ≤ 2147483647 }
    ensures { OnOk result (length quiet.new.items ≡ variables + 1) }
{
    quiet.resize(variables as usize + 1, false)?;
    Ok(())
}
