//! How an added clause is found again: by a slot, where it has two literals or more. One of fewer is pending from the beginning,
//! wherever it is not true, and is not sought.
ghost use Rattle.std.specs.Prelude.{◌≡◌, ℕ, ◌*◌, ◌<◌, ◌≤◌, length, slice_index, vec_capacity, IfOk, IsOk};
ghost use Rattle.clause_base.specs.Clause.{IsClause, has_literal};
ghost use Rattle.propagation.specs.own.Asks.{IsAsk};
ghost use Rattle.propagation.specs.own.Added.{HasSlotRoom, IsLoose, IsTaken, IsQuietBelow};

use crate::enter::Entered;
use crate::scan::only_ask;
use crate::visit::WatchState;
use cdcl_tables::assignment::Assignment;
use clause_base::literal::Lit;
use clause_base::view::View;
use std::alloc::AllocError;

/// Gives a new clause the next slot, for which there is room, if it has two literals or more.
pub fn take_slot(
    slots: &mut Vec<u32>,
    lists: &mut WatchState,
    assignment: &Assignment,
    clause: &[Lit],
    number: u32,
) -> Result<Entered, AllocError>
    requires small { assignment.now.variables ≤ 2147483647 }
    requires below { (p : ℕ) → p < length clause.now → slice_index clause.now p < 2 * assignment.now.variables }
    requires lawful { IsClause clause.now }
    requires short { length clause.now ≤ 4294967295 }
    requires few { length slots.old.items ≤ 2147483647 }
    requires capacity { length slots.old.items < vec_capacity slots.old }
    requires codes { length lists.old.chains.heads.items ≡ 2 * assignment.now.variables }
    requires room { HasSlotRoom (length slots.old.items) lists.old }
    requires loose { IsLoose (length slots.old.items) lists.old }
    ensures ok { IsOk result }
    ensures taken { IsTaken clause.now number (2 * assignment.now.variables) assignment.now.trail slots.old.items lists.old slots.new.items lists.new }
    ensures quiet { IfOk result (λ entered. IsQuietBelow clause.now assignment.now.trail entered.low) }
    ensures ask { IfOk result (λ entered. entered.low ≤ length assignment.now.trail → IsAsk (has_literal assignment.now.trail) clause.now entered.ask) }
    ensures pending { lists.new.pending ≡ lists.old.pending }
{
    if clause.len() < 2 {
        return Ok(Entered {
            low: 0,
            ask: only_ask(&View::of(clause)),
        });
    }
    let slot = slots.len() as u32;
    slots.push(number)?;
    Ok(lists.enter(assignment, clause, slot))
}
