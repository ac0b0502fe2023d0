//! The least clause that is kept and pending. Each clause that is so is in the set; a member that is not is taken out where it is the
//! least: one that is not kept, or whose asked literal is true.
ghost use Rattle.std.specs.Prelude.{◌≡◌, ◌*◌, ◌<◌, length, true};
ghost use Rattle.clause_base.specs.Clause.{has_literal};
ghost use Rattle.bit_sets.specs.Layered.{words_have};
ghost use Rattle.propagation.specs.own.Asks.{HasAsks, IsAsk, IsConsistent};
ghost use Rattle.propagation.specs.Front.{AreRead, asked_at, first_asked, IsAnswer, IsComplete, StayWhere};
ghost use Rattle.propagation.specs.own.Tables.{AreTables, pending_in};
ghost use Rattle.propagation.specs.own.Visit.{Grows};
ghost use Rattle.cdcl_defs.specs.State.{clause_at};

use crate::pending::{NO_LITERAL, Pending};
use crate::scan::ask_of;
use crate::tables::Tables;
use bit_sets::first::First;
use bit_sets::flat::Flat;
use bit_sets::layer::Layer;
use bit_sets::set::NumberSet;
use cdcl_defs::event::Event;
use cdcl_tables::assignment::Assignment;
use clause_base::literal::Lit;

/// What a clause asks for, if it is kept and pending: one of which all literals are false but for this one.
#[inline(always)]
fn answer(tables: &Tables, assignment: &Assignment, number: u32, ask: u32) -> Option<Event>
    requires tables { AreTables tables.now (2 * assignment.now.variables) }
    requires inside { number < length tables.now.store.clauses }
    requires consistent { IsConsistent assignment.now.trail }
    requires ask { IsAsk (has_literal assignment.now.trail) (clause_at tables.now.store.clauses number) ask }
    ensures { IsAnswer (pending_in tables.now assignment.now.trail number) (asked_at tables.now.store.clauses (has_literal assignment.now.trail) number) result }
{
    if !tables.is_kept(number) {
        return None;
    }
    if ask == NO_LITERAL {
        return Some(Event::Conflict(number));
    }
    if assignment.is_true(ask) {
        None
    } else if assignment.is_false(ask) {
        Some(Event::Conflict(number))
    } else {
        Some(Event::Force(Lit(ask), number))
    }
}

/// What the least member asks for that is kept and pending. Lesser members go.
#[inline(always)]
pub fn next(tables: &Tables, assignment: &Assignment, pending: &mut Pending) -> Option<Event>
    requires { AreRead tables.now assignment.now pending.old }
    ensures first { IsComplete (pending_in tables.now assignment.now.trail) pending.old → result ≡ first_asked tables.now.store.clauses tables.now.kept.items (has_literal assignment.now.trail) }
    ensures asks { HasAsks tables.now.store.clauses assignment.now.trail pending.new }
    ensures stay { StayWhere (pending_in tables.now assignment.now.trail) pending.old pending.new }
{
    // For the proof: the numbers below it were taken, so that the loop ends.
    let mut low: u64 = 0;
    'taking: loop {
        match pending.numbers.least() {
            None => return None,
            Some(number) => {
                let ask = pending.asks[number as usize];
                match answer(tables, assignment, number, ask) {
                    Some(event) => return Some(event),
                    None => {
                        pending.numbers.remove_least();
                        low = number as u64 + 1;
                    }
                }
            }
        }
    }
}

/// Puts a clause into the set with what it asks for, if it is kept and pending.
pub fn scan_one(tables: &Tables, assignment: &Assignment, pending: &mut Pending, number: u32)
    requires tables { AreTables tables.now (2 * assignment.now.variables) }
    requires inside { number < length tables.now.store.clauses }
    requires asks { HasAsks tables.now.store.clauses assignment.now.trail pending.old }
    ensures own { pending_in tables.now assignment.now.trail number ≡ true → words_have pending.new.numbers number ≡ true }
    ensures grows { Grows (words_have pending.old.numbers) (words_have pending.new.numbers) }
    ensures asks { HasAsks tables.now.store.clauses assignment.now.trail pending.new }
{
    if !tables.is_kept(number) {
        return;
    }
    let clause = tables.store.clause(number);
    if let Some(ask) = ask_of(assignment, &clause) {
        pending.put(number, ask);
    }
}
