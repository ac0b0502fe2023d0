//! A new clause that has a slot watches the two literals that are not false for longest along the trail. Wherever two of its
//! literals are not false, these two are not, now and in each prefix of the trail.
ghost use Rattle.std.specs.Prelude.{◌≡◌, ℕ, ◌+◌, ◌*◌, ◌<◌, ◌≤◌, length, slice_index};
ghost use Rattle.clause_base.specs.Clause.{IsClause, has_literal};
ghost use Rattle.propagation.specs.own.Asks.{IsAsk};
ghost use Rattle.propagation.specs.own.Added.{HasSlotRoom, IsLoose, RestsWith, FreeWith, IsQuietBelow};

use crate::fall::latest_two;
use crate::visit::WatchState;
use cdcl_tables::assignment::Assignment;
use clause_base::literal::Lit;
use clause_base::view::View;

/// How a new clause stands along the trail: in the prefixes below a length it is not pending, and where it is pending on the whole
/// trail this is what it asks for.
#[derive(Clone, Copy)]
pub struct Entered {
    pub low: u32,
    pub ask: u32,
}

impl WatchState {
    /// Watches two literals of a new clause.
    pub fn enter(&mut self, assignment: &Assignment, clause: &[Lit], slot: u32) -> Entered
        requires small { assignment.now.variables ≤ 2147483647 }
        requires below { (p : ℕ) → p < length clause.now → slice_index clause.now p < 2 * assignment.now.variables }
        requires lawful { IsClause clause.now }
        requires short { length clause.now ≤ 4294967295 }
        requires two { 2 ≤ length clause.now }
        requires codes { length self.old.chains.heads.items ≡ 2 * assignment.now.variables }
        requires room { HasSlotRoom slot self.old }
        requires loose { IsLoose slot self.old }
        ensures rest { RestsWith clause.now slot (2 * assignment.now.variables) self.old self.new }
        ensures free { FreeWith clause.now slot assignment.now.trail self.old self.new }
        ensures quiet { IsQuietBelow clause.now assignment.now.trail result.low }
        ensures ask { result.low ≤ length assignment.now.trail → IsAsk (has_literal assignment.now.trail) clause.now result.ask }
        ensures pending { self.new.pending ≡ self.old.pending }
    {
        let two = latest_two(assignment, clause);
        let first = two.first;
        let second = two.second;
        self.resume_at[slot as usize] = 0;
        let a = clause[first as usize];
        let b = clause[second as usize];
        self.chains.link_two(2 * slot, a.0, b.0);
        Entered {
            low: two.second_until + 1,
            ask: a.0,
        }
    }

    /// Watches the last two literals of a clause, where no literal is true yet: in a clause of a planning formula those stand
    /// there that are seldom false.
    pub fn enter_last(&mut self, clause: &View, slot: u32, codes: u32)
        requires below { (p : ℕ) → p < length clause.now → slice_index clause.now p < codes }
        requires lawful { IsClause clause.now }
        requires short { length clause.now ≤ 4294967295 }
        requires two { 2 ≤ length clause.now }
        requires codes { length self.old.chains.heads.items ≡ codes }
        requires room { HasSlotRoom slot self.old }
        requires loose { IsLoose slot self.old }
        ensures rest { RestsWith clause.now slot codes self.old self.new }
        ensures pending { self.new.pending ≡ self.old.pending }
    {
        let length = clause.len() as u32;
        self.resume_at[slot as usize] = 0;
        let a = clause.get(length as usize - 1);
        let b = clause.get(length as usize - 2);
        self.chains.link_two(2 * slot, a.0, b.0);
    }
}
