//! Where a literal becomes false, each clause that watches it is visited. Its blocking literal is tried first (Eén and Sörensson,
//! 2003), which is the other one that it watches: where that is true, the clause is not read. Else another literal that is not
//! false is sought from the place on where the last search ended, and then from the front: of a long clause the literals that were
//! found false are not read anew each time, so that all searches between two undos together take as many steps as the clause is
//! long, or twice that (Gent, 2013).
ghost use Rattle.std.specs.Prelude.{◌≡◌, ℕ, ◌*◌, ◌/◌, ◌<◌, ◌∷◌, List, true};
ghost use Rattle.clause_base.specs.Literal.{opposite};
ghost use Rattle.clause_base.specs.Clause.{has_literal};
ghost use Rattle.bit_sets.specs.Layered.{words_have};
ghost use Rattle.propagation.specs.own.Asks.{HasAsks};
ghost use Rattle.propagation.specs.own.Tables.{AreTables, clauses_in, flags_in};
ghost use Rattle.propagation.specs.own.Visit.{AreSettled, AreVisited, GoesOn, IsAtRest, MovesToFree, Grows};

use crate::pending::Pending;
use crate::scan::new_watch;
use crate::slots::{is_slot_kept, slot_clause};
use crate::tables::Tables;
use cdcl_tables::assignment::Assignment;
use cdcl_tables::chains::{Chains, END, Place};
use clause_base::literal::Lit;
use containers::let_go;

/// What changes where a literal becomes false.
pub struct WatchState {
    pub chains: Chains,
    /// For each slot the place where the search for another literal to watch goes on.
    pub resume_at: Vec<u32>,
    pub pending: Pending,
}

/// All parts are let go in one call, so that a proof has one step for it and not one for each part.
impl Drop for WatchState {
    fn drop(self) {
        let_go!(self: WatchState { chains, resume_at, pending });
    }
}

impl WatchState {
    /// What it is made of.
    pub fn into_parts(self) -> (Chains, Vec<u32>, Pending) {
        let WatchState {
            chains,
            resume_at,
            pending,
        } = self;
        (chains, resume_at, pending)
    }
}

impl WatchState {
    /// Visits the clause of the node at a place of the chain of a literal that is false. The result is the place after it.
    #[inline(always)]
    fn visit(&mut self, tables: &Tables, assignment: &Assignment, code: u32, place: Place) -> Place
        requires code { code < 2 * assignment.now.variables }
        requires falsified { has_literal assignment.now.trail (opposite code) ≡ true }
        requires tables { AreTables tables.now (2 * assignment.now.variables) }
        requires asks { HasAsks tables.now.store.clauses assignment.now.trail self.old.pending }
        requires visited { (rest : List ℕ) × AreVisited tables.now self.old assignment.now.trail (2 * assignment.now.variables) code (place.node ∷ rest) place }
        ensures visited { GoesOn tables.now self.old self.new assignment.now.trail (2 * assignment.now.variables) code place result }
        ensures moves { MovesToFree (clauses_in tables.now) self.old.chains.nodes.items self.new.chains.nodes.items (has_literal assignment.now.trail) }
        ensures grows { Grows (words_have self.old.pending.numbers) (words_have self.new.pending.numbers) }
        ensures asks { HasAsks tables.now.store.clauses assignment.now.trail self.new.pending }
    {
        let beside = self.chains.blocking(place.node);
        if assignment.is_true(beside) {
            return self.chains.after(place);
        }
        let slot = place.node / 2;
        if !is_slot_kept(tables, slot) {
            return self.chains.drop_at(place, code);
        }
        let clause = slot_clause(tables, slot);
        match new_watch(assignment, &clause, beside, self.resume_at[slot as usize]) {
            Some(found) => {
                self.resume_at[slot as usize] = found;
                let free = clause.get(found as usize);
                // The two nodes of a slot are numbered as the two literals of a variable.
                let other = Lit(place.node).opposite();
                self.chains.note(other.0, free.0);
                self.chains.move_to(place, code, free.0)
            }
            None => {
                self.pending.put(tables.number_at(slot), beside);
                self.chains.after(place)
            }
        }
    }

    /// Visits the clauses that watch a literal that is false.
    pub fn visit_all(&mut self, tables: &Tables, assignment: &Assignment, code: u32)
        requires code { code < 2 * assignment.now.variables }
        requires falsified { has_literal assignment.now.trail (opposite code) ≡ true }
        requires tables { AreTables tables.now (2 * assignment.now.variables) }
        requires asks { HasAsks tables.now.store.clauses assignment.now.trail self.old.pending }
        requires rest { IsAtRest (clauses_in tables.now) self.old.resume_at.items self.old.chains.heads.items self.old.chains.nodes.items (2 * assignment.now.variables) (flags_in tables.now) }
        ensures rest { IsAtRest (clauses_in tables.now) self.new.resume_at.items self.new.chains.heads.items self.new.chains.nodes.items (2 * assignment.now.variables) (flags_in tables.now) }
        ensures settled { AreSettled tables.now self.new assignment.now.trail code }
        ensures moves { MovesToFree (clauses_in tables.now) self.old.chains.nodes.items self.new.chains.nodes.items (has_literal assignment.now.trail) }
        ensures grows { Grows (words_have self.old.pending.numbers) (words_have self.new.pending.numbers) }
        ensures asks { HasAsks tables.now.store.clauses assignment.now.trail self.new.pending }
    {
        let mut place = self.chains.first(code);
        'visits: while place.node != END {
            place = self.visit(tables, assignment, code, place);
        }
    }
}
