//! Which clause is the first that is kept and pending, as literals become true and are taken back and clauses come and go.
ghost use Rattle.std.specs.Prelude.{◌≡◌, ℕ, ◌+◌, ◌*◌, ◌<◌, ◌≤◌, ◌++◌, ◌∷◌, [], take, length, replicate, true, false, slice_set, slice_index_or, IfOk, OnOk, OnErr, MatchOption};
ghost use Rattle.clause_base.specs.Literal.{opposite};
ghost use Rattle.clause_base.specs.Clause.{IsClause, has_literal, HasVariablesBelow};
ghost use Rattle.cdcl_defs.specs.State.{clause_at};
ghost use Rattle.cdcl_defs.specs.Pending.{is_pending_in, least_from, open_ones};
ghost use Rattle.watch_lists.specs.own.First.{number_in};

use cdcl_defs::event::Event;
use cdcl_defs::trail::Assigned;
use clause_base::clause::Clause;
use clause_base::formula::Formula;
use clause_base::literal::Lit;
use containers::memory::Memory;
use containers::{SharedListOf, let_go};
use propagation::known::PendingUpTo;
use propagation::propagator::Propagator;
use std::alloc::Global;
use std::marker::Model;

/// Clauses by number, which of them are kept, the literals that are true, oldest first, and what the first clause asks for that is
/// kept and pending.
pub struct Watches {
    alloc: Global,
    propagator: Propagator,
    first: Option<Event>,
    /// For each length of the trail below the whole one which clauses are pending there, of those that there were when it had that
    /// length: no others are looked at where it is taken back to it.
    known: Vec<PendingUpTo>,
}

impl Model for Watches {
    ghost use Rattle.std.specs.Prelude.{◌≡◌, ◌*◌};
    ghost use Rattle.clause_base.specs.Clause.{has_literal};
    ghost use Rattle.cdcl_tables.specs.Assignment.{literals};
    ghost use Rattle.propagation.specs.Front.{first_asked};
    ghost use Rattle.watch_lists.specs.own.Known.{AreKnown};
    ghost use Rattle.watch_lists.specs.Pending.{WatchesView, without_reasons};

    ghost Value = { WatchesView };

    ghost view = { λ w. without_reasons w.propagator };

    // What is asked first is known, so that it is told without a look at any clause; and so is what was pending at each length, so
    // that few clauses are looked at where the trail is taken back to it.
    ghost invariant = { λ w. (w.first ≡ first_asked w.propagator.clauses w.propagator.kept (has_literal (literals w.propagator.entries))) × AreKnown w.propagator w.known.items };
}

/// All parts are let go in one call, so that a proof has one step for it and not one for each part.
impl Drop for Watches {
    fn drop(self) {
        let_go!(self: Watches {
            alloc, propagator, first, known
        });
    }
}

/// The number of the clause that an event is of.
fn number_in(event: &Event) -> Option<u32>
    ensures { result ≡ number_in event.now }
{
    match event {
        Event::Conflict(number) => Some(*number),
        Event::Force(_, number) => Some(*number),
        Event::Decide(_) => None,
        Event::Finish => None,
    }
}

/// For each length of the trail up to the whole one, that any clauses may be pending there.
fn none_known(alloc: Global, variables: u32) -> Result<Vec<PendingUpTo>, Memory>
    requires { variables ≤ 2147483647 }
    ensures { IfOk result (λ known. length known.items ≡ variables + 1) }
{
    Ok(vec![in alloc; PendingUpTo::none_below(0); variables as usize + 1]?)
}

impl Watches {
    /// The clauses of a formula, all kept, where no variable has a value.
    pub fn new(alloc: Global, formula: &Formula) -> Result<Watches, Memory>
        ensures { IfOk result (λ w. w ≡ record { variables = formula.now.variables; clauses = formula.now.clauses; kept = replicate (length formula.now.clauses) true; trail = [] }) }
    {
        let mut propagator = Propagator::new(alloc, formula)?;
        let first = propagator.next();
        let known = none_known(alloc, formula.variables())?;
        Ok(Watches {
            alloc,
            propagator,
            first,
            known,
        })
    }

    /// Adds a clause with the next number, kept; it may be false or have one literal left. There may be as many clauses as the two
    /// nodes of each have numbers of 32 bits. After want of memory nothing has changed.
    pub fn add(&mut self, clause: Clause) -> Result<(), Memory>
        requires below { HasVariablesBelow self.old.variables clause }
        requires room { length self.old.kept < 2147483647 }
        ensures ok { OnOk result (self.new ≡ record self.old { clauses = self.old.clauses ++ clause ∷ []; kept = self.old.kept ++ true ∷ [] }) }
        ensures err { OnErr result (self.new ≡ self.old) }
    {
        self.add_sorted(clause.as_slice())
    }

    /// Adds the clause of literals that are in a clause's form already, with the next number, kept. After want of memory nothing
    /// has changed.
    pub fn add_sorted(&mut self, clause: &[Lit]) -> Result<(), Memory>
        requires lawful { IsClause clause.now }
        requires below { HasVariablesBelow self.old.variables clause.now }
        requires room { length self.old.kept < 2147483647 }
        ensures ok { OnOk result (self.new ≡ record self.old { clauses = self.old.clauses ++ clause.now ∷ []; kept = self.old.kept ++ true ∷ [] }) }
        ensures err { OnErr result (self.new ≡ self.old) }
    {
        let shared = SharedListOf::copied_from(self.alloc, clause)?;
        self.propagator.add_sorted(&shared)?;
        self.first = self.propagator.next();
        Ok(())
    }

    /// Makes a literal true whose variable has no value. It takes no memory.
    pub fn assign(&mut self, lit: Lit)
        requires below { lit < 2 * self.old.variables }
        requires off { has_literal self.old.trail lit ≡ false }
        requires free { has_literal self.old.trail (opposite lit) ≡ false }
        ensures { self.new ≡ record self.old { trail = self.old.trail ++ lit ∷ [] } }
    {
        let length = self.propagator.trail().length();
        let known = self.propagator.known();
        self.known[length as usize] = known;
        self.propagator.assign(Assigned {
            literal: lit,
            reason: None,
        });
        self.first = self.propagator.next();
    }

    /// Takes back what stands above a length of the trail. It takes no memory.
    pub fn undo_to(&mut self, length: u32)
        ensures { self.new ≡ record self.old { trail = take length self.old.trail } }
    {
        if length >= self.propagator.trail().length() {
            return;
        }
        let known = self.known[length as usize];
        self.propagator.cut(length, &known.numbers, known.from);
        self.first = self.propagator.next();
    }

    /// Stops keeping a clause. It takes no memory.
    pub fn remove(&mut self, number: u32)
        requires { slice_index_or self.old.kept number false ≡ true }
        ensures { self.new ≡ record self.old { kept = slice_set self.old.kept number false } }
    {
        self.propagator.remove(number);
        self.first = self.propagator.next();
    }

    /// What a clause that is kept and pending leaves: its only literal that is not false, if there is one. It takes no memory.
    pub fn left(&self, number: u32) -> Option<Lit>
        requires { is_pending_in self.now.clauses self.now.kept (has_literal self.now.trail) number ≡ true }
        ensures { MatchOption result (open_ones (has_literal self.now.trail) (clause_at self.now.clauses number) ≡ []) (λ lit. open_ones (has_literal self.now.trail) (clause_at self.now.clauses number) ≡ lit ∷ []) }
    {
        self.propagator.left(number)
    }

    /// The least number of a kept clause that has no true literal and at most one that is not false. It takes no memory.
    pub fn least_pending(&self) -> Option<u32>
        ensures { result ≡ least_from (is_pending_in self.now.clauses self.now.kept (has_literal self.now.trail)) 0 (length self.now.clauses) }
    {
        match &self.first {
            None => None,
            Some(event) => number_in(event),
        }
    }
}
