//! The clauses that are watched on a trail, and what the first of them asks for that is kept and pending, as literals become true and
//! are taken back and clauses come and go.
ghost use Rattle.std.specs.Prelude.{◌≡◌, ◌*◌, ◌/◌, ◌<◌, ◌≤◌, ◌++◌, ◌∷◌, [], None, take, length, replicate, true, false, slice_set, slice_index_or, IfOk, OnOk, OnErr, MatchOption};
ghost use Rattle.clause_base.specs.Clause.{IsClause, has_literal, HasVariablesBelow};
ghost use Rattle.cdcl_defs.specs.State.{value_of, clause_at};
ghost use Rattle.cdcl_defs.specs.Pending.{is_pending_in, open_ones};
ghost use Rattle.cdcl_defs.specs.Learn.{backtracked};
ghost use Rattle.cdcl_tables.specs.Assignment.{literals};
ghost use Rattle.cdcl_tables.specs.Stored.{CanReadKept};
ghost use Rattle.propagation.specs.own.Back.{taken_back};
ghost use Rattle.propagation.specs.Front.{first_asked};
ghost use Rattle.propagation.specs.Known.{AreListed};
ghost use Rattle.propagation.specs.Pending.{HasOwn, PropagatorView};

use crate::front::next;
use crate::known::{PendingUpTo, list_from};
use crate::marks::mark_pairs;
use crate::pending::Pending;
use crate::quiet::{leave, raise};
use crate::room::make_room;
use crate::scan::status_of;
use crate::spare::OldTables;
use crate::steps::Steps;
use crate::tables::Tables;
use crate::take_slot::take_slot;
use crate::undo::{Back, refresh, take_back};
use crate::visit::WatchState;
use bit_sets::first::First;
use bit_sets::flat::Flat;
use bit_sets::layer::Layer;
use bit_sets::set::NumberSet;
use cdcl_defs::event::Event;
use cdcl_defs::trail::Assigned;
use cdcl_tables::chains::Chains;
use cdcl_tables::index::PairIndex;
use cdcl_tables::store::Store;
use cdcl_tables::trail::Trail;
use clause_base::formula::Formula;
use clause_base::literal::Lit;
use containers::memory::Memory;
use containers::{SharedListOf, let_go};
use proof_log::literals::Literals;
use std::alloc::Global;
use std::marker::Model;

/// How many clauses there may be.
const MOST_CLAUSES: u32 = 2_147_483_647;

/// Clauses by number, which of them are kept, and the trail that they are watched on. A clause of two literals is in the lists of
/// both, and of each other clause two literals are watched.
pub struct Propagator {
    variables: u32,
    tables: Tables,
    trail: Trail,
    pairs: PairIndex,
    lists: WatchState,
    /// For each length of the trail below the whole one whether it is known that nothing is pending there.
    quiet: Vec<bool>,
}

impl Model for Propagator {
    ghost use Rattle.std.specs.Prelude.{◌≡◌};
    ghost use Rattle.cdcl_tables.specs.Assignment.{literals};
    ghost use Rattle.propagation.specs.Pending.{PropagatorView};
    ghost use Rattle.propagation.specs.own.Pairs.{IsPaired};
    ghost use Rattle.propagation.specs.own.Sound.{AreSound};

    ghost Value = { PropagatorView };

    ghost view = { λ p. record { variables = p.variables; clauses = p.tables.store.clauses; kept = p.tables.kept.items; entries = p.trail.entries } };

    ghost invariant = { λ p. AreSound p.variables p.tables p.lists (literals p.trail.entries) p.quiet.items × IsPaired p.variables p.tables.store.clauses p.tables.slots.items p.pairs × (p.trail.variables ≡ p.variables) };
}

/// All parts are let go in one call, so that a proof has one step for it and not one for each part.
impl Drop for Propagator {
    fn drop(self) {
        let_go!(self: Propagator {
            variables, tables, trail, pairs, lists, quiet
        });
    }
}

impl Propagator {
    /// The clauses of a formula, all kept, on an empty trail, in the memory of tables that are done with.
    fn over(
        alloc: Global,
        formula: &Formula,
        trail: Trail,
        spare: OldTables,
    ) -> Result<Propagator, Memory>
        requires { trail ≡ record { variables = formula.now.variables; entries = [] } }
        ensures { IfOk result (λ p. p ≡ record { variables = formula.now.variables; clauses = formula.now.clauses; kept = replicate (length formula.now.clauses) true; entries = [] }) }
    {
        // For the proof: the clauses are few and lawful.
        let _lawful = formula.count();
        let variables = formula.variables();
        let store = Store::new(alloc, formula)?;
        let pairs = PairIndex::new(alloc, formula)?;
        let spare = spare.fitted(alloc, &store, formula)?;
        let OldTables { kept, quiet, given } = spare;
        let steps = Steps::new(alloc, formula, &given.slots)?;
        let kept_below = store.count();
        Ok(Propagator {
            variables,
            tables: Tables {
                store,
                kept,
                slots: given.slots,
                steps,
                kept_below,
            },
            trail,
            pairs,
            lists: given.lists,
            quiet,
        })
    }

    /// The clauses of a formula, all kept, where no variable has a value.
    pub fn new(alloc: Global, formula: &Formula) -> Result<Propagator, Memory>
        ensures { IfOk result (λ p. p ≡ record { variables = formula.now.variables; clauses = formula.now.clauses; kept = replicate (length formula.now.clauses) true; entries = [] }) }
    {
        let trail = Trail::new(alloc, formula.variables())?;
        Propagator::over(alloc, formula, trail, OldTables::none(alloc))
    }

    /// The clauses of a formula, all kept, where no variable has a value, in the memory of a propagator that is done with. Where
    /// memory is wanting, all of it is let go.
    pub fn renewed(self, alloc: Global, formula: &Formula) -> Result<Propagator, Memory>
        ensures { IfOk result (λ p. p ≡ record { variables = formula.now.variables; clauses = formula.now.clauses; kept = replicate (length formula.now.clauses) true; entries = [] }) }
    {
        let Propagator {
            variables: _,
            tables,
            trail,
            pairs: _,
            lists,
            quiet,
        } = self;
        let spare = tables.into_spare(lists, quiet);
        let trail = trail.renewed(alloc, formula.variables())?;
        Propagator::over(alloc, formula, trail, spare)
    }

    /// The trail.
    pub fn trail(&self) -> &Trail
        ensures { result.now ≡ record { variables = self.now.variables; entries = self.now.entries } }
    {
        &self.trail
    }

    /// The clauses by number; one that is kept no more still stands there, and may be packed.
    pub fn store(&self) -> &Store
        ensures clauses { result.now.clauses ≡ self.now.clauses }
        ensures read { CanReadKept self.now.kept result.now }
    {
        &self.tables.store
    }

    /// Lets a chooser's search for the least variable without a value begin where it should.
    pub fn pass_given(&mut self)
        ensures { self.new ≡ self.old }
    {
        self.trail.pass_given();
    }

    /// Adds the clause of literals that are in a clause's form already, with the next number, kept; they stay in the memory that they
    /// are in. After want of memory, or where there would be more than 2,147,483,647 clauses, nothing has changed.
    pub fn add_sorted(&mut self, clause: &SharedListOf<Lit>) -> Result<(), Memory>
        requires lawful { IsClause clause.now }
        requires below { HasVariablesBelow self.old.variables clause.now }
        ensures ok { OnOk result (self.new ≡ record self.old { clauses = self.old.clauses ++ clause.now ∷ []; kept = self.old.kept ++ true ∷ [] }) }
        ensures err { OnErr result (self.new ≡ self.old) }
    {
        let number = self.tables.store.count();
        if number >= MOST_CLAUSES {
            return Err(Memory);
        }
        let slot = self.tables.slots.len() as u32;
        make_room(&mut self.tables, &mut self.lists, number, slot)?;
        self.tables.store.push(clause)?;
        self.tables.kept.push(true)?;
        let assignment = self.trail.assignment();
        let entered = take_slot(
            &mut self.tables.slots,
            &mut self.lists,
            &assignment,
            clause.as_slice(),
            number,
        )?;
        raise(
            &assignment,
            &mut self.lists.pending,
            &mut self.quiet,
            number,
            entered,
        );
        Ok(())
    }

    /// Makes a literal true whose variable has no value. It takes no memory.
    #[inline(always)]
    pub fn assign(&mut self, entry: Assigned)
        requires below { entry.literal < 2 * self.old.variables }
        requires opened { value_of self.old.entries (entry.literal / 2) ≡ None }
        requires reason { HasOwn self.old.clauses entry }
        ensures { self.new ≡ record self.old { entries = self.old.entries ++ entry ∷ [] } }
    {
        let falsified = entry.literal.opposite();
        let length = self.trail.length();
        leave(
            &mut self.quiet,
            length,
            &mut self.lists.pending,
            entry.reason,
        );
        self.trail.push(entry);
        let assignment = self.trail.assignment();
        mark_pairs(
            &self.tables.store,
            &self.pairs,
            &assignment,
            falsified.0,
            &mut self.lists.pending,
        );
        self.lists.visit_all(&self.tables, &assignment, falsified.0);
    }

    /// What the first clause asks for that is kept and pending: a conflict, or its only literal that is not false. It takes no
    /// memory.
    pub fn next(&mut self) -> Option<Event>
        ensures first { result ≡ first_asked self.old.clauses self.old.kept (has_literal (literals self.old.entries)) }
        ensures same { self.new ≡ self.old }
    {
        let assignment = self.trail.assignment();
        next(&self.tables, &assignment, &mut self.lists.pending)
    }

    /// What a clause that is kept and pending leaves: its only literal that is not false, if there is one. It takes no memory.
    pub fn left(&self, number: u32) -> Option<Lit>
        requires { is_pending_in self.now.clauses self.now.kept (has_literal (literals self.now.entries)) number ≡ true }
        ensures { MatchOption result (open_ones (has_literal (literals self.now.entries)) (clause_at self.now.clauses number) ≡ []) (λ lit. open_ones (has_literal (literals self.now.entries)) (clause_at self.now.clauses number) ≡ lit ∷ []) }
    {
        let assignment = self.trail.assignment();
        let clause = self.tables.store.clause(number);
        status_of(&assignment, &clause).left()
    }

    /// Which clauses are kept and pending, by a short list and the number from which on any may be. It takes no memory.
    pub fn known(&mut self) -> PendingUpTo
        ensures listed { AreListed (is_pending_in self.old.clauses self.old.kept (has_literal (literals self.old.entries))) result.numbers result.from }
        ensures below { result.from ≤ length self.old.clauses }
        ensures same { self.new ≡ self.old }
    {
        let assignment = self.trail.assignment();
        list_from(&self.tables, &assignment, &mut self.lists.pending, 0)
    }

    /// Takes back what stands above a length or a level of the trail, where of the clauses whose numbers are below `from` no others
    /// are kept and pending than the listed ones.
    fn go_back(&mut self, to: Back, listed: &[u32], from: u32)
        requires { AreListed (is_pending_in self.old.clauses self.old.kept (has_literal (literals (taken_back to self.old.entries)))) listed.now from }
        ensures { self.new ≡ record self.old { entries = taken_back to self.old.entries } }
    {
        let before = self.trail.length();
        take_back(&mut self.trail, to);
        if self.trail.length() == before {
            return;
        }
        let assignment = self.trail.assignment();
        refresh(
            &self.tables,
            &self.quiet,
            &assignment,
            &mut self.lists.pending,
            listed,
            from,
        );
    }

    /// Takes back what stands above a level of the trail. It takes no memory.
    pub fn backtrack(&mut self, level: u32)
        ensures { self.new ≡ record self.old { entries = backtracked level self.old.entries } }
    {
        self.go_back(Back::Level(level), &[], 0);
    }

    /// Takes back what stands above a length of the trail, where of the clauses whose numbers are below `from` no others are kept
    /// and pending than the listed ones. It takes no memory.
    pub fn cut(&mut self, length: u32, listed: &[u32], from: u32)
        requires { AreListed (is_pending_in self.old.clauses self.old.kept (has_literal (literals (take length self.old.entries)))) listed.now from }
        ensures { self.new ≡ record self.old { entries = take length self.old.entries } }
    {
        self.go_back(Back::Length(length), listed, from);
    }

    /// Stops keeping a clause. It takes no memory.
    pub fn remove(&mut self, number: u32)
        requires { slice_index_or self.old.kept number false ≡ true }
        ensures { self.new ≡ record self.old { kept = slice_set self.old.kept number false } }
    {
        self.tables.kept[number as usize] = false;
        self.tables.kept_below = self.tables.kept_below.min(number);
    }

    /// Keeps the literals of a clause that is kept no more as these, which are the same ones: so they take less room. It takes no memory.
    pub fn pack(&mut self, number: u32, literals: Literals)
        requires inside { number < length self.old.clauses }
        requires gone { slice_index_or self.old.kept number false ≡ false }
        requires same { clause_at self.old.clauses number ≡ literals }
        ensures { self.new ≡ self.old }
    {
        self.tables.store.pack(number, literals);
    }
}
