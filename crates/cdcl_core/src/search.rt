//! What a solver has but for its chooser: the formula, the log, the trail and how it stands.
ghost use Rattle.std.specs.Prelude.{◌≡◌, ◌<◌, ◌≤◌, ◌/◌, [], ◌++◌, ◌∷◌, true, false, None, All, length, replicate, IfOk, OnOk, OnErr};
ghost use Rattle.clause_base.specs.Clause.{IsClause};
ghost use Rattle.clause_base.specs.Derivation.{clauses_of};
ghost use Rattle.cdcl_defs.specs.State.{values_of, value_of};
ghost use Rattle.cdcl_defs.specs.Trail.{AllFalse};
ghost use Rattle.cdcl_defs.specs.Learn.{learned};
ghost use Rattle.cdcl_defs.specs.Run.{start_of, apply, with_learned, after_conflict, is_restart, is_going};
ghost use Rattle.cdcl_defs.specs.Sound.{IsSound};
ghost use Rattle.cdcl_core.specs.own.Search.{SearchView, IsNextEvent, MayApply, GoesOn, asked_first, level_after};

use crate::reduce::reduce;
use cdcl_defs::event::Event;
use cdcl_defs::standing::Standing;
use cdcl_defs::trail::Assigned;
use clause_base::formula::Formula;
use clause_base::literal::Lit;
use clause_base::values::Values;
use conflict_analysis::backjump::backjump_level;
use conflict_analysis::clauses::Clauses;
use conflict_analysis::learn::{Analysis, LearnedClause};
use containers::let_go;
use containers::memory::Memory;
use proof_log::log::Log;
use propagation::propagator::Propagator;
use std::alloc::Global;
use std::marker::Model;

/// After each so many conflicts the search restarts: it backtracks to level 0, and drops learned clauses.
const RESTART: u64 = 64;

/// A search over a formula: its clauses with the log, what propagates, which owns the trail, the room in which conflicts are worked
/// out, how it stands, and whether memory was wanting once, since it then goes no further.
pub struct Search {
    alloc: Global,
    clauses: Clauses,
    propagator: Propagator,
    analysis: Analysis,
    standing: Standing,
    spoilt: bool,
}

impl Model for Search {
    ghost use Rattle.cdcl_core.specs.own.Search.{SearchView, IsKept, state_of};

    ghost Value = { SearchView };

    ghost view = { λ s. record { formula = s.clauses.formula; state = state_of s.clauses s.propagator.entries s.standing; spoilt = s.spoilt } };

    ghost invariant = { λ s. IsKept s.clauses s.propagator s.analysis s.standing s.spoilt };
}

/// All parts are let go in one call, so that a proof has one step for it and not one for each part.
impl Drop for Search {
    fn drop(self) {
        let_go!(self: Search { alloc, clauses, propagator, analysis, standing, spoilt });
    }
}

impl Search {
    /// The search over a formula before any event, with a propagator of its clauses.
    fn over(alloc: Global, formula: Formula, propagator: Propagator) -> Result<Search, Memory>
        requires { propagator ≡ record { variables = formula.variables; clauses = formula.clauses; kept = replicate (length formula.clauses) true; entries = [] } }
        ensures { IfOk result (λ s. s ≡ record { formula = formula; state = start_of formula; spoilt = false }) }
    {
        let variables = formula.variables();
        // For the proof: each clause of the formula is lawful.
        let _lawful = formula.count();
        Ok(Search {
            alloc,
            propagator,
            analysis: Analysis::new(alloc, variables)?,
            standing: Standing::Going,
            spoilt: false,
            clauses: Clauses::new(alloc, formula),
        })
    }

    /// The search over a formula before any event.
    pub fn new(alloc: Global, formula: Formula) -> Result<Search, Memory>
        ensures { IfOk result (λ s. s ≡ record { formula = formula; state = start_of formula; spoilt = false }) }
    {
        let propagator = Propagator::new(alloc, &formula)?;
        Search::over(alloc, formula, propagator)
    }

    /// The search over a formula before any event, in the memory of a search that is done with: the propagator has the large tables,
    /// all others are made anew. Where memory is wanting, all of it is let go.
    pub fn renewed(self, formula: Formula) -> Result<Search, Memory>
        ensures { IfOk result (λ s. s ≡ record { formula = formula; state = start_of formula; spoilt = false }) }
    {
        let Search {
            alloc,
            clauses: _,
            propagator,
            analysis: _,
            standing: _,
            spoilt: _,
        } = self;
        let propagator = propagator.renewed(alloc, &formula)?;
        Search::over(alloc, formula, propagator)
    }

    /// What gives it memory.
    pub fn allocator(&self) -> Global {
        self.alloc
    }

    /// The formula.
    pub fn formula(&self) -> &Formula
        ensures { result.now ≡ self.now.formula }
    {
        self.clauses.formula()
    }

    /// The log of what was learned and dropped.
    pub fn log(&self) -> &Log
        ensures { result.now ≡ self.now.state.log }
    {
        self.clauses.log()
    }

    /// How many conflicts were handled, each of which taught a clause.
    pub fn conflicts(&self) -> u64
        ensures value { result ≡ self.now.state.conflicts }
        ensures few { result ≤ 1073741824 }
        ensures sound { IsSound self.now.formula self.now.state }
    {
        self.clauses.learned_count() as u64
    }

    /// How it stands.
    pub fn standing(&self) -> Standing
        ensures value { result ≡ self.now.state.standing }
        ensures spoilt { self.now.spoilt ≡ true → result ≡ Standing.Going }
    {
        self.standing
    }

    /// Whether memory was wanting once.
    pub fn is_spoilt(&self) -> bool
        ensures { result ≡ self.now.spoilt }
    {
        self.spoilt
    }

    /// The value of a variable, if it has one; none past the last variable.
    pub fn value(&self, v: u32) -> Option<bool>
        ensures value { result ≡ value_of self.now.state.trail v }
        ensures past { self.now.formula.variables ≤ v → result ≡ None }
    {
        self.propagator.trail().value(v)
    }

    /// The values of all variables.
    pub fn values(&self) -> &Values
        ensures { result.now ≡ values_of self.now.formula.variables self.now.state.trail }
    {
        self.propagator.trail().values()
    }

    /// The literals that are true, oldest first; they are of the variables, each of which has at most one.
    pub fn entries(&self) -> &[Assigned]
        ensures value { result.now ≡ self.now.state.trail }
        ensures below { All (λ a. a.literal / 2 < self.now.formula.variables) self.now.state.trail }
        ensures short { length self.now.state.trail ≤ self.now.formula.variables }
    {
        self.propagator.trail().entries()
    }

    /// Lets a chooser's search for the least variable without a value begin where it should.
    pub fn pass_given(&mut self)
        ensures { self.new ≡ self.old }
    {
        self.propagator.pass_given();
    }

    /// What the first clause asks for that is kept and pending.
    pub fn asked(&mut self) -> Option<Event>
        requires sane { self.old.spoilt ≡ false }
        requires going { is_going self.old.state.standing ≡ true }
        ensures event { result ≡ asked_first self.old.state }
        ensures same { self.new ≡ self.old }
        ensures sound { IsSound self.old.formula self.old.state }
    {
        self.propagator.next()
    }

    /// What the conflict in a clause teaches. After want of memory the search is spoilt.
    fn learned(&mut self, number: u32) -> Result<LearnedClause, Memory>
        requires sane { self.old.spoilt ≡ false }
        requires going { is_going self.old.state.standing ≡ true }
        requires next { IsNextEvent self.old.formula self.old.state (Event.Conflict number) }
        ensures clause { IfOk result (λ new. new.lits ≡ (learned self.old.state.clauses self.old.state.trail number).clause) }
        ensures hints { IfOk result (λ new. new.hints ≡ (learned self.old.state.clauses self.old.state.trail number).hints) }
        ensures ok { OnOk result (self.new ≡ self.old) }
        ensures err { OnErr result (self.new ≡ record self.old { spoilt = true }) }
    {
        self.spoilt = true;
        let learned = self.analysis.learn(
            self.alloc,
            self.propagator.store(),
            self.propagator.trail(),
            number,
        )?;
        self.spoilt = false;
        Ok(learned)
    }

    /// Whether the next conflict brings a restart.
    fn is_restart(&self) -> bool
        requires { self.now.state.conflicts < 1073741824 }
        ensures { result ≡ is_restart self.now.state }
    {
        (self.conflicts() + 1) % RESTART == 0
    }

    /// The level to backtrack to after a conflict: 0 at a restart, else the greatest of the learned clause's literals that is
    /// not the current one.
    fn level_after(&self, lits: &[Lit]) -> u32
        requires room { self.now.state.conflicts < 1073741824 }
        requires all_false { AllFalse self.now.state.trail lits.now }
        ensures { result ≡ level_after self.now.state lits.now }
    {
        if self.is_restart() {
            0
        } else {
            backjump_level(self.propagator.trail(), lits)
        }
    }

    /// Enters what a conflict teaches: its clause and hints into the log, which counts the conflict. With the empty clause all
    /// is refuted, else the trail backtracks, and at a restart clauses are dropped. After want of memory the search is spoilt;
    /// it may then have entered the clause.
    fn enter(&mut self, new: LearnedClause) -> Result<(), Memory>
        requires sane { self.old.spoilt ≡ false }
        requires going { is_going self.old.state.standing ≡ true }
        requires room { self.old.state.conflicts < 1073741824 }
        requires clause { IsClause new.lits }
        requires all_false { AllFalse self.old.state.trail new.lits }
        requires undropped { IsSound self.old.formula (after_conflict self.old.state (record { clause = new.lits; hints = new.hints }) []) }
        requires sound { IsSound self.old.formula (with_learned self.old.state (record { clause = new.lits; hints = new.hints })) }
        ensures ok { OnOk result (self.new ≡ record self.old { state = with_learned self.old.state (record { clause = new.lits; hints = new.hints }) }) }
        ensures log { OnErr result (GoesOn self.old.state.log self.new.state.log) }
        ensures formula { self.new.formula ≡ self.old.formula }
        ensures spoilt { OnErr result (self.new.spoilt ≡ true) }
    {
        let clause = &new.lits;
        let lits = clause.as_slice();
        let is_empty = lits.is_empty();
        let is_restart = self.is_restart();
        let level = self.level_after(lits);
        self.spoilt = true;
        self.clauses.learn(clause, new.hints.as_slice())?;
        if is_empty {
            self.standing = Standing::Refuted;
            self.spoilt = false;
            return Ok(());
        }
        self.propagator.backtrack(level);
        self.propagator.add_sorted(clause)?;
        if is_restart {
            reduce(self.alloc, &mut self.clauses, &mut self.propagator)?;
        }
        self.spoilt = false;
        Ok(())
    }

    /// Makes a literal true.
    #[inline(always)]
    fn assign(&mut self, entry: Assigned)
        requires sane { self.old.spoilt ≡ false }
        requires going { is_going self.old.state.standing ≡ true }
        requires below { entry.literal / 2 < self.old.formula.variables }
        requires opened { value_of self.old.state.trail (entry.literal / 2) ≡ None }
        requires sound { IsSound self.old.formula (record self.old.state { trail = self.old.state.trail ++ entry ∷ [] }) }
        ensures { self.new ≡ record self.old { state = record self.old.state { trail = self.old.state.trail ++ entry ∷ [] } } }
    {
        self.propagator.assign(entry);
    }

    /// Says that the values satisfy the formula.
    fn finish(&mut self)
        requires sane { self.old.spoilt ≡ false }
        requires sound { IsSound self.old.formula (record self.old.state { standing = Standing.Found }) }
        ensures { self.new ≡ record self.old { state = record self.old.state { standing = Standing.Found } } }
    {
        self.standing = Standing::Found;
    }

    /// Applies the next event. After want of memory the search is spoilt.
    #[inline(always)]
    pub fn apply(&mut self, event: Event) -> Result<(), Memory>
        requires { MayApply self.old.formula self.old.state self.old.spoilt event }
        ensures ok { OnOk result (self.new ≡ record self.old { state = apply self.old.state event }) }
        ensures log { OnErr result (GoesOn self.old.state.log self.new.state.log) }
        ensures formula { self.new.formula ≡ self.old.formula }
        ensures spoilt { OnErr result (self.new.spoilt ≡ true) }
    {
        let entry = match event {
            Event::Conflict(number) => {
                let learned = self.learned(number)?;
                return self.enter(learned);
            }
            Event::Finish => {
                self.finish();
                return Ok(());
            }
            Event::Force(literal, clause) => Assigned {
                literal,
                reason: Some(clause),
            },
            Event::Decide(literal) => Assigned {
                literal,
                reason: None,
            },
        };
        self.assign(entry);
        Ok(())
    }
}
