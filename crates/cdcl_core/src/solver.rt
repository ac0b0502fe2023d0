ghost use Rattle.std.specs.Prelude.{◌≡◌, ◌≤◌, ◌+◌, ◌*◌, ◌<◌, ◌++◌, true, false, None, ◌&&◌, nat_le, length, IfOk, OnOk, OnErr};
ghost use Rattle.clause_base.specs.Formula.{Satisfies};
ghost use Rattle.clause_base.specs.Derivation.{clauses_of, IsDerivation, EndsEmpty};
ghost use Rattle.cdcl_defs.specs.State.{value_of, values_of};
ghost use Rattle.cdcl_defs.specs.Event.{event_of};
ghost use Rattle.cdcl_defs.specs.Open.{Opens};
ghost use Rattle.cdcl_defs.specs.Run.{start_of, apply, after, is_going, is_conflict, IsAfter};
ghost use Rattle.cdcl_defs.specs.Sound.{IsSound, IsSolution, made_true};
ghost use Rattle.cdcl_defs.specs.Laws.{AddsUp, SettledStays, ComesToRestAlways, Grants};
ghost use Rattle.cdcl_core.specs.own.Search.{SolverView, MayApply, GoesOn, asked_first};
ghost use Rattle.cdcl_core.specs.own.Between.{IsShortBetween};
ghost use Rattle.cdcl_tables.specs.Assignment.{literals};
ghost use Rattle.cdcl_core.specs.own.Told.{IsToldUpTo};

use crate::search::Search;
use cdcl_defs::event::Event;
use cdcl_defs::sound_runs::runs_are_sound;
use cdcl_defs::standing::Standing;
use cdcl_defs::trail::Assigned;
use clause_base::chooser::Chooser;
use clause_base::formula::Formula;
use clause_base::literal::Lit;
use containers::let_go;
use containers::memory::Memory;
use proof_log::log::Log;
use std::alloc::Global;
use std::marker::Model;

/// A solver of a formula by learning from conflicts. Its chooser makes the decisions. Beside the chooser stands what that was told of
/// the trail, and up to which length that is still so (`kept`), since a chooser that knows what changed need not look at all of it.
pub struct Solver<C: Chooser> {
    search: Search,
    chooser: C,
    told: C::Told,
    kept: usize,
}

impl<C: Chooser> Model for Solver<C> {
    ghost use Rattle.std.specs.Prelude.{◌≡◌, false};
    ghost use Rattle.cdcl_core.specs.own.Search.{SolverView};
    ghost use Rattle.cdcl_core.specs.own.Told.{IsToldUpTo};

    ghost Value = { SolverView C };

    ghost view = { λ s. record { formula = s.search.formula; state = s.search.state; chooser = s.chooser; spoilt = s.search.spoilt } };

    // The chooser knows the formula's variables, so it may be asked at any time; and what it was told up to a length is on the trail.
    ghost invariant = { λ s.
        C.fits s.chooser s.search.formula.variables
        × (s.search.spoilt ≡ false → IsToldUpTo (C.knows s.chooser s.told) s.kept s.search.state.trail) };
}

/// Tells a chooser, which knows of a search's trail up to a length, what the trail has behind that.
fn tell<C: Chooser>(chooser: &C, told: &mut C::Told, kept: usize, search: &Search)
    requires fits { C.fits chooser.now search.now.formula.variables }
    requires told { IsToldUpTo (C.knows chooser.now told.old) kept search.now.state.trail }
    ensures { C.knows chooser.now told.new (literals search.now.state.trail) }
{
    chooser.untell(told, kept);
    let entries = search.entries();
    for i in kept..entries.len() {
        let entry = entries[i];
        chooser.tell(told, entry.literal);
    }
}

/// All parts are let go in one call, so that a proof has one step for it and not one for each part.
impl<C: Chooser + Drop> Drop for Solver<C> {
    fn drop(self) {
        let_go!(self: Solver { search, chooser, told, kept });
    }
}

// The chooser's type has to be one that is dropped, since formula and chooser are let go where memory is wanting.
impl<C: Chooser + Drop> Solver<C> {
    /// The solver with a search before any event, of which its chooser is told nothing yet.
    fn over(alloc: Global, search: Search, chooser: C) -> Result<Solver<C>, Memory>
        requires { C.fits chooser search.formula.variables }
        ensures { IfOk result (λ s. s ≡ record { formula = search.formula; state = search.state; chooser = chooser; spoilt = search.spoilt }) }
    {
        let told = chooser.start(alloc)?;
        Ok(Solver {
            search,
            chooser,
            told,
            kept: 0,
        })
    }

    /// The solver of a formula, before any event. Where memory is wanting, formula and chooser are let go.
    pub fn new(alloc: Global, formula: Formula, chooser: C) -> Result<Solver<C>, Memory>
        requires { C.fits chooser formula.variables }
        ensures start { IfOk result (λ s. s ≡ record { formula = formula; state = start_of formula; chooser = chooser; spoilt = false }) }
    {
        let search = Search::new(alloc, formula)?;
        Solver::over(alloc, search, chooser)
    }

    /// The solver of a formula, before any event, in the memory of one that is done with, however it stands. Where memory is
    /// wanting, all of it is let go, formula and chooser too.
    pub fn renewed(self, formula: Formula, chooser: C) -> Result<Solver<C>, Memory>
        requires { C.fits chooser formula.variables }
        ensures start { IfOk result (λ s. s ≡ record { formula = formula; state = start_of formula; chooser = chooser; spoilt = false }) }
    {
        let Solver {
            search,
            chooser: _,
            told: _,
            kept: _,
        } = self;
        let alloc = search.allocator();
        let search = search.renewed(formula)?;
        Solver::over(alloc, search, chooser)
    }
}

impl<C: Chooser> Solver<C> {
    /// How far it is: going, or found where its values satisfy the formula, or refuted where its log ends with the empty clause.
    pub fn standing(&self) -> Standing
        ensures value { result ≡ self.now.state.standing }
        ensures spoilt { self.now.spoilt ≡ true → result ≡ Standing.Going }
        ensures found { result ≡ Standing.Found → Satisfies (made_true self.now.state.trail) self.now.formula.clauses }
        ensures solved { result ≡ Standing.Found → IsSolution self.now.formula self.now.state.trail }
        ensures refuted { result ≡ Standing.Refuted → EndsEmpty self.now.state.log }
    {
        // For the proof: the state is sound, and has at most 1,073,741,824 conflicts.
        let _sound = self.search.conflicts();
        self.search.standing()
    }

    /// How many conflicts it has handled, each of which taught a clause of its log.
    pub fn conflicts(&self) -> u64
        ensures value { result ≡ self.now.state.conflicts }
        ensures few { result ≤ 1073741824 }
        ensures counted { result ≡ length (clauses_of self.now.state.log) }
        ensures sound { IsSound self.now.formula self.now.state }
    {
        self.search.conflicts()
    }

    /// What it has learned, each clause with the clauses that it is learned from, and what it has dropped: a derivation from the
    /// formula, with at most two entries for each conflict, since a learned clause is dropped at most once.
    pub fn log(&self) -> &Log
        ensures value { result.now ≡ self.now.state.log }
        ensures derivation { IsDerivation self.now.formula.variables self.now.formula.clauses self.now.state.log }
        ensures short_log { length self.now.state.log ≤ 2 * self.now.state.conflicts }
    {
        runs_are_sound();
        // For the proof: the state is sound, and has at most 1,073,741,824 conflicts.
        let _sound = self.search.conflicts();
        self.search.log()
    }

    /// The formula.
    pub fn formula(&self) -> &Formula
        ensures { result.now ≡ self.now.formula }
    {
        self.search.formula()
    }

    /// The value of a variable, if it has one; none past the last variable.
    pub fn value(&self, v: u32) -> Option<bool>
        ensures value { result ≡ value_of self.now.state.trail v }
        ensures past { self.now.formula.variables ≤ v → result ≡ None }
    {
        self.search.value(v)
    }

    /// The literals that are true, oldest first, each with the clause that forced it where one did.
    pub fn trail(&self) -> &[Assigned]
        ensures { result.now ≡ self.now.state.trail }
    {
        self.search.entries()
    }

    /// Whether memory was wanting once. A spoilt solver stays as it is.
    pub fn is_spoilt(&self) -> bool
        ensures { result ≡ self.now.spoilt }
    {
        self.search.is_spoilt()
    }

    /// Whether it is neither found nor refuted.
    fn is_going(&self) -> bool
        ensures { result ≡ is_going self.now.state.standing }
    {
        matches!(self.search.standing(), Standing::Going)
    }

    /// Whether the event is a conflict past the limit.
    fn waits(&self, event: &Event, limit: u64) -> bool
        ensures { result ≡ (is_conflict event.now && nat_le limit self.now.state.conflicts) }
    {
        event.is_conflict() && self.search.conflicts() >= limit
    }

    /// The literal that its chooser chooses, which is told before how the trail has changed since its last choice.
    fn choice(&mut self) -> Option<Lit>
        requires sane { self.old.spoilt ≡ false }
        requires sound { IsSound self.old.formula self.old.state }
        ensures chosen { result ≡ C.choice self.old.chooser (values_of self.old.formula.variables self.old.state.trail) }
        ensures kept { self.new ≡ self.old }
    {
        self.search.pass_given();
        tell(&self.chooser, &mut self.told, self.kept, &self.search);
        self.kept = self.search.entries().len();
        self.chooser
            .choose_told(&mut self.told, self.search.values())
    }

    /// What the first clause asks for that is kept and pending.
    fn asked(&mut self) -> Option<Event>
        requires sane { self.old.spoilt ≡ false }
        requires going { is_going self.old.state.standing ≡ true }
        ensures event { result ≡ asked_first self.old.state }
        ensures kept { self.new ≡ self.old }
        ensures opens { Opens self.old.formula.variables (C.choice self.old.chooser) }
        ensures sound { IsSound self.old.formula self.old.state }
    {
        self.search.asked()
    }

    /// The next event.
    #[inline(always)]
    fn event(&mut self) -> Event
        requires sane { self.old.spoilt ≡ false }
        requires going { is_going self.old.state.standing ≡ true }
        ensures event { result ≡ event_of (C.choice self.old.chooser) self.old.state }
        ensures kept { self.new ≡ self.old }
        ensures opens { Opens self.old.formula.variables (C.choice self.old.chooser) }
        ensures sound { IsSound self.old.formula self.old.state }
    {
        match self.asked() {
            Some(event) => event,
            None => match self.choice() {
                None => Event::Finish,
                Some(lit) => Event::Decide(lit),
            },
        }
    }

    /// Applies the next event.
    #[inline(always)]
    fn apply(&mut self, event: Event) -> Result<(), Memory>
        requires { MayApply self.old.formula self.old.state self.old.spoilt event }
        ensures ok { OnOk result (self.new ≡ record self.old { state = apply self.old.state event }) }
        ensures log { OnErr result (GoesOn self.old.state.log self.new.state.log) }
        ensures formula { self.new.formula ≡ self.old.formula }
        ensures chooser { self.new.chooser ≡ self.old.chooser }
        ensures spoilt { OnErr result (self.new.spoilt ≡ true) }
    {
        let takes_back = event.is_conflict();
        let done = self.search.apply(event);
        if takes_back {
            let length = self.search.entries().len();
            self.kept = self.kept.min(length);
        }
        done
    }

    /// Goes on until it is settled or the next event is a conflict past the limit.
    #[inline(always)]
    fn run(&mut self, conflicts: u32) -> Result<(), Memory>
        requires room { self.old.state.conflicts + conflicts ≤ 1073741824 }
        requires sane { self.old.spoilt ≡ false }
        ensures after { OnOk result (IsAfter (C.choice self.old.chooser) self.old.state conflicts self.new.state) }
        ensures log { OnErr result (GoesOn self.old.state.log self.new.state.log) }
        ensures formula { self.new.formula ≡ self.old.formula }
        ensures chooser { self.new.chooser ≡ self.old.chooser }
        ensures sane { OnOk result (self.new.spoilt ≡ false) }
        ensures spoilt { OnErr result (self.new.spoilt ≡ true) }
    {
        let limit = self.conflicts() + conflicts as u64;
        while self.is_going() {
            let event = self.event();
            if self.waits(&event, limit) {
                return Ok(());
            }
            self.apply(event)?;
        }
        Ok(())
    }

    /// Goes on until it is settled or has handled so many more conflicts; with 0 it does what comes before the next conflict.
    /// After want of memory it is spoilt, and its log begins with the old one: it then answers `Memory` and stays as it is.
    pub fn advance(&mut self, conflicts: u32) -> Result<(), Memory>
        requires { self.old.state.conflicts + conflicts ≤ 1073741824 }
        ensures after { OnOk result (self.new.state ≡ after (C.choice self.old.chooser) self.old.state conflicts) }
        ensures rests { OnOk result (IsAfter (C.choice self.old.chooser) self.old.state conflicts self.new.state) }
        ensures within { OnOk result (self.new.state.conflicts ≤ self.old.state.conflicts + conflicts) }
        ensures adds_up { AddsUp (C.choice self.old.chooser) self.old.state }
        ensures settled { SettledStays (C.choice self.old.chooser) self.old.state }
        ensures comes_to_rest { ComesToRestAlways (C.choice self.old.chooser) self.old.state }
        ensures grants { Grants (C.choice self.old.chooser) self.old.state }
        ensures short { IsShortBetween (C.choice self.old.chooser) self.old.state }
        ensures log { OnErr result (GoesOn self.old.state.log self.new.state.log) }
        ensures formula { self.new.formula ≡ self.old.formula }
        ensures chooser { self.new.chooser ≡ self.old.chooser }
        ensures sane { OnOk result (self.old.spoilt ≡ false) }
        ensures sound { OnOk result (self.new.spoilt ≡ false) }
        ensures spoilt { OnErr result (self.new.spoilt ≡ true) }
        ensures stays { self.old.spoilt ≡ true → self.new ≡ self.old }
    {
        // For the proof: the state is sound, and has at most 1,073,741,824 conflicts.
        let _sound = self.search.conflicts();
        if self.is_spoilt() {
            return Err(Memory);
        }
        self.run(conflicts)
    }
}
