//! The tables of a formula's clauses, made at once before any literal is true. A clause of more than two literals has a slot and
//! watches its last two; one of two literals is in the pair index alone; one of fewer is pending, and in the set from the
//! beginning.
ghost use Rattle.std.specs.Prelude.{◌≡◌, ℕ, ◌+◌, ◌*◌, ◌<◌, ◌≤◌, ◌==◌, [], None, false, length, IfOk, OnOk};
ghost use Rattle.cdcl_defs.specs.State.{clause_at};
ghost use Rattle.bit_sets.specs.Layered.{words_have};
ghost use Rattle.cdcl_tables.specs.Linked.{IsLinked};
ghost use Rattle.propagation.specs.own.Visit.{IsFit, AreSlotsBelow};
ghost use Rattle.cdcl_tables.specs.Stored.{CanReadAll};
ghost use Rattle.propagation.specs.own.Given.{AreGiven, AreOthers, AreRising, IsBeside};

use crate::pending::Pending;
use crate::room::LEARNED;
use crate::scan::only_ask;
use crate::visit::WatchState;
use cdcl_tables::chains::Chains;
use cdcl_tables::store::Store;
use clause_base::clause_list::ClauseList;
use clause_base::formula::Formula;
use clause_base::shared_list::SharedList;
use containers::memory::Memory;
use std::alloc::Global;

/// The slots of a formula's clauses, and what is watched of them.
#[derive(Drop)]
pub struct Given {
    pub slots: Vec<u32>,
    pub lists: WatchState,
}

/// The places in a list of those clauses that have fewer than two literals, or more, in order, and how many clauses there are.
#[derive(Drop)]
struct Others {
    places: Vec<usize>,
    count: usize,
}

/// Whether the clause of a list with a number has two literals.
fn is_two(list: &ClauseList, number: usize) -> bool
    requires { number < length list.now }
    ensures { result ≡ (length (clause_at list.now number) == 2) }
{
    list.clause(number).len() == 2
}

/// The places of the clauses of a list that have not two literals.
fn others_of(alloc: Global, list: &ClauseList) -> Result<Others, Memory>
    ensures { IfOk result (λ others. AreOthers list.now others.places.items others.count) }
{
    let mut places = Vec::new(alloc);
    let count = list.count();
    for number in 0..count {
        if !is_two(list, number) {
            places.push(number)?;
        }
    }
    Ok(Others { places, count })
}

/// The places of the clauses of one step or of one time that have not two literals.
fn shared_others(alloc: Global, list: &SharedList) -> Result<Others, Memory>
    ensures { IfOk result (λ others. AreOthers list.now others.places.items others.count) }
{
    others_of(alloc, list.list())
}

/// At least so many clauses of a formula have slots, if memory is to be had for them: those that have not two literals. Beside them
/// there is room for learned ones.
fn room_for(horizon: u32, once: usize, step: &Others, time: &Others) -> usize {
    let steps = horizon as usize;
    once.saturating_add(LEARNED)
        .saturating_add(steps.saturating_mul(step.places.len()))
        .saturating_add((steps + 1).saturating_mul(time.places.len()))
}

impl Given {
    /// The tables of no clauses, without room. It takes no memory.
    pub fn none(alloc: Global) -> Given {
        Given {
            slots: Vec::new(alloc),
            lists: WatchState {
                chains: Chains {
                    heads: Vec::new(alloc),
                    nodes: Vec::new(alloc),
                },
                resume_at: Vec::new(alloc),
                pending: Pending::none(alloc),
            },
        }
    }

    /// The tables of no clauses, with room for so many, of which so many have slots, in the memory of tables that are done with.
    fn emptied(self, count: u32, longs: usize, codes: u32) -> Result<Given, Memory>
        requires codes { codes ≤ 4294967294 }
        requires few { count ≤ 1073741824 }
        ensures slots { IfOk result (λ g. g.slots.items ≡ []) }
        ensures resume_at { IfOk result (λ g. g.lists.resume_at.items ≡ []) }
        ensures pending { IfOk result (λ g. (k : ℕ) → words_have g.lists.pending.numbers k ≡ false) }
        ensures linked { IfOk result (λ g. IsLinked g.lists.chains.heads.items g.lists.chains.nodes.items (λ k. None)) }
        ensures codes { IfOk result (λ g. length g.lists.chains.heads.items ≡ codes) }
        ensures room { IfOk result (λ g. count ≤ 64 * length g.lists.pending.numbers) }
        ensures asks { IfOk result (λ g. length g.lists.pending.asks.items ≡ count) }
    {
        let Given { mut slots, lists } = self;
        let (chains, mut resume_at, pending) = lists.into_parts();
        slots.clear();
        slots.reserve(longs)?;
        resume_at.clear();
        resume_at.reserve(longs)?;
        Ok(Given {
            slots,
            lists: WatchState {
                chains: chains.renewed(codes, longs.saturating_add(longs))?,
                resume_at,
                pending: pending.renewed(count)?,
            },
        })
    }

    /// Gives the next clause a slot, if it has more than two literals, and puts it into the set, if it has fewer than two.
    fn enter(&mut self, store: &Store, number: u32, codes: u32) -> Result<(), Memory>
        requires fit { IsFit store.now.clauses codes }
        requires read { CanReadAll store.now }
        requires inside { number < length store.now.clauses }
        requires few { length store.now.clauses ≤ 1073741824 }
        requires given { AreGiven codes store.now.clauses number self.old }
        ensures { OnOk result (AreGiven codes store.now.clauses (number + 1) self.new) }
    {
        let slot = self.slots.len() as u32;
        let clause = store.clause(number);
        let length = clause.len();
        if length == 2 {
            return Ok(());
        }
        if length < 2 {
            self.lists.pending.put(number, only_ask(&clause));
            return Ok(());
        }
        self.lists.widen(number, slot)?;
        self.slots.push(number)?;
        self.lists.enter_last(&clause, slot, codes);
        Ok(())
    }

    /// Enters the clauses of a part from a number on, and gives the number after them. Those of two literals are not looked at.
    fn enter_part(
        &mut self,
        store: &Store,
        others: &Others,
        first: u32,
        codes: u32,
    ) -> Result<u32, Memory>
        requires fit { IsFit store.now.clauses codes }
        requires read { CanReadAll store.now }
        requires inside { first + others.now.count ≤ length store.now.clauses }
        requires few { length store.now.clauses ≤ 1073741824 }
        requires below { AreSlotsBelow others.now.count others.now.places.items }
        requires rising { AreRising others.now.places.items }
        requires twos { (j : ℕ) → IsBeside others.now.places.items others.now.count j → length (clause_at store.now.clauses (first + j)) ≡ 2 }
        requires given { AreGiven codes store.now.clauses first self.old }
        ensures next { IfOk result (λ next. next ≡ first + others.now.count) }
        ensures given { IfOk result (λ next. AreGiven codes store.now.clauses next self.new) }
    {
        let mut next: usize = 0;
        for index in 0..others.places.len() {
            let place = others.places[index];
            self.enter(store, first + place as u32, codes)?;
            next = place + 1;
        }
        Ok(first + others.count as u32)
    }

    /// Enters the clauses of so many parts with the same numbers of literals, and gives the number after them.
    fn enter_parts(
        &mut self,
        store: &Store,
        others: &Others,
        parts: u32,
        first: u32,
        codes: u32,
    ) -> Result<u32, Memory>
        requires fit { IsFit store.now.clauses codes }
        requires read { CanReadAll store.now }
        requires inside { first + parts * others.now.count ≤ length store.now.clauses }
        requires few { length store.now.clauses ≤ 1073741824 }
        requires below { AreSlotsBelow others.now.count others.now.places.items }
        requires rising { AreRising others.now.places.items }
        requires twos { (t j : ℕ) → t < parts → IsBeside others.now.places.items others.now.count j → length (clause_at store.now.clauses (first + (t * others.now.count + j))) ≡ 2 }
        requires given { AreGiven codes store.now.clauses first self.old }
        ensures next { IfOk result (λ next. next ≡ first + parts * others.now.count) }
        ensures given { IfOk result (λ next. AreGiven codes store.now.clauses next self.new) }
    {
        let mut next = first;
        for _ in 0..parts {
            next = self.enter_part(store, others, next, codes)?;
        }
        Ok(next)
    }

    /// The tables of the clauses of a formula, of which a store has a copy, in the memory of tables that are done with. Which
    /// clauses have two literals is found once for all steps and once for all times.
    pub fn renewed(
        self,
        alloc: Global,
        store: &Store,
        formula: &Formula,
        codes: u32,
    ) -> Result<Given, Memory>
        requires same { store.now.clauses ≡ formula.now.clauses }
        requires fit { IsFit store.now.clauses codes }
        requires read { CanReadAll store.now }
        requires codes { codes ≤ 4294967294 }
        ensures { IfOk result (λ g. AreGiven codes store.now.clauses (length store.now.clauses) g) }
    {
        let parts = formula.parts();
        let steps = parts.repeated.horizon();
        let told_others = others_of(alloc, parts.told)?;
        let step_others = shared_others(alloc, parts.repeated.step())?;
        let time_others = shared_others(alloc, parts.repeated.time())?;
        let after_others = others_of(alloc, parts.after)?;
        let once = told_others
            .places
            .len()
            .saturating_add(after_others.places.len());
        let longs = room_for(steps, once, &step_others, &time_others);
        let mut given = self.emptied(formula.count(), longs, codes)?;
        let told = given.enter_part(store, &told_others, 0, codes)?;
        let stepped = given.enter_parts(store, &step_others, steps, told, codes)?;
        let timed = given.enter_parts(store, &time_others, steps, stepped, codes)?;
        let last = given.enter_part(store, &time_others, timed, codes)?;
        given.enter_part(store, &after_others, last, codes)?;
        Ok(given)
    }
}
