//! A solver's clauses by number.
ghost use Rattle.std.specs.Prelude.{◌≡◌, ℕ, ◌<◌, ◌≤◌, ◌++◌, ◌∷◌, [], length, replicate, false, All, IfOk, OnOk, OnErr, slice_index_or};
ghost use Rattle.clause_base.specs.Clause.{IsClause};
ghost use Rattle.cdcl_tables.specs.Stored.{CanRead, StoreView};

use crate::added::Added;
use clause_base::formula::Formula;
use clause_base::literal::Lit;
use clause_base::view::View;
use containers::memory::Memory;
use containers::{SharedListOf, let_go};
use proof_log::literals::Literals;
use std::alloc::Global;
use std::marker::Model;

/// Clauses by number, counted from 0: first those of a formula, which stand in it, then those that were added, each in memory that
/// others may share. An added clause may be packed: its literals stand as bytes then, and cannot be read.
pub struct Store {
    formula: Formula,
    given: u32,
    added: Vec<Added>,
}

impl Model for Store {
    ghost use Rattle.std.specs.Prelude.{◌++◌, map, replicate, length, false};
    ghost use Rattle.cdcl_tables.specs.Stored.{StoreView};
    ghost use Rattle.cdcl_tables.specs.own.Stored.{IsStored, lits_of, is_packed};

    ghost Value = { StoreView };

    ghost view = { λ s. record { clauses = s.formula.clauses ++ map lits_of s.added.items; packed = replicate (length s.formula.clauses) false ++ map is_packed s.added.items } };

    ghost invariant = { λ s. IsStored s.formula.clauses s.given (map lits_of s.added.items) };
}

/// All parts are let go in one call, so that a proof has one step for it and not one for each part.
impl Drop for Store {
    fn drop(self) {
        let_go!(self: Store { formula, given, added });
    }
}

impl Store {
    /// The clauses of a formula, of which it keeps a copy.
    pub fn new(alloc: Global, formula: &Formula) -> Result<Store, Memory>
        ensures { IfOk result (λ store. store ≡ record { clauses = formula.now.clauses; packed = replicate (length formula.now.clauses) false }) }
    {
        let given = formula.count();
        let formula = formula.copy(alloc)?;
        Ok(Store {
            formula,
            given,
            added: Vec::new(alloc),
        })
    }

    /// How many clauses there are.
    pub fn count(&self) -> u32
        ensures value { result ≡ length self.now.clauses }
        ensures lawful { All IsClause self.now.clauses }
        ensures flags { length self.now.packed ≡ length self.now.clauses }
    {
        // For the proof: each clause of the formula is lawful.
        let _lawful = self.formula.count();
        self.given + self.added.len() as u32
    }

    /// The literals of a clause that is not packed.
    #[inline(always)]
    pub fn clause(&self, number: u32) -> View<'_>
        requires inside { number < length self.now.clauses }
        requires read { CanRead self.now number }
        ensures { result ≡ slice_index_or self.now.clauses number [] }
    {
        if number < self.given {
            return self.formula.clause(number);
        }
        match &self.added[(number - self.given) as usize] {
            Added::Whole(list) => View::of(list.as_slice()),
            // For the proof: it is not packed.
            Added::Packed(_) => unreachable!(),
        }
    }

    /// Adds a clause, whose literals stay in the memory that they are in. After want of memory the store is unchanged.
    pub fn push(&mut self, clause: &SharedListOf<Lit>) -> Result<(), Memory>
        requires lawful { IsClause clause.now }
        requires room { length self.old.clauses < 4294967295 }
        ensures ok { OnOk result (self.new ≡ record { clauses = self.old.clauses ++ clause.now ∷ []; packed = self.old.packed ++ false ∷ [] }) }
        ensures err { OnErr result (self.new ≡ self.old) }
    {
        let clause = clause.copy()?;
        self.added.reserve(1)?;
        self.added.push_reserved(Added::Whole(clause));
        Ok(())
    }

    /// Keeps the literals of an added clause as these, which are the same ones. The clauses are the same, and of the others those can be
    /// read that could.
    pub fn pack(&mut self, number: u32, literals: Literals)
        requires inside { number < length self.old.clauses }
        requires same { slice_index_or self.old.clauses number [] ≡ literals }
        ensures clauses { self.new.clauses ≡ self.old.clauses }
        ensures flags { length self.new.packed ≡ length self.old.packed }
        ensures others { (n : ℕ) → (n ≡ number → ⊥) → CanRead self.old n → CanRead self.new n }
    {
        if number >= self.given {
            self.added[(number - self.given) as usize] = Added::Packed(literals);
        }
    }
}
