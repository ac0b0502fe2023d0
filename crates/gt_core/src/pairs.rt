//! Clauses of one or two fact literals that are known of the states of a task.
ghost use Rattle.gt_core.specs.Limits.{most_facts};

use crate::clause_list::{in_order, make_room, mark, put_in};
use bit_sets::row::{BitRow, empty_rows};
use containers::let_go;
use containers::memory::Memory;
use std::alloc::Global;
use std::marker::Model;

/// A set of clauses of one fact literal, or of two literals of different facts, over so many facts. It is kept as a
/// sorted list, and as a row of bits for each literal, which has the literals that stand in a clause with it. A
/// literal without a clause takes no row.
pub struct Pairs {
    facts: u32,
    clauses: Vec<(u32, u32)>,
    rows: Vec<BitRow>,
}

impl Model for Pairs {
    ghost use Rattle.gt_core.specs.Clauses.{KnownClauses, IsKnownClauses, AreClauseRows};

    ghost Value = { KnownClauses };

    ghost view = { λ p. record { facts = p.facts; clauses = p.clauses.items } };

    ghost invariant = { λ p. IsKnownClauses (record { facts = p.facts; clauses = p.clauses.items }) × AreClauseRows p.facts p.clauses.items p.rows.items };
}

/// All parts are let go in one call, so that a proof has one step for it and not one for each part.
impl Drop for Pairs {
    fn drop(self) {
        let_go!(self: Pairs { facts, clauses, rows });
    }
}

impl Pairs {
    ghost use Rattle.std.specs.Prelude.{◌≡◌, ℕ, ◌≤◌, ◌<◌, ◌*◌, [], ◌∷◌, length, slice_get, Some, IfOk, OnOk, OnErr};
    ghost use Rattle.bit_sets.specs.Rows.{row_has};
    ghost use Rattle.gt_core.specs.Literal.{opposite};
    ghost use Rattle.gt_core.specs.Interference.{has_clause};
    ghost use Rattle.gt_core.specs.Clauses.{KnownClauses, IsKnownClauses, SameClauses};

    /// The set without a clause, over so many facts.
    pub fn empty(alloc: Global, facts: u32) -> Result<Pairs, Memory>
        requires { facts ≤ most_facts }
        ensures { IfOk result (λ pairs. pairs ≡ record { facts = facts; clauses = [] }) }
    {
        Ok(Pairs {
            facts,
            clauses: Vec::new(alloc),
            rows: empty_rows(alloc, 2 * facts as usize)?,
        })
    }

    /// Adds the clause of two literals that are not opposite, or of one literal, given twice. The order of the two has
    /// no effect, and a clause that is there already stays once. After want of memory the set is as it was.
    pub fn add(&mut self, l: u32, m: u32) -> Result<(), Memory>
        requires l { l < 2 * self.old.facts }
        requires m { m < 2 * self.old.facts }
        requires apart { m ≡ opposite l → ⊥ }
        ensures added { OnOk result (SameClauses self.new.clauses ((l, m) ∷ self.old.clauses)) }
        ensures facts { self.new.facts ≡ self.old.facts }
        ensures lawful { IsKnownClauses self.new }
        ensures kept { OnErr result (self.new ≡ self.old) }
    {
        if self.has(l, m) {
            return Ok(());
        }
        make_room(&mut self.rows, l, m)?;
        make_room(&mut self.rows, m, l)?;
        put_in(&mut self.clauses, in_order(l, m))?;
        mark(&mut self.rows, l, m);
        mark(&mut self.rows, m, l);
        Ok(())
    }

    /// How many facts the clauses are over.
    pub fn facts(&self) -> u32
        ensures { result ≡ self.now.facts }
    {
        self.facts
    }

    /// Whether the clause of two literals is in the set, in either order; of one literal twice, whether the clause
    /// of this one literal is.
    pub fn has(&self, l: u32, m: u32) -> bool
        ensures { result ≡ has_clause self.now.clauses l m }
    {
        let side = 2 * self.facts;
        if l >= side || m >= side {
            return false;
        }
        self.rows[l as usize].contains(m)
    }

    /// The literals of the facts that stand in a clause with one, and itself where it is a clause alone.
    pub fn row(&self, l: u32) -> &BitRow
        requires { l < 2 * self.now.facts }
        ensures { (m : ℕ) → m < 2 * self.now.facts → row_has result.now m ≡ has_clause self.now.clauses l m }
    {
        &self.rows[l as usize]
    }

    /// How many clauses there are.
    pub fn count(&self) -> u32
        ensures count { result ≡ length self.now.clauses }
        ensures lawful { IsKnownClauses self.now }
    {
        self.clauses.len() as u32
    }

    /// The clause at a place, from 0, in sorted order: by its smaller literal, which stands first, then by its
    /// greater. A clause of one literal has it twice.
    pub fn at(&self, i: u32) -> (u32, u32)
        requires { i < length self.now.clauses }
        ensures { slice_get self.now.clauses i ≡ Some result }
    {
        self.clauses[i as usize]
    }
}
