ghost use Rattle.std.specs.Prelude.{◌≡◌, ◌∷◌, [], ◌++◌, ◌<◌, Some, length, slice_get, All, IfOk, OnOk, OnErr};
ghost use Rattle.std.specs.Option.{option_to_list};
ghost use Rattle.clause_base.specs.Clause.{IsClause, clause_of};

use crate::clause::{Clause, has_opposite_neighbours, sort_into};
use crate::literal::Lit;
use containers::memory::Memory;
use containers::{FlatLists, let_go};
use std::alloc::Global;
use std::marker::Model;

/// A list of clauses: their literals one after another in one block of memory, where each ends in another, and a third block for
/// sorting.
pub struct ClauseList {
    lists: FlatLists<Lit>,
    sorted: Vec<Lit>,
}

impl Model for ClauseList {
    ghost use Rattle.std.specs.Prelude.{List, ℕ, All};
    ghost use Rattle.clause_base.specs.Clause.{IsClause};

    ghost Value = { List (List ℕ) };

    ghost view = { λ c. c.lists };

    ghost invariant = { λ c. All IsClause c.lists };
}

/// All parts are let go in one call, so that a proof has one step for it and not one for each part.
impl Drop for ClauseList {
    fn drop(self) {
        let_go!(self: ClauseList { lists, sorted });
    }
}

/// Adds a clause at the end. After want of memory the clauses are unchanged.
fn push_clause(lists: &mut FlatLists<Lit>, clause: &[Lit]) -> Result<(), Memory>
    requires lawful { All IsClause lists.old }
    requires clause { IsClause clause.now }
    ensures lawful { All IsClause lists.new }
    ensures ok { OnOk result (lists.new ≡ lists.old ++ clause.now ∷ []) }
    ensures err { OnErr result (lists.new ≡ lists.old) }
{
    lists.push(clause)?;
    Ok(())
}

impl ClauseList {
    /// The list without clauses. It takes no memory, and keeps the allocator for the clauses to come.
    pub fn new(alloc: Global) -> ClauseList
        ensures { result ≡ [] }
    {
        ClauseList {
            lists: FlatLists::new(alloc),
            sorted: Vec::new(alloc),
        }
    }

    /// How many clauses there are.
    pub fn count(&self) -> usize
        ensures value { result ≡ length self.now }
        ensures lawful { All IsClause self.now }
    {
        self.lists.len()
    }

    /// The literals of the clause with this number, counted from 0.
    pub fn clause(&self, number: usize) -> &[Lit]
        requires { number < length self.now }
        ensures value { slice_get self.now number ≡ Some result.now }
        ensures lawful { IsClause result.now }
    {
        self.lists.at(number)
    }

    /// Adds a clause at the end. After want of memory the list is unchanged.
    pub fn add(&mut self, clause: Clause) -> Result<(), Memory>
        ensures ok { OnOk result (self.new ≡ self.old ++ clause ∷ []) }
        ensures err { OnErr result (self.new ≡ self.old) }
    {
        self.add_sorted(clause.as_slice())
    }

    /// Adds the clause of literals that are in a clause's form already. After want of memory the list is unchanged.
    pub fn add_sorted(&mut self, lits: &[Lit]) -> Result<(), Memory>
        requires { IsClause lits.now }
        ensures ok { OnOk result (self.new ≡ self.old ++ lits.now ∷ []) }
        ensures err { OnErr result (self.new ≡ self.old) }
    {
        push_clause(&mut self.lists, lits)
    }

    /// Adds the clause of these literals, in whatever order and however often they stand, and nothing where two of them are
    /// opposite. After want of memory the list is unchanged.
    pub fn add_of(&mut self, lits: &[Lit]) -> Result<(), Memory>
        ensures ok { OnOk result (self.new ≡ self.old ++ option_to_list (clause_of lits.now)) }
        ensures err { OnErr result (self.new ≡ self.old) }
    {
        sort_into(&mut self.sorted, lits)?;
        if has_opposite_neighbours(&self.sorted) {
            return Ok(());
        }
        push_clause(&mut self.lists, &self.sorted)
    }

    /// The same list in memory of its own, with no room for more.
    pub fn copy(&self, alloc: Global) -> Result<ClauseList, Memory>
        ensures { IfOk result (λ list. list ≡ self.now) }
    {
        Ok(ClauseList {
            lists: self.lists.copy(alloc)?,
            sorted: Vec::new(alloc),
        })
    }

    /// Makes room for so many more literals and clauses, as a vector does. The clauses stay.
    pub fn reserve(&mut self, literals: usize, clauses: usize) -> Result<(), Memory>
        ensures { self.new ≡ self.old }
    {
        self.lists.reserve(literals, clauses)?;
        Ok(())
    }
}
