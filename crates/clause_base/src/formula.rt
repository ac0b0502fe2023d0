ghost use Rattle.std.specs.Prelude.{◌≡◌, ◌∷◌, [], ◌++◌, ◌+◌, ◌<◌, ◌≤◌, IfOk, List, ℕ, Some, length, slice_get, All, OnOk, OnErr, IsTrue, ◌↔◌};
ghost use Rattle.clause_base.specs.Formula.{Cnf, IsWithinVariables};
ghost use Rattle.clause_base.specs.Clause.{IsClause, HasVariablesBelow};
ghost use Rattle.clause_base.specs.Repeats.{IsRepeatable, repeated as repeated_clauses, variables_of};

use crate::clause::Clause;
use crate::clause_list::ClauseList;
use crate::literal::Lit;
use crate::repeated::Repeated;
use crate::view::View;
use containers::let_go;
use containers::memory::Memory;
use std::alloc::Global;
use std::marker::Model;

/// How many clauses a formula has at most.
const MOST_CLAUSES: u32 = 1_073_741_824;

/// A named conjunction of clauses over variables that are numbered from 0. It has at most 2,147,483,647 variables and at most
/// 1,073,741,824 clauses. First come those that were added before a repeated part, then those of the repeated part, which
/// stand once however often they are seen, then those that were added after it.
pub struct Formula {
    name: u32,
    variables: u32,
    told: ClauseList,
    repeated: Repeated,
    after: ClauseList,
}

/// All parts are let go in one call, so that a proof has one step for it and not one for each part.
impl Drop for Formula {
    fn drop(self) {
        let_go!(self: Formula { name, variables, told, repeated, after });
    }
}

/// The parts of a formula's list of clauses, in order.
#[derive(Clone, Copy)]
pub struct Parts<'a> {
    /// The clauses that were added before the repeated part, if there is one.
    pub told: &'a ClauseList,
    /// The clauses of all steps and of all times.
    pub repeated: &'a Repeated,
    /// The clauses that were added after the repeated part; all of them, if there is none.
    pub after: &'a ClauseList,
}

impl Model for Formula {
    ghost use Rattle.clause_base.specs.Formula.{Cnf};
    ghost use Rattle.clause_base.specs.own.Joined.{joined, IsJoined};

    ghost Value = { Cnf };

    ghost view = { λ f. record { name = f.name; variables = f.variables; clauses = joined f.told f.repeated f.after } };

    ghost invariant = { λ f. IsJoined f.variables f.told f.repeated f.after };
}

/// Adds the clauses of a repeated part, each in memory of its own.
fn write_out(formula: Formula, alloc: Global, part: &Repeated) -> Result<Formula, Memory>
    requires fits { variables_of part.now ≤ formula.variables }
    requires room { length formula.clauses + length (repeated_clauses part.now) ≤ 1073741824 }
    ensures { IfOk result (λ f. f ≡ record formula { clauses = formula.clauses ++ repeated_clauses part.now }) }
{
    let mut formula = formula;
    let mut lits = Vec::new(alloc);
    for number in 0..part.count() {
        part.clause(number).copy_into(&mut lits)?;
        formula.add_sorted(&lits)?;
    }
    Ok(formula)
}

impl Formula {
    /// The formula without clauses. It takes no memory, and keeps the allocator for the clauses to come.
    pub fn new(alloc: Global, name: u32, variables: u32) -> Formula
        requires { variables ≤ 2147483647 }
        ensures { result ≡ record { name = name; variables = variables; clauses = [] } }
    {
        Formula {
            name,
            variables,
            told: ClauseList::new(alloc),
            repeated: Repeated::none(alloc),
            after: ClauseList::new(alloc),
        }
    }

    /// Adds the clauses of a repeated part at the end, in the memory that the part brings, which copies of the formula share;
    /// where there is one already, each clause in memory of its own.
    pub fn repeat(self, alloc: Global, part: Repeated) -> Result<Formula, Memory>
        requires fits { variables_of part ≤ self.variables }
        requires room { length self.clauses + length (repeated_clauses part) ≤ 1073741824 }
        ensures { IfOk result (λ f. f ≡ record self { clauses = self.clauses ++ repeated_clauses part }) }
    {
        let told = self.told.count();
        let repeated = self.repeated.count();
        if told != 0 || repeated != 0 {
            return write_out(self, alloc, &part);
        }
        let part = part.share(alloc)?;
        // For the proof: the part's literals are of the formula's variables.
        let _below = part.count();
        let Formula {
            name,
            variables,
            told: _,
            repeated: _,
            after,
        } = self;
        Ok(Formula {
            name,
            variables,
            told: after,
            repeated: part,
            after: ClauseList::new(alloc),
        })
    }

    /// Adds a clause at the end. After want of memory the formula is unchanged.
    pub fn add(&mut self, clause: Clause) -> Result<(), Memory>
        requires below { HasVariablesBelow self.old.variables clause }
        requires room { length self.old.clauses < 1073741824 }
        ensures ok { OnOk result (self.new ≡ record self.old { clauses = self.old.clauses ++ clause ∷ [] }) }
        ensures err { OnErr result (self.new ≡ self.old) }
    {
        self.after.add(clause)
    }

    /// Adds the clause of literals that are in a clause's form already, without a block of memory for it. After want of
    /// memory the formula is unchanged.
    pub fn add_sorted(&mut self, lits: &[Lit]) -> Result<(), Memory>
        requires lawful { IsClause lits.now }
        requires below { HasVariablesBelow self.old.variables lits.now }
        requires room { length self.old.clauses < 1073741824 }
        ensures ok { OnOk result (self.new ≡ record self.old { clauses = self.old.clauses ++ lits.now ∷ [] }) }
        ensures err { OnErr result (self.new ≡ self.old) }
    {
        self.after.add_sorted(lits)
    }

    /// The same formula. The clauses of its repeated part stand in the same memory, the others in memory of their own.
    pub fn copy(&self, alloc: Global) -> Result<Formula, Memory>
        ensures { IfOk result (λ f. f ≡ self.now) }
    {
        let told = self.told.copy(alloc)?;
        let repeated = self.repeated.copy(alloc)?;
        let after = self.after.copy(alloc)?;
        Ok(Formula {
            name: self.name,
            variables: self.variables,
            told,
            repeated,
            after,
        })
    }

    /// Makes room for so many more literals and clauses, as a vector does. The formula stays.
    pub fn reserve(&mut self, literals: usize, clauses: usize) -> Result<(), Memory>
        ensures { self.new ≡ self.old }
    {
        self.after.reserve(literals, clauses)
    }

    /// Its name.
    pub fn name(&self) -> u32
        ensures { result ≡ self.now.name }
    {
        self.name
    }

    /// How many variables it has.
    pub fn variables(&self) -> u32
        ensures value { result ≡ self.now.variables }
        ensures small { self.now.variables ≤ 2147483647 }
        ensures below { IsWithinVariables self.now }
    {
        self.variables
    }

    /// How many clauses it has.
    pub fn count(&self) -> u32
        ensures value { result ≡ length self.now.clauses }
        ensures few { length self.now.clauses ≤ 1073741824 }
        ensures lawful { All IsClause self.now.clauses }
    {
        self.told.count() as u32 + self.repeated.count() + self.after.count() as u32
    }

    /// The literals of the clause with this number, counted from 0 in the order of the list.
    #[inline(always)]
    pub fn clause(&self, number: u32) -> View<'_>
        requires { number < length self.now.clauses }
        ensures value { slice_get self.now.clauses number ≡ Some result }
        ensures lawful { IsClause result }
        ensures below { HasVariablesBelow self.now.variables result }
    {
        let told = self.told.count() as u32;
        if number < told {
            return View::of(self.told.clause(number as usize));
        }
        let rest = number - told;
        let repeated = self.repeated.count();
        if rest < repeated {
            return self.repeated.clause(rest);
        }
        View::of(self.after.clause((rest - repeated) as usize))
    }

    /// The parts of its list of clauses.
    pub fn parts(&self) -> Parts<'_>
        ensures clauses { self.now.clauses ≡ result.told.now ++ (repeated_clauses result.repeated.now ++ result.after.now) }
        ensures fits { variables_of result.repeated.now ≤ self.now.variables }
        ensures lawful { IsRepeatable result.repeated.now }
    {
        // For the proof: what is repeated are clauses of one step and of one time.
        let _lawful = self.repeated.horizon();
        Parts {
            told: &self.told,
            repeated: &self.repeated,
            after: &self.after,
        }
    }

    /// Whether a further clause may be added.
    pub fn has_room(&self) -> bool
        ensures { IsTrue result ↔ (length self.now.clauses < 1073741824) }
    {
        self.count() < MOST_CLAUSES
    }
}
