ghost use Rattle.std.specs.Prelude.{◌≡◌, ◌∷◌, [], ◌+◌, ◌++◌, ◌==◌, ℕ, false, Some, None, length, replicate, slice_index_or, if◌then◌else◌, IfOk, OnOk, OnErr, IsSome};
ghost use Rattle.rup_check.specs.own.Kept.{kept_named};

use crate::pages::Pages;
use clause_base::formula::Formula;
use clause_base::literal::Lit;
use clause_base::view::View;
use containers::memory::Memory;
use std::alloc::Global;

/// What is known after some entries: for each clause of the formula whether it was dropped, and the clauses that the entries
/// learned but for those that were dropped.
#[derive(Drop)]
pub struct Kept {
    pub dropped: Vec<bool>,
    pub learned: Pages,
}

impl Kept {
    /// What is known before the first entry, over so many clauses: all are kept.
    pub fn new(alloc: Global, clauses: u32) -> Result<Kept, Memory>
        ensures dropped { IfOk result (λ kept. kept.dropped.items ≡ replicate clauses false) }
        ensures learned { IfOk result (λ kept. kept.learned ≡ []) }
    {
        Ok(Kept {
            dropped: vec![in alloc; false; clauses as usize]?,
            learned: Pages::new(alloc),
        })
    }

    /// The kept clause that a number names. The table of what was dropped is as long as the formula, so that the formula is
    /// asked for the clause alone.
    #[inline(always)]
    pub fn clause<'a>(&'a self, formula: &'a Formula, number: u32) -> Option<View<'a>>
        requires { length self.now.dropped.items ≡ length formula.now.clauses }
        ensures { result ≡ kept_named formula.now.clauses self.now.dropped.items self.now.learned number }
    {
        let count = self.dropped.len();
        if number as usize >= count {
            return self.learned_clause(number - count as u32);
        }
        if self.dropped[number as usize] {
            return None;
        }
        Some(formula.clause(number))
    }

    /// The learned clause with this number among the learned ones, where it is kept.
    fn learned_clause(&self, number: u32) -> Option<View<'_>>
        ensures { result ≡ slice_index_or self.now.learned number None }
    {
        let lits = self.learned.get(number as usize)?;
        Some(View::of(lits))
    }

    /// Takes the entry that learns a clause as the next one. After want of memory what is known is unchanged.
    pub fn learn(&mut self, clause: &[Lit]) -> Result<(), Memory>
        ensures dropped { self.new.dropped.items ≡ self.old.dropped.items }
        ensures learned { OnOk result (self.new.learned ≡ self.old.learned ++ Some clause.now ∷ []) }
        ensures same { OnErr result (self.new.learned ≡ self.old.learned) }
    {
        self.learned.push(clause)?;
        Ok(())
    }

    /// Takes the entry that drops the kept clause with this number as the next one.
    pub fn forget(&mut self, formula: &Formula, number: u32)
        requires long { length self.old.dropped.items ≡ length formula.now.clauses }
        requires kept { IsSome (kept_named formula.now.clauses self.old.dropped.items self.old.learned number) }
        ensures named { (other : ℕ) → kept_named formula.now.clauses self.new.dropped.items self.new.learned other ≡ (if number == other then None else kept_named formula.now.clauses self.old.dropped.items self.old.learned other) }
        ensures long { length self.new.dropped.items ≡ length self.old.dropped.items }
        ensures count { length self.new.learned ≡ length self.old.learned }
    {
        let count = formula.count();
        if number < count {
            self.dropped[number as usize] = true;
        } else {
            self.learned.remove((number - count) as usize);
        }
    }
}
