ghost use Rattle.std.specs.Prelude.{◌≡◌, ◌∷◌, [], ◌++◌, ◌||◌, ◌&&◌, ◌==◌, ℕ, List, true, length, Some, None, if◌then◌else◌, IfOk, IsTrue};
ghost use Rattle.clause_base.specs.Clause.{IsClause};
ghost use Rattle.clause_base.specs.Formula.{IsUnsatisfiable};
ghost use Rattle.clause_base.specs.Derivation.{is_derived_after};
ghost use Rattle.clause_base.specs.declared.log.Entry.{Entry};
ghost use Rattle.clause_base.specs.declared.log.Entry.TheVariants.{Learn as learn_entry, Drop as drop_entry};
ghost use Rattle.rup_check.specs.own.Kept.{kept_named, is_derived_by};
ghost use Rattle.rup_check.specs.Taken.{HasTaken, NamesBelow};

use crate::entry::is_learnable;
use crate::falsified::Falsified;
use crate::kept::Kept;
use clause_base::formula::Formula;
use clause_base::literal::Lit;
use containers::memory::Memory;
use std::alloc::Global;
use std::marker::Model;

/// A checker of derivations from a formula that takes one entry after another and keeps none of them: it has the clauses
/// that they learned but for those that they dropped.
#[derive(Drop)]
pub struct Checker<'a> {
    formula: &'a Formula,
    marks: Falsified,
    kept: Kept,
    refuted: bool,
}

impl<'a> Model for Checker<'a> {
    ghost use Rattle.std.specs.Prelude.{◌≡◌, []};
    ghost use Rattle.rup_check.specs.Taken.{CheckerView, IsSound};

    ghost Value = { CheckerView };

    ghost view = { λ c. record { formula = c.formula.now; dropped = c.kept.dropped.items; learned = c.kept.learned; refuted = c.refuted } };

    ghost invariant = { λ c. IsSound (record { formula = c.formula.now; dropped = c.kept.dropped.items; learned = c.kept.learned; refuted = c.refuted }) × (c.marks ≡ record { variables = c.formula.now.variables; falsified = [] }) };
}

/// Takes the entry that learns a clause as the next one where it is derived, and says whether it is. Else what is known is unchanged.
fn learn_derived(
    marks: &mut Falsified,
    formula: &Formula,
    kept: &mut Kept,
    clause: &[Lit],
    hints: &[u32],
) -> Result<bool, Memory>
    requires marks { marks.old ≡ record { variables = formula.now.variables; falsified = [] } }
    requires named { NamesBelow formula.now.variables formula.now.clauses kept.old.dropped.items kept.old.learned }
    requires long { length kept.old.dropped.items ≡ length formula.now.clauses }
    ensures marks { marks.new ≡ marks.old }
    ensures answer { IfOk result (λ b. b ≡ is_derived_by formula.now.variables formula.now.clauses kept.old.dropped.items kept.old.learned (learn_entry clause.now hints.now)) }
    ensures dropped { kept.new.dropped.items ≡ kept.old.dropped.items }
    ensures learned { result ≡ Ok true → kept.new.learned ≡ kept.old.learned ++ Some clause.now ∷ [] }
    ensures same { (result ≡ Ok true → ⊥) → kept.new.learned ≡ kept.old.learned }
{
    // For the proof: the formula's literals are of its variables.
    let _below = formula.variables();
    if !is_learnable(marks, formula, kept, clause, hints)? {
        return Ok(false);
    }
    kept.learn(clause)?;
    Ok(true)
}

/// Takes the entry that drops a clause as the next one where the number names a kept one, and says whether it does. Else what
/// is known is unchanged.
fn forget_derived(formula: &Formula, kept: &mut Kept, number: u32) -> bool
    requires long { length kept.old.dropped.items ≡ length formula.now.clauses }
    ensures answer { result ≡ is_derived_by formula.now.variables formula.now.clauses kept.old.dropped.items kept.old.learned (drop_entry number) }
    ensures named { result ≡ true → (other : ℕ) → kept_named formula.now.clauses kept.new.dropped.items kept.new.learned other ≡ (if number == other then None else kept_named formula.now.clauses kept.old.dropped.items kept.old.learned other) }
    ensures long { length kept.new.dropped.items ≡ length kept.old.dropped.items }
    ensures count { length kept.new.learned ≡ length kept.old.learned }
    ensures same_dropped { (result ≡ true → ⊥) → kept.new.dropped.items ≡ kept.old.dropped.items }
    ensures same_learned { (result ≡ true → ⊥) → kept.new.learned ≡ kept.old.learned }
{
    if kept.clause(formula, number).is_none() {
        return false;
    }
    kept.forget(formula, number);
    true
}

/// Whether some entry learned the empty clause, with one more that learns this clause if it was taken.
fn refuted_with(refuted: bool, taken: bool, clause: &[Lit]) -> bool
    ensures { result ≡ (refuted || (taken && (length clause.now == 0))) }
{
    refuted || (taken && clause.len() == 0)
}

impl<'a> Checker<'a> {
    /// A checker that has taken no entry.
    pub fn new(alloc: Global, formula: &'a Formula) -> Result<Checker<'a>, Memory>
        ensures formula { IfOk result (λ checker. checker.formula ≡ formula.now) }
        ensures taken { IfOk result (λ checker. HasTaken checker []) }
    {
        let marks = Falsified::new(alloc, formula.variables())?;
        let kept = Kept::new(alloc, formula.count())?;
        Ok(Checker {
            formula,
            marks,
            kept,
            refuted: false,
        })
    }

    /// Takes the entry that learns a clause by these hints as the next one, exactly where it is derived from the formula and the
    /// entries so far, and says whether it is. Else, and after want of memory, the checker is unchanged.
    pub fn learn(&mut self, clause: &[Lit], hints: &[u32]) -> Result<bool, Memory>
        requires { IsClause clause.now }
        ensures formula { self.new.formula ≡ self.old.formula }
        ensures answer { (log : List Entry) → HasTaken self.old log → IfOk result (λ taken. taken ≡ is_derived_after self.old.formula.variables self.old.formula.clauses log (Some (learn_entry clause.now hints.now))) }
        ensures taken { (log : List Entry) → HasTaken self.old log → result ≡ Ok true → HasTaken self.new (log ++ learn_entry clause.now hints.now ∷ []) }
        ensures same { (result ≡ Ok true → ⊥) → self.new ≡ self.old }
    {
        let taken = learn_derived(&mut self.marks, self.formula, &mut self.kept, clause, hints)?;
        self.refuted = refuted_with(self.refuted, taken, clause);
        Ok(taken)
    }

    /// Takes the entry that drops the clause with this number as the next one, exactly where the number names a kept clause, and
    /// says whether it does. Else the checker is unchanged.
    pub fn forget(&mut self, number: u32) -> bool
        ensures formula { self.new.formula ≡ self.old.formula }
        ensures answer { (log : List Entry) → HasTaken self.old log → result ≡ is_derived_after self.old.formula.variables self.old.formula.clauses log (Some (drop_entry number)) }
        ensures taken { (log : List Entry) → HasTaken self.old log → result ≡ true → HasTaken self.new (log ++ drop_entry number ∷ []) }
        ensures same { (result ≡ true → ⊥) → self.new ≡ self.old }
    {
        forget_derived(self.formula, &mut self.kept, number)
    }

    /// Whether an entry that was taken learned the empty clause. The formula then has no satisfying assignment.
    pub fn is_refuted(&self) -> bool
        ensures value { result ≡ self.now.refuted }
        ensures unsatisfiable { IsTrue result → IsUnsatisfiable self.now.formula.clauses }
    {
        self.refuted
    }
}
