//! The entries of a log, as they are read one after another, handed to a checker.
ghost use Rattle.std.specs.Prelude.{◌≡◌, ◌∷◌, [], ◌++◌, ℕ, List, true, Some, IfOk};
ghost use Rattle.clause_base.specs.Derivation.{is_derived_after, learns_empty};
ghost use Rattle.clause_base.specs.declared.log.Entry.{Entry};
ghost use Rattle.proof_log.specs.Step.{told_by, IsLawfulBy};
ghost use Rattle.rup_check.specs.Taken.{HasTaken};

use crate::checker::Checker;
use clause_base::literal::Lit;
use containers::memory::Memory;
use proof_log::reader::Kind;

/// Whether an entry learns the empty clause.
pub fn learns_empty(kind: Kind, lits: &[Lit]) -> bool
    ensures { (hints : List ℕ) → result ≡ learns_empty (told_by kind lits.now hints) }
{
    match kind {
        Kind::Learn => lits.len() == 0,
        Kind::Drop { number: _ } => false,
    }
}

/// Takes an entry as the next one, exactly where it is derived, and says whether it is.
pub fn take_step(
    checker: &mut Checker<'_>,
    kind: Kind,
    lits: &[Lit],
    hints: &[u32],
) -> Result<bool, Memory>
    requires { IsLawfulBy kind lits.now }
    ensures formula { checker.new.formula ≡ checker.old.formula }
    ensures answer { (log : List Entry) → HasTaken checker.old log → IfOk result (λ taken. taken ≡ is_derived_after checker.old.formula.variables checker.old.formula.clauses log (Some (told_by kind lits.now hints.now))) }
    ensures taken { (log : List Entry) → HasTaken checker.old log → result ≡ Ok true → HasTaken checker.new (log ++ told_by kind lits.now hints.now ∷ []) }
{
    match kind {
        Kind::Learn => checker.learn(lits, hints),
        Kind::Drop { number } => Ok(checker.forget(number)),
    }
}
