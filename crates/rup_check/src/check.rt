ghost use Rattle.std.specs.Prelude.{◌≡◌, ℕ, ◌+◌, ◌<◌, ◌^◌, length, IfOk, OnOk, IsOkUnless};
ghost use Rattle.clause_base.specs.Formula.{IsUnsatisfiable};
ghost use Rattle.clause_base.specs.Derivation.{IsDerivation, EndsEmpty, IsFirstUnderived, IsRefutation};
ghost use Rattle.rup_check.specs.Certificate.{Certifies};
ghost use Rattle.rup_check.specs.declared.check.CheckError.TheVariants as error;

use crate::checker::Checker;
use crate::steps::{learns_empty, take_step};
use clause_base::formula::Formula;
use containers::memory::Memory;
use proof_log::log::Log;
use std::alloc::Global;
use std::marker::Model;

/// The mark of an accepted log: `check` gives it, with a clause that says which formula and log it is of and that the
/// formula has no satisfying assignment. Nothing else makes one, since its fields are private; that is all that protects it.
/// The mark alone does not say what was refuted: a formula of one empty clause is refuted under every name.
#[derive(Drop)]
pub struct Checked {
    name: u32,
    entries: u32,
}

impl Checked {
    /// The name of the formula.
    pub fn name(&self) -> u32
        ensures { result ≡ self.now.name }
    {
        self.name
    }

    /// How many entries the log has.
    pub fn entries(&self) -> u32
        ensures { result ≡ self.now.entries }
    {
        self.entries
    }
}

impl Model for Checked {
    ghost use Rattle.rup_check.specs.Certificate.{Stamp};

    ghost Value = { Stamp };

    ghost view = { λ c. record { name = c.name; entries = c.entries } };
}

/// Why a log is not accepted.
#[derive(Clone, Copy, PartialEq, Eq)]
pub enum CheckError {
    /// The first entry, counted from 0 over all entries, that does not follow from the formula and the entries before it.
    Rejected {
        /// Its number in the log.
        entry: u32,
    },
    /// All entries follow, and the last one does not learn the empty clause, or there is no entry.
    NotEmpty,
    /// Want of memory, which says nothing of the log.
    Memory,
}

impl From<Memory> for CheckError {
    ghost from_gives = { λ _ e. e ≡ error.Memory };

    fn from(_: Memory) -> Self {
        CheckError::Memory
    }
}

/// Goes through a log from its first entry to its last, or to the first that is not derived.
fn go_through(alloc: Global, formula: &Formula, log: &Log) -> Result<(), CheckError>
    requires { length formula.now.clauses + length log.now < 2 ^ 32 }
    ensures refuted { OnOk result (IsRefutation formula.now.variables formula.now.clauses log.now) }
    ensures accepted { IsRefutation formula.now.variables formula.now.clauses log.now → IsOkUnless result CheckError.Memory }
    ensures rejected { (e : ℕ) → result ≡ Err (CheckError.Rejected e) → IsFirstUnderived formula.now.variables formula.now.clauses log.now e }
    ensures not_empty { result ≡ Err CheckError.NotEmpty → IsDerivation formula.now.variables formula.now.clauses log.now × (EndsEmpty log.now → ⊥) }
{
    let mut checker = Checker::new(alloc, formula)?;
    let mut lits = Vec::new(alloc);
    let mut hints = Vec::new(alloc);
    let mut reader = log.entries();
    let mut ends_empty = false;
    for number in 0..log.len() {
        let kind = reader.take_into(&mut lits, &mut hints)?;
        let clause = lits.as_slice();
        if !take_step(&mut checker, kind, clause, &hints)? {
            return Err(CheckError::Rejected {
                entry: number as u32,
            });
        }
        ends_empty = learns_empty(kind, clause);
    }
    if ends_empty {
        Ok(())
    } else {
        Err(CheckError::NotEmpty)
    }
}

/// Checks that a log derives the empty clause from a formula: each learned clause by its hints (reverse unit propagation:
/// Goldberg and Novikov, 2003), which name kept clauses, and each clause that is dropped was kept. It takes time linear in
/// the literals of the learned clauses and of those that the hints name.
pub fn check(alloc: Global, formula: &Formula, log: &Log) -> Result<Checked, CheckError>
    requires { length formula.now.clauses + length log.now < 2 ^ 32 }

    ensures certified { IfOk result (λ checked. Certifies checked formula.now log.now) }
    ensures unsatisfiable { OnOk result (IsUnsatisfiable formula.now.clauses) }
    ensures accepted { IsRefutation formula.now.variables formula.now.clauses log.now → IsOkUnless result CheckError.Memory }

    ensures rejected { (e : ℕ) → result ≡ Err (CheckError.Rejected e) → IsFirstUnderived formula.now.variables formula.now.clauses log.now e }
    ensures not_empty { result ≡ Err CheckError.NotEmpty → IsDerivation formula.now.variables formula.now.clauses log.now × (EndsEmpty log.now → ⊥) }
{
    go_through(alloc, formula, log)?;
    Ok(Checked {
        name: formula.name(),
        entries: log.len() as u32,
    })
}
