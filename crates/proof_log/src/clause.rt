//! Codes that are a clause.
ghost use Rattle.std.specs.Prelude.{◌≡◌, IfOk, IfSome, None, IsTrue, false};
ghost use Rattle.clause_base.specs.Clause.{IsClause};
ghost use Rattle.proof_log.specs.own.Codes.{GoesBefore};

use clause_base::clause::Clause;
use clause_base::literal::{Lit, Lits};
use containers::codes::opposite;
use containers::memory::Memory;
use std::alloc::Global;

// Whether a code may stand right before these.
fn goes_before(code: u32, codes: &[u32]) -> bool
    ensures yes { IsTrue result → GoesBefore code codes.now }
    ensures no { result ≡ false → GoesBefore code codes.now → ⊥ }
{
    match codes.first() {
        Some(next) => code < *next && *next != opposite(code),
        None => true,
    }
}

// Whether codes rise strictly, and no two of them are those of a variable and of its negation.
fn are_clause(codes: &[u32]) -> bool
    ensures yes { IsTrue result → IsClause codes.now }
    ensures no { result ≡ false → IsClause codes.now → ⊥ }
{
    let mut rest = codes;
    while let Some((code, others)) = rest.split_first() {
        if !goes_before(*code, others) {
            return false;
        }
        rest = others;
    }
    true
}

// The literals of these codes.
fn literals(alloc: Global, codes: &[u32]) -> Result<Lits, Memory>
    ensures { IfOk result (λ lits. lits ≡ codes.now) }
{
    let mut lits = Vec::new(alloc);
    lits.reserve(codes.len())?;
    for code in codes {
        lits.push(Lit(*code))?;
    }
    Ok(Lits::of(lits))
}

/// The clause of these codes; none where they do not rise strictly, or have those of a variable and of its negation.
pub fn clause_of(alloc: Global, codes: &[u32]) -> Result<Option<Clause>, Memory>
    ensures some { IfOk result (λ o. IfSome o (λ clause. (clause ≡ codes.now) × IsClause codes.now)) }
    ensures none { IfOk result (λ o. o ≡ None → IsClause codes.now → ⊥) }
{
    if !are_clause(codes) {
        return Ok(None);
    }
    Ok(Some(Clause::of_sorted(literals(alloc, codes)?)))
}
