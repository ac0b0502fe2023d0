//! The drops of a restart: of the learned clauses that are kept, long, and forced no entry of the trail, the first half goes.
ghost use Rattle.std.specs.Prelude.{◌≡◌, ◌<◌, ◌≤◌, ◌++◌, ◌&&◌, ℕ, not, nat_lt, map, length, slice_index_or, false, IfOk, OnOk, OnErr};
ghost use Rattle.std.specs.List.{AllByRecursion};
ghost use Rattle.clause_base.specs.declared.log.Entry.TheVariants.{Drop};
ghost use Rattle.cdcl_defs.specs.State.{clause_at, is_kept};
ghost use Rattle.cdcl_defs.specs.Reduce.{has_forced, candidates, first_half, kept_without};
ghost use Rattle.conflict_analysis.specs.Clauses.{all_clauses};
ghost use Rattle.cdcl_core.specs.own.Search.{AreKept, watched};

use cdcl_defs::trail::Assigned;
use cdcl_tables::trail::Trail;
use conflict_analysis::clauses::Clauses;
use containers::memory::Memory;
use propagation::propagator::Propagator;
use std::alloc::Global;

/// For each of so many clauses whether it forced an entry of the trail.
fn forced_flags(alloc: Global, entries: &[Assigned], count: u32) -> Result<Vec<bool>, Memory>
    ensures len { IfOk result (λ flags. length flags.items ≡ count) }
    ensures forced { IfOk result (λ flags. (n : ℕ) → n < count → slice_index_or flags.items n false ≡ has_forced entries.now n) }
{
    let mut flags = vec![in alloc; false; count as usize]?;
    for entry in entries {
        if let Some(reason) = entry.reason {
            if let Some(flag) = flags.get_mut(reason as usize) {
                *flag = true;
            }
        }
    }
    Ok(flags)
}

/// The numbers of the learned clauses that may be dropped: of those that are kept and long, those that forced no entry.
fn candidates(alloc: Global, clauses: &Clauses, trail: &Trail) -> Result<Vec<u32>, Memory>
    ensures { IfOk result (λ numbers. numbers.items ≡ candidates (length clauses.now.formula.clauses) (all_clauses clauses.now) clauses.now.kept trail.now.entries) }
{
    let count = clauses.count();
    let forced = forced_flags(alloc, trail.entries(), count)?;
    let longs = clauses.longs();
    let mut numbers = Vec::new(alloc);
    for number in longs {
        if !forced[*number as usize] {
            numbers.push(*number)?;
        }
    }
    Ok(numbers)
}

/// The first half of some numbers, rounded down.
fn first_half(numbers: &[u32]) -> &[u32]
    ensures { result.now ≡ first_half numbers.now }
{
    &numbers[..numbers.len() / 2]
}

/// Stops watching clauses.
fn forget(propagator: &mut Propagator, numbers: &[u32])
    requires { AreKept propagator.old.kept numbers.now }
    ensures { propagator.new ≡ record propagator.old { kept = kept_without propagator.old.kept numbers.now } }
{
    for number in numbers {
        propagator.remove(*number);
    }
}

/// Whether a clause is kept no more, and what holds of it, is the same; where there is memory for its name in the log, its literals
/// are kept once, as bytes.
fn pack_all(clauses: &Clauses, propagator: &mut Propagator, numbers: &[u32])
    requires same { propagator.old.clauses ≡ all_clauses clauses.now }
    requires learned { AllByRecursion (λ n. (length clauses.now.formula.clauses ≤ n) × (n < length (all_clauses clauses.now))) numbers.now }
    requires gone { AllByRecursion (λ n. is_kept propagator.old.kept n ≡ false) numbers.now }
    ensures { propagator.new ≡ propagator.old }
{
    for number in numbers {
        if let Ok(literals) = clauses.literals(*number) {
            propagator.pack(*number, literals);
        }
    }
}

/// Drops the first half of the candidates. After want of memory nothing has changed.
pub fn reduce(
    alloc: Global,
    clauses: &mut Clauses,
    propagator: &mut Propagator,
) -> Result<(), Memory>
    requires { propagator.old ≡ watched clauses.old propagator.old.entries }
    ensures ok { OnOk result (clauses.new ≡ record clauses.old { log = clauses.old.log ++ map (λ n. Drop n) (first_half (candidates (length clauses.old.formula.clauses) (all_clauses clauses.old) clauses.old.kept propagator.old.entries)); kept = kept_without clauses.old.kept (first_half (candidates (length clauses.old.formula.clauses) (all_clauses clauses.old) clauses.old.kept propagator.old.entries)) }) }
    ensures err { OnErr result (clauses.new ≡ clauses.old) }
    ensures same { OnErr result (propagator.new ≡ propagator.old) }
    ensures mirrored { OnOk result (propagator.new ≡ watched clauses.new propagator.old.entries) }
{
    let numbers = candidates(alloc, clauses, propagator.trail())?;
    let half = first_half(numbers.as_slice());
    clauses.drop_all(half)?;
    forget(propagator, half);
    pack_all(clauses, propagator, half);
    Ok(())
}
