//! The bytes of entries, and the clauses that they learn.
ghost use Rattle.std.specs.Prelude.{◌≡◌, ◌++◌, ◌∷◌, [], ◌*◌, length, map, take, Ok, OnOk, OnErr};
ghost use Rattle.clause_base.specs.declared.log.Entry.TheVariants.{Drop};
ghost use Rattle.proof_log.specs.own.Held.{hint_bytes, log_bytes, AreFew, AreSmall};

use crate::literals::Literals;
use crate::number::put_number;
use crate::numbers::put_numbers;
use clause_base::literal::Lit;
use containers::SharedListOf;
use containers::memory::Memory;
use std::alloc::AllocError;

/// Adds hints: how many there are, doubled, and the hints. After want of memory the bytes that stood before still stand first.
fn put_hints(steps: &mut Vec<u8>, hints: &[u32]) -> Result<(), AllocError>
    ensures ok { OnOk result (steps.new.items ≡ steps.old.items ++ hint_bytes hints.now) }
    ensures few { OnOk result (AreFew hints.now) }
    ensures before { take (length steps.old.items) steps.new.items ≡ steps.old.items }
{
    put_number(steps, 2 * hints.len() as u64)?;
    put_numbers(steps, hints)
}

/// Adds the numbers that entries drop. After want of memory the bytes that stood before still stand first.
fn put_drops(steps: &mut Vec<u8>, numbers: &[u32]) -> Result<(), AllocError>
    ensures ok { OnOk result (steps.new.items ≡ steps.old.items ++ log_bytes (map (λ n. Drop n) numbers.now)) }
    ensures small { OnOk result (AreSmall (map (λ n. Drop n) numbers.now)) }
    ensures before { take (length steps.old.items) steps.new.items ≡ steps.old.items }
{
    for number in numbers {
        put_number(steps, 2 * (*number as u64) + 1)?;
    }
    Ok(())
}

/// Hands on whether bytes were added behind the first `start`: after want of memory all behind these are dropped.
fn or_back(steps: &mut Vec<u8>, start: usize, added: Result<(), AllocError>) -> Result<(), Memory>
    ensures added { OnOk result (added ≡ Ok tt) }
    ensures ok { OnOk result (steps.new.items ≡ steps.old.items) }
    ensures err { OnErr result (steps.new.items ≡ take start steps.old.items) }
{
    match added {
        Ok(()) => Ok(()),
        Err(error) => {
            steps.truncate(start);
            Err(Memory::from(error))
        }
    }
}

/// Adds the hints of an entry that learns a clause. After want of memory the bytes are unchanged.
fn add_hints(steps: &mut Vec<u8>, hints: &[u32]) -> Result<(), Memory>
    ensures ok { OnOk result (steps.new.items ≡ steps.old.items ++ hint_bytes hints.now) }
    ensures few { OnOk result (AreFew hints.now) }
    ensures err { OnErr result (steps.new.items ≡ steps.old.items) }
{
    let start = steps.len();
    let added = put_hints(steps, hints);
    or_back(steps, start, added)
}

/// Adds an entry that learns a clause, whose literals stay in the memory that they are in: the clause to those that are learned, and
/// the bytes of the hints. After want of memory both are unchanged.
pub fn add_learned(
    learned: &mut Vec<Literals>,
    steps: &mut Vec<u8>,
    clause: &SharedListOf<Lit>,
    hints: &[u32],
) -> Result<(), Memory>
    ensures clause { OnOk result (learned.new.items ≡ learned.old.items ++ clause.now ∷ []) }
    ensures hints { OnOk result (steps.new.items ≡ steps.old.items ++ hint_bytes hints.now) }
    ensures few { OnOk result (AreFew hints.now) }
    ensures same { OnErr result (learned.new.items ≡ learned.old.items) }
    ensures err { OnErr result (steps.new.items ≡ steps.old.items) }
{
    let clause = clause.copy()?;
    learned.reserve(1)?;
    add_hints(steps, hints)?;
    learned.push_reserved(Literals::shared(clause));
    Ok(())
}

/// Adds the numbers that entries drop. After want of memory the bytes are unchanged.
pub fn add_drops(steps: &mut Vec<u8>, numbers: &[u32]) -> Result<(), Memory>
    ensures ok { OnOk result (steps.new.items ≡ steps.old.items ++ log_bytes (map (λ n. Drop n) numbers.now)) }
    ensures small { OnOk result (AreSmall (map (λ n. Drop n) numbers.now)) }
    ensures err { OnErr result (steps.new.items ≡ steps.old.items) }
{
    let start = steps.len();
    let added = put_drops(steps, numbers);
    or_back(steps, start, added)
}
