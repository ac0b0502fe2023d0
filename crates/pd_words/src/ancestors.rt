// Where parents lead: as many steps as there are types, by halves, so that each type's chain is not
// walked alone.
ghost use Rattle.std.specs.Prelude.{◌≡◌, ◌<◌, ◌≤◌, ◌^◌, ◌/◌, ◌%◌, ℕ, length, map, slice_index, IfOk, IfErr};
ghost use Rattle.std.specs.List.{range_with_len};
ghost use Rattle.pd_model.specs.Types.{is_under};
ghost use Rattle.pd_words.specs.Types as types;
ghost use Rattle.pd_words.specs.Types.{AreParents};
ghost use Rattle.pd_words.specs.declared.fault.ReadError.TheVariants as errors;

use crate::fault::ReadError;
use std::alloc::Global;

fn number_at(numbers: &[u32], i: u32) -> u32
    ensures { result ≡ slice_index numbers.now i }
{
    match numbers.get(i as usize) {
        None => 0,
        Some(number) => *number,
    }
}

// One map of numbers after another.
fn composed(alloc: Global, outer: &[u32], inner: &[u32]) -> Result<Vec<u32>, ReadError>
    ensures composed { IfOk result (λ v. v.items ≡ map (slice_index outer.now) inner.now) }
    ensures memory { IfErr result (λ e. e ≡ errors.Memory) }
{
    let mut numbers = Vec::new(alloc);
    for i in inner {
        numbers.push(number_at(outer, *i))?;
    }
    Ok(numbers)
}

// The numbers below a count.
fn numbers_below(alloc: Global, count: usize) -> Result<Vec<u32>, ReadError>
    ensures numbers { IfOk result (λ v. v.items ≡ map (λ k. k) (range_with_len 0 count)) }
    ensures memory { IfErr result (λ e. e ≡ errors.Memory) }
{
    let mut numbers = Vec::new(alloc);
    if count > u32::MAX as usize {
        return Err(ReadError::Memory);
    }
    for i in 0..count as u32 {
        numbers.push(i)?;
    }
    Ok(numbers)
}

/// For each type the one that so many steps from a type to its parent lead to. It fails only for want of
/// memory.
pub fn ancestors(alloc: Global, parents: &[u32], steps: usize) -> Result<Vec<u32>, ReadError>
    requires { AreParents parents.now }
    ensures ancestors { IfOk result (λ v. v.items ≡ types.ancestors parents.now steps) }
    ensures memory { IfErr result (λ e. e ≡ errors.Memory) }
{
    if steps == 0 {
        return numbers_below(alloc, parents.len());
    }
    let half = ancestors(alloc, parents, steps / 2)?;
    let even = composed(alloc, half.as_slice(), half.as_slice())?;
    if steps % 2 == 0 {
        return Ok(even);
    }
    composed(alloc, parents, even.as_slice())
}

/// Whether the parents of a type lead to `object`, where this is known of as many steps as there are types.
#[tactic(auto, using(crate::proofs::Lineage::under_is))]
pub fn is_rooted(parents: &[u32], last: &[u32], kind: usize) -> bool
    requires parents { AreParents parents.now }
    requires last { last.now ≡ types.ancestors parents.now (length parents.now) }
    requires kind { kind < length parents.now }
    ensures { result ≡ is_under parents.now kind 0 }
{
    match last.get(kind) {
        None => true,
        Some(number) => *number == 0,
    }
}
