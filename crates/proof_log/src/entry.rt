//! The line of an entry.
ghost use Rattle.std.specs.Prelude.{◌≡◌, IfOk, IfSome, None};
ghost use Rattle.proof_log.specs.own.Reading.{AddsLearn, AddsEntry, HasNoEntry, HasNoLearn};

use crate::clause::clause_of;
use crate::decimals::{read_numbers_to, read_one};
use crate::log::Log;
use clause_base::log::{Entry, Hints};
use containers::memory::Memory;
use std::alloc::Global;

// Adds the entry that is told by what follows `learn`, and gives what follows its line.
fn read_learn<'a>(
    alloc: Global,
    bytes: &'a [u8],
    numbers: &mut Vec<u32>,
    entries: &mut Log,
) -> Result<Option<&'a [u8]>, Memory>
    ensures some { IfOk result (λ o. IfSome o (λ rest. AddsLearn entries.old entries.new bytes.now rest.now)) }
    ensures none { IfOk result (λ o. o ≡ None → HasNoLearn bytes.now) }
{
    let Some(rest) = read_numbers_to(bytes, b" by".as_slice(), numbers)? else {
        return Ok(None);
    };
    let Some(clause) = clause_of(alloc, numbers)? else {
        return Ok(None);
    };
    let Some(rest) = read_numbers_to(rest, b"\n".as_slice(), numbers)? else {
        return Ok(None);
    };
    let hints = Hints::copied_from(alloc, numbers)?;
    entries.push(Entry::Learn { clause, hints })?;
    Ok(Some(rest))
}

/// Adds the entry whose line the bytes begin with, and gives what follows the line. The vector of numbers is written over.
pub fn read_entry<'a>(
    alloc: Global,
    bytes: &'a [u8],
    numbers: &mut Vec<u32>,
    entries: &mut Log,
) -> Result<Option<&'a [u8]>, Memory>
    ensures some { IfOk result (λ o. IfSome o (λ rest. AddsEntry entries.old entries.new bytes.now rest.now)) }
    ensures none { IfOk result (λ o. o ≡ None → HasNoEntry bytes.now) }
{
    if let Some(told) = bytes.strip_prefix(b"learn".as_slice()) {
        return read_learn(alloc, told, numbers, entries);
    }
    let Some(told) = bytes.strip_prefix(b"drop".as_slice()) else {
        return Ok(None);
    };
    let Some((number, rest)) = read_one(told) else {
        return Ok(None);
    };
    entries.push(Entry::Drop { number })?;
    Ok(Some(rest))
}
