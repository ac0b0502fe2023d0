//! Writing a certificate.
ghost use Rattle.std.specs.Prelude.{◌≡◌, ◌≤◌, ◌++◌, [], OnOk, IfOk};
ghost use Rattle.proof_log.specs.Text.{proof_text};
ghost use Rattle.proof_log.specs.own.Reading.{numbered, entry_then};
ghost use Rattle.proof_log.specs.Step.{told};
ghost use Rattle.clause_base.specs.declared.log.Entry.TheVariants.{Learn, Drop};
ghost use Rattle.horizon_rates.specs.Limits.{last_horizon};

use crate::length::proof_length;
use crate::log::Log;
use crate::numbers::Numbers;
use crate::proof::Text;
use crate::reader::Step;
use containers::memory::Memory;
use report_lines::push_number;
use std::alloc::{AllocError, Global};

// Appends numbers, each after a blank.
fn push_row(text: &mut Vec<u8>, numbers: &Numbers<'_>) -> Result<(), AllocError>
    ensures { OnOk result (text.new.items ≡ text.old.items ++ numbered numbers.now []) }
{
    let mut rest = numbers.copy();
    while let Some(number) = rest.next() {
        text.push(32)?;
        push_number(text, u64::from(number))?;
    }
    Ok(())
}

// Appends the line of a learned clause.
fn push_learn(
    text: &mut Vec<u8>,
    clause: &Numbers<'_>,
    hints: &Numbers<'_>,
) -> Result<(), AllocError>
    ensures { OnOk result (text.new.items ≡ text.old.items ++ entry_then (Learn clause.now hints.now) []) }
{
    text.extend_from_slice(b"learn".as_slice())?;
    push_row(text, clause)?;
    text.extend_from_slice(b" by".as_slice())?;
    push_row(text, hints)?;
    text.push(10)?;
    Ok(())
}

// Appends the line of a dropped clause.
fn push_drop(text: &mut Vec<u8>, number: u32) -> Result<(), AllocError>
    ensures { OnOk result (text.new.items ≡ text.old.items ++ entry_then (Drop number) []) }
{
    text.extend_from_slice(b"drop ".as_slice())?;
    push_number(text, u64::from(number))?;
    text.push(10)?;
    Ok(())
}

// Appends the line of an entry.
fn push_entry(text: &mut Vec<u8>, step: &Step<'_>) -> Result<(), AllocError>
    ensures { OnOk result (text.new.items ≡ text.old.items ++ entry_then (told step.now) []) }
{
    match step {
        Step::Learn { clause, hints } => { push_learn(text, clause, hints) }
        Step::Drop { number } => push_drop(text, *number),
    }
}

/// The text of a certificate, in memory that is sized once. The horizon is from 0 to the greatest one.
pub fn write_proof(alloc: Global, horizon: u32, log: &Log) -> Result<Text, Memory>
    requires { horizon ≤ last_horizon }
    ensures { IfOk result (λ text. text ≡ proof_text horizon log.now) }
{
    let mut text = Vec::new(alloc);
    text.reserve(proof_length(horizon, log) as usize)?;
    text.extend_from_slice(b"horizon ".as_slice())?;
    push_number(&mut text, u64::from(horizon))?;
    text.push(10)?;
    let mut reader = log.entries();
    while let Some(step) = reader.next() {
        push_entry(&mut text, &step)?;
    }
    Ok(Text::of(text))
}
