//! How long a certificate is.
ghost use Rattle.std.specs.Prelude.{◌≡◌, ◌≤◌, ◌+◌, [], decimal, length};
ghost use Rattle.proof_log.specs.Text.{AreWritten, IsWritten, proof_text};
ghost use Rattle.proof_log.specs.own.Reading.{numbered, entry_then};
ghost use Rattle.proof_log.specs.Step.{told};
ghost use Rattle.proof_log.specs.own.Length.{saturated};

use crate::log::Log;
use crate::numbers::Numbers;
use crate::reader::Step;

// How many digits a number has.
fn digits(number: u32) -> u64
    ensures value { result ≡ length (decimal number) }
    ensures few { result ≤ 10 }
{
    let mut count = 1;
    let mut rest = number;
    while 10 <= rest {
        rest /= 10;
        count += 1;
    }
    count
}

// How many bytes numbers take, each after a blank.
fn row_length(numbers: &Numbers<'_>) -> u64
    ensures { result ≡ saturated (length (numbered numbers.now [])) }
{
    let mut sum = 0u64;
    let mut rest = numbers.copy();
    while let Some(number) = rest.next() {
        sum = sum.saturating_add(1 + digits(number));
    }
    sum
}

// How many bytes the line of an entry takes, with its LF.
fn entry_length(step: &Step<'_>) -> u64
    ensures { result ≡ saturated (length (entry_then (told step.now) [])) }
{
    match step {
        Step::Learn { clause, hints } => row_length(clause)
            .saturating_add(row_length(hints))
            .saturating_add(9),
        Step::Drop { number } => 6 + digits(*number),
    }
}

/// How many bytes the certificate has, or 18,446,744,073,709,551,615 where it has more. It takes no memory.
pub fn proof_length(horizon: u32, log: &Log) -> u64
    ensures { result ≡ saturated (length (proof_text horizon log.now)) }
{
    let mut sum = 9 + digits(horizon);
    let mut reader = log.entries();
    while let Some(step) = reader.next() {
        sum = sum.saturating_add(entry_length(&step));
    }
    sum
}
