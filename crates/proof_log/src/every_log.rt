//! What holds of every log.
ghost use Rattle.proof_log.specs.Text.{AreSmall, AreWritten, IsWritten};
ghost use Rattle.proof_log.specs.Step.{told, IsLawful};

use crate::log::Log;
use crate::numbers::Numbers;
use crate::reader::Step;

// The numbers of a list can be written.
fn row_is_small(numbers: &Numbers<'_>)
    ensures { AreSmall numbers.now }
{
    let mut rest = numbers.copy();
    while let Some(number) = rest.next() {
        // For the proof: it is a u32.
        let _number = number;
    }
}

// An entry has a line.
fn entry_is_written(step: &Step<'_>)
    requires { IsLawful step.now }
    ensures { IsWritten (told step.now) }
{
    match step {
        Step::Learn { clause, hints } => {
            row_is_small(clause);
            row_is_small(hints);
        }
        Step::Drop { number } => {
            // For the proof: it is a u32.
            let _number = *number;
        }
    }
}

/// Each entry of a log has a line. It does nothing.
pub fn written(log: &Log)
    ensures { AreWritten log.now }
{
    let mut reader = log.entries();
    while let Some(step) = reader.next() {
        entry_is_written(&step);
    }
}
