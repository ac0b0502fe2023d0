//! The lines of a report: a text is a list of lines, joined, and what its lines say of horizons is told by [`laws`].
//!
//! Whoever writes a report says which lines are due; that the bytes say of a horizon what the report means, and no more, is
//! then a law of this crate.
#![tactic(auto)]

ghost use Rattle.std.specs.Prelude.{◌≡◌, ◌++◌, OnOk, decimal};
ghost use Rattle.report_lines.specs.Laws.{LinesReadBack, FrontsSayNoMore, ReportsSayEntries};

use itoa::Buffer;
use std::alloc::AllocError;

/// Appends a number in decimal digits. After `AllocError`, for want of room, some of them may be there.
pub fn push_number(text: &mut Vec<u8>, number: u64) -> Result<(), AllocError>
    ensures { OnOk result (text.new.items ≡ text.old.items ++ decimal number) }
{
    let mut buffer = Buffer::new();
    text.extend_from_slice(buffer.format(number).as_bytes())
}

/// The laws of lines: joined lines are read back, a front of a text says no more than the text, and a report says of
/// horizons exactly what its entries do. It does nothing.
pub fn laws()
    ensures read_back { LinesReadBack }
    ensures fronts { FrontsSayNoMore }
    ensures entries { ReportsSayEntries }
{}
