//! How a run of the judge ends: each ending has an exit status and a text.
//!
//! ```text
//! let status = finish(alloc, Ok(Ended::Rejected { line: 3 }), &mut sink);    // `; rejected line 3`, with status 1
//! ```
ghost use Rattle.judge_top.specs.Ended.{status_of, text_of, is_there, IsSmall};
ghost use Rattle.judge_top.specs.declared.ended.Ended.TheVariants as ended;

use pl_io::Memory;
use plan_endings::{Due, Ending, RunEnd, of_number, of_numbers};
use std::alloc::Global;

/// How a run of the judge ends, but for want of memory and a write fault.
#[derive(Drop)]
pub enum Ended {
    /// As a run of the planner may end: a text is told, a file is refused, could not be read or is too long, the task or the formula is
    /// past a limit, or all lines of a proof follow and the last clause is not empty.
    Plain(Ending),
    /// A proof refutes the formula of a horizon, with so many entries.
    Refuted { horizon: u32, entries: u64 },
    /// This line of a proof, counted from 1, is the first that does not follow.
    Rejected { line: u64 },
    /// This line of a proof, or of a model, counted from 1, has more bytes than a line may have.
    TooLong { line: u64 },
    /// A line of a proof is none: the offset of its first byte.
    Syntax { at: u64 },
    /// This clause of a formula, counted from 0, is the first that the values of a model's file do not make true.
    NoModel { clause: u32 },
    /// A model's file is none: the offset of the first byte of its first line that is none or contradicts the lines before it, or how
    /// long the file is, where its values have no end.
    NoText { at: u64 },
    /// A model's file could not be read.
    Unread,
    /// The words are none that are taken.
    Usage,
}

impl RunEnd for Ended {
    ghost status_of = { status_of };

    ghost text_of = { text_of };

    ghost is_there = { is_there };

    ghost is_small = { IsSmall };

    ghost plain = { ended.Plain };

    fn of_plain(ending: Ending) -> Ended {
        Ended::Plain(ending)
    }

    fn status(&self) -> u8 {
        match self {
            Ended::Plain(ending) => ending.status(),
            Ended::Refuted { .. } => 0,
            Ended::Rejected { .. } | Ended::NoModel { .. } => 1,
            Ended::Syntax { .. } | Ended::NoText { .. } => 3,
            Ended::TooLong { .. } => 4,
            Ended::Unread => 5,
            Ended::Usage => 7,
        }
    }

    fn text(self, alloc: Global) -> Result<Due, Memory> {
        match self {
            Ended::Plain(ending) => ending.text(alloc),
            Ended::Refuted { horizon, entries } => {
                let horizon = u64::from(horizon);
                of_numbers(alloc, "; refuted horizon ", horizon, " entries ", entries)
            }
            Ended::Rejected { line } => of_number(alloc, "; rejected line ", line),
            Ended::TooLong { line } => of_number(alloc, "; limit line ", line),
            Ended::Syntax { at } => of_number(alloc, "; refused syntax proof ", at),
            Ended::NoModel { clause } => {
                let clause = u64::from(clause) + 1;
                of_number(alloc, "; no model clause ", clause)
            }
            Ended::NoText { at } => of_number(alloc, "; refused syntax model ", at),
            Ended::Unread => Ok(Due::Fixed("; read fault model\n")),
            Ended::Usage => Ok(Due::Fixed("; usage: formula, judge or model\n")),
        }
    }
}
