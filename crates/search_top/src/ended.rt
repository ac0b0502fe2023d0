//! How a run ends: each ending has an exit status and a text.
//!
//! ```text
//! let status = finish(alloc, Ok(Ended::Walked { outcome, text }), &mut sink);    // `; no plan of any length`, with status 1
//! ```
ghost use Rattle.search_top.specs.Ended.{status_of, text_of, is_there, IsSmall};
ghost use Rattle.search_top.specs.declared.ended.Ended.TheVariants as ended;

use pl_io::{Bytes, Memory};
use plan_endings::{Due, Ending, RunEnd};
use std::alloc::Global;

/// What a walk through the states came to.
#[derive(Clone, Copy, PartialEq, Eq)]
pub enum Outcome {
    /// A plan.
    Planned,
    /// There is no plan of any length.
    NoPlan,
    /// As many states as the budget says were entered.
    Unfinished,
}

/// What came of it that it was tried to show that there is no plan of any length.
#[derive(Clone, Copy, PartialEq, Eq)]
pub enum Finding {
    /// There is none.
    NoPlan,
    /// The certificate does not show it.
    Rejected,
    /// There is a plan.
    Planned,
    /// That is open.
    Open,
    /// What was handed in is no certificate, or none of the kind that is wanted, or no proof.
    Refused,
    /// A line of a proof is too long.
    Past,
}

/// How a run ends, but for want of memory and a write fault.
#[derive(Drop)]
pub enum Ended {
    /// As a run of the planner may end: a file is refused, could not be read or is too long, or the task is past a limit.
    Plain(Ending),
    /// A walk through the states ended, with its report.
    Walked { outcome: Outcome, text: Bytes },
    /// It was tried to show that there is no plan of any length, and this text tells what came of it.
    Shown { finding: Finding, text: Bytes },
    /// The words are none that are taken.
    Usage,
}

impl RunEnd for Ended {
    ghost status_of = { status_of };

    ghost text_of = { text_of };

    ghost is_there = { is_there };

    ghost is_small = { IsSmall };

    ghost plain = { ended.Plain };

    fn of_plain(ending: Ending) -> Ended {
        Ended::Plain(ending)
    }

    fn status(&self) -> u8 {
        match self {
            Ended::Plain(ending) => ending.status(),
            Ended::Walked {
                outcome: Outcome::Planned,
                ..
            } => 0,
            Ended::Walked {
                outcome: Outcome::NoPlan,
                ..
            } => 1,
            Ended::Walked {
                outcome: Outcome::Unfinished,
                ..
            } => 2,
            Ended::Shown {
                finding: Finding::NoPlan,
                ..
            } => 0,
            Ended::Shown {
                finding: Finding::Rejected,
                ..
            } => 1,
            Ended::Shown {
                finding: Finding::Planned,
                ..
            } => 1,
            Ended::Shown {
                finding: Finding::Open,
                ..
            } => 2,
            Ended::Shown {
                finding: Finding::Refused,
                ..
            } => 3,
            Ended::Shown {
                finding: Finding::Past,
                ..
            } => 4,
            Ended::Usage => 7,
        }
    }

    fn text(self, alloc: Global) -> Result<Due, Memory> {
        match self {
            Ended::Plain(ending) => ending.text(alloc),
            Ended::Walked { text, .. } => Ok(Due::Made(text)),
            Ended::Shown { text, .. } => Ok(Due::Made(text)),
            Ended::Usage => Ok(Due::Fixed(
                "; usage: search, never, never-search, never-formula, never-judge or system\n",
            )),
        }
    }
}
