//! What became of a started horizon.

use containers::ListOf;
use rup_check::check::Checked;

/// How a horizon ended.
#[derive(Drop)]
pub enum LineEnd {
    /// It has no plan, by a log that was checked.
    Refuted(Checked),
    /// A greater horizon was refuted.
    Dropped,
    /// It may go on.
    Going,
    /// It has a plan.
    Found,
}

/// What became of a started horizon.
#[derive(Drop)]
pub struct Line {
    /// Its horizon: a number of steps.
    pub horizon: u32,
    /// How many conflicts its solver has handled.
    pub conflicts: u64,
    /// How it ended, or that it may go on.
    pub end: LineEnd,
}

/// A list of lines.
pub type Lines = ListOf<Line>;
