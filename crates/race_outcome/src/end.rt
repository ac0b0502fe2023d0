//! What a race comes to.

use crate::line::Lines;
use step_encoding::steps::Steps;

/// How a race ends, with a line for each horizon that was started, rising.
#[derive(Drop)]
pub enum RaceEnd {
    /// The least horizon that was found, with its steps.
    Plan {
        horizon: u32,
        steps: Steps,
        lines: Lines,
    },
    /// The last listed horizon is refuted.
    Exhausted {
        horizon: u32,
        lines: Lines,
    },
    /// The budget is spent.
    Unfinished {
        lines: Lines,
    },
}
