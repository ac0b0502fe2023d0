//! How a race of horizons ends: what became of each horizon that was started, and what the race came to.
//!
//! `specs/Ends.antt` has the same as a definition sees it, without the marks of accepted logs.
#![tactic(auto)]

mod end;
mod line;

pub use end::RaceEnd;
pub use line::{Line, LineEnd, Lines};
