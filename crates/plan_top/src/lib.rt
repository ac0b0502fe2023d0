//! The planner's top call: from the words of a command line and the bytes of files to a report and an
//! exit status.
//!
//! `top` has the top call, `decide` the ending of a run, `batch` the command `batch`, with `parts` (its problems before their races) and `races`.
//! `laws` gathers the laws of the crates below in one call, in which nothing else runs. `specs/Headline.antt` has what is claimed of a task and
//! its files, `specs/Causes.antt` says when each ending comes, and `proofs/Promises.antt` that the promises follow from that cause.
#![tactic(auto)]

mod batch;
mod decide;
mod laws;
mod parts;
mod races;
mod top;

pub use plan_endings::{Ending, File, Kind, Limit, Outcome, Status};
pub use top::run;
