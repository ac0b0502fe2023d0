//! The files that words name, taken from a shelf in the order of the words; the task that two of them say, read and grounded within the
//! limits; and what is claimed of a task and its files.
//!
//! `specs/Tasks.antt` says which files are a task, and why others are none; `specs/Claims.antt` what a claim on a task and its files is.
//!
//! ```text
//! let files = take_all(alloc, names, File::Plan, shelf)?;    // the bytes of each, taken at most once; or the run ends with a fault
//! let ready = read_ready(alloc, domain, problem)?;    // a task and what it is grounded to; or the run ends with a refusal
//! ```
//!
//! `specs/ToldPlans.antt` says what is claimed of a plan that a text tells: the text is a plan file, its calls lead to the goal, and its
//! steps are a step plan. `proofs/published/TellingPlans.antt` has the law that the text of what a model of a horizon's formula stands for is such.
#![tactic(auto)]

pub mod ground;
pub mod laws;
pub mod ready;
pub mod take;
pub mod task;
