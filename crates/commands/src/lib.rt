//! What the bytes of files come to for a request of one task: they are read as a task and grounded, and a race on it, a listing, a
//! checked plan or a certificate has its ending.
//!
//! `specs/Answers.antt` says which: `Decides` has what the files of each request decide.
//!
//! ```text
//! let ending = answer(rt, alloc, &request, &files, &OpenGate)?;    // for `plan`: the report of the race on the task
//! ```
//!
//! A caller that runs several races side by side reads and grounds each task by `ready_with` of plan_tasks, finds what is known of it by
//! [`raced::known_of`], and tells of its race by [`reported::reported`].
//!
//! `raced` has the invariants, the order, the form and the race, `reported` the report on it, `answer` one function a command, `certify` the
//! commands on certificates, `generated` the command `gen`. A certificate that a horizon has no plan is made by `prove`, from the run of the
//! horizon, and accepted by `verify`, by the checker alone; `specs/Certificate.antt` says which texts are certificates.
#![tactic(auto)]

pub mod answer;
mod certify;
mod error;
pub mod generated;
pub mod prove;
pub mod raced;
pub mod reported;
pub mod verify;

pub use error::ProofError;
