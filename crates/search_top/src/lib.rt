//! The top call of the program that walks through states: from the words of a command line and the bytes of files to an answer of plans of any
//! length and an exit status.
//!
//! `specs/Headline.antt` says what is promised, and `specs/Causes.antt` when each answer comes.
//!
//! `read` reads the words. `decide` takes the files that they name. `search` grounds the task and walks through its states (`walk`), within the
//! budget of the words (`budget`), and has the answer told (`report`). `ended` has how a run ends, and `finish` of `plan_endings` writes it.
#![tactic(auto)]

mod budget;
mod command;
mod decide;
mod ended;
mod explore;
mod hopeless;
mod judged;
mod laws;
mod limits;
mod never;
mod never_report;
mod read;
mod refute;
mod report;
mod request;
mod search;
pub mod top;
mod values;
mod walk;

pub use ended::{Ended, Finding, Outcome};
pub use judged::Judgement;
pub use limits::{MOST_COUNT, MOST_MEMORY};
pub use plan_endings::Status;
pub use request::{Format, How, Request};
