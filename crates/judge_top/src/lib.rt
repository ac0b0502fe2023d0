//! The judge's top call: from the words of a command line, the bytes of files and a proof by whatever solver to an answer and an exit
//! status.
//!
//! `specs/Headline.antt` says what is promised, and `specs/Causes.antt` when each answer comes.
//!
//! `read` reads the words. `decide` takes the two files, grounds the task and builds the formula of the horizon (`formula`), and either has
//! its text told or the proof judged that a `Tape` gives (both by proof_verdict). In memory are the formula, what was learned, and one line.
//! `answer` has one function a command; for `model`, `model` has the values read and tested, and the steps that they stand for by the form.
//! `ended` has how a run ends.
#![tactic(auto)]

mod answer;
mod command;
mod decide;
mod ended;
mod formula;
mod model;
mod read;
mod request;
mod top;
mod values;

pub use ended::Ended;
pub use plan_endings::Status;
pub use request::Request;
pub use top::judge;
