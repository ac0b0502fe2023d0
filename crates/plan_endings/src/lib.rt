//! How a run of a program ends: each ending has an exit status and a text, which is written once, at the end.
//!
//! [`Ending`] has the endings of the planner, among them those that all programs have; a program with others has an enum of its own over
//! them, with an `impl` of [`RunEnd`]. What is decided of a run is a `Result<E, Stop>` of such an `E`: a [`stop::Stop`] is handed on by `?`.
//!
//! ```text
//! let status = finish(alloc, decided, &mut sink);    // the ending's; or 6 where the sink failed, and 8 for want of memory
//! ```
//!
//! A batch ends with the texts of its parts and the greatest of their statuses.
//!
//! ```text
//! let mut batch = Growing::new(alloc);
//! batch.push(alloc, Ending::TooLong(File::Problem))?;
//! let ending = batch.end();                           // `; problem 1`, `; limit file problem`, with status 4
//! ```
#![tactic(auto)]

mod ending;
mod parts;
mod program;
mod run_end;
mod status;
pub mod stop;
mod words;
mod written;

pub use ending::{Due, Ending, File, Kind, Limit, Outcome, of_number, of_numbers};
pub use parts::Growing;
pub use program::{Program, start};
pub use run_end::RunEnd;
pub use status::Status;
pub use words::{NO_WORDS, words_of};
pub use written::finish;
