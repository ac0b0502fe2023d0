//! What the words of a command line ask for.
//!
//! The first word names a command, and `clap` reads it and the rest as one simple command of that name. The
//! range of each number comes from the reader that `clap` ran, and is not tested again:
//!
//! ```text
//! match read_words(alloc, words)? {
//!     Some(Request::Plan { stepping, domain, problem, settings }) => plan(stepping, domain, problem, &settings),
//!     Some(_) => ..,
//!     None => usage(),
//! }
//! ```
//!
//! A command line is read in one [`parse`] by `clap`, for commands that are made of [`Argument`]s.
#![tactic(auto)]

pub mod asked;
mod building;
mod command;
pub mod laws;
mod parsed_values;
mod parsing;
mod read;
mod request;
mod values;

pub use asked::{Asked, read_words};
pub use building::{Argument, put, with_all};
pub use parsed_values::{number, text, texts};
pub use parsing::{Memory, parse};
pub use request::{Problems, Request, Show, Stepping, Turns};
