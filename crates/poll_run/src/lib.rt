//! Runs that are polled by hand, and what drives them.
//!
//! A [`PollRun`] is a future over a run that can be stopped and advanced: each poll advances it once, by a slice, until it is
//! settled or at its target. It is [`Bounded`]: it is ready after finitely many polls. A [`Driver`] polls a future to its end;
//! [`settle`] drives one run.
//!
//! ```text
//! let mut driver = BlockOn::new(&rt);
//! let run = settle(&mut driver, run, 50, 10)?;    // the run where 50 units have it, in polls of 10 units
//! ```
//!
//! [`drive_in_turns`] has futures of one type polled in turn, by one future that a driver drives to its end.
//!
//! ```text
//! let ends = drive_in_turns(alloc, &mut driver, futures, &[1, 0])?;    // what each gave, in the order of the list
//! ```
#![tactic(auto)]

mod block_driver;
mod bounded;
mod driver;
mod in_turns;
mod no_driver;
mod poll_run;
mod settling;

pub use block_driver::BlockOn;
pub use bounded::Bounded;
pub use driver::{DriveFailed, Driver};
pub use in_turns::{TurnsError, drive_in_turns};
pub use no_driver::NoDriver;
pub use poll_run::PollRun;
pub use settling::{SettleError, settle};
