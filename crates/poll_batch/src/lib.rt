//! Races of horizons as futures: one race, and several that are polled in turn, by one future that a driver drives.
//!
//! ```text
//! let ends = batch_race(rt, alloc, &mut driver, races, &[1, 0])?;    // the end of each race, in the order of the list
//! ```
//!
//! A [`PollRace`] goes through the same rounds as those of `race`, with runs that are polled by hand. One poll of it begins a round, polls
//! one live run once, or ends a round; between two polls nothing runs. Its end is that of the defined race, for every slice.
//!
//! [`PollRun`], [`Driver`] and [`settle`] are of `poll_run`.
#![tactic(auto)]

mod anew;
mod batch;
mod phase;
mod polled_race;
mod round;
mod work;

pub use batch::{Ends, Races, batch_race};
pub use poll_run::{BlockOn, DriveFailed, Driver, NoDriver, PollRun, SettleError, settle};
pub use polled_race::PollRace;
