//! The race of horizons: rounds in which several horizons go on side by side, each by its grant, until one is found, the last
//! is refuted or the budget is spent (after Rintanen, Heljanko and Niemelä 2006).
//!
//! `specs/Race.antt` says what a race comes to, by its rates and its budget alone: so the end of a race is the same for every
//! number of workers and every slice.
//!
//! ```text
//! match race(rt, alloc, task, form, settings, &OpenGate)? {
//!     RaceEnd::Plan { horizon, steps, .. } => ..      // the least found horizon
//!     RaceEnd::Exhausted { horizon, .. } => ..        // the last listed horizon is refuted
//!     RaceEnd::Unfinished { .. } => ..                // the budget is spent
//! }
//! ```
//!
//! A caller that advances the runs of a round itself, as one that polls them, has a round in three parts: [`Racing::begin`], its
//! own work, and [`Begun::end`]. [`race`] begins a round over supporters that it makes once, has workers advance the runs, and ends it by the
//! same `end`.
//!
//! `racing` is a race between two rounds (window, ledger, runs, lines). `filling` starts horizons in it, with runs that need not be made, and
//! gives each the tables of a run that ended; `grant` grants and books; `work` makes jobs of the live runs and calls `round` of solver_pool;
//! `line` makes the line of a run; `run` is the loop. The code is tied to the definition by one relation (`specs/Tied.antt`): the race that the
//! code is in is the defined state, and each step of the code gives the definition's step of it.
#![tactic(auto)]

mod begun;
mod error;
mod filling;
mod fresh;
mod grant;
mod line;
mod racing;
mod run;
mod starting;
mod work;

pub use begun::{Begun, Opening};
pub use error::RaceError;
pub use racing::{Racing, Step};
pub use run::race;
pub use work::{jobs_of, with_all_granted};
