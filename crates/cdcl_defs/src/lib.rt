//! The rules of a learning solver, as definitions that compute: which event comes next, what a conflict teaches, and the
//! state after so many conflicts. The clause is that of the first unique implication point (Marques-Silva and Sakallah,
//! 1999; Zhang, Madigan, Moskewicz and Malik, 2001). `law` tells that a run may be cut wherever one likes.
//!
//! `sound_runs` tells what every state of a run keeps, and how its runs are cut.
//!
//! The only code is the types of trail entries, events and standing, and `runs_are_sound`, which does nothing: its clauses are laws.
#![tactic(auto)]

pub mod event;
pub mod law;
pub mod sound_runs;
pub mod standing;
pub mod trail;
