//! A pool of workers that advance stopped runs, each up to its target, and pass them on to one another through a ring.
//!
//! A [`Resume`] is a run that can be stopped after any number of units and advanced later: a solver, whose
//! units are conflicts, say. A [`Job`] is a run with a target. [`round`] brings each job to its target with several workers:
//!
//! ```text
//! let back = round(rt, alloc, jobs, 4, 10, &OpenGate)?;    // 4 workers, turns of 10 units
//! for job in back.as_slice() { .. }                        // in rising order of key, each at its target
//! ```
//!
//! In between, the jobs stand in a [`Ring`]. A worker that holds a [`Pass`] takes one, advances it by a slice, and
//! returns it to the ring or keeps it where it is done ([`serve_one`]). Which worker takes which job is left to chance;
//! what comes back is not.
//!
//! `resume` says what a run is; `rule` the rule under which the ring's queue stands, `steps` the steps that put or take a job, `ring` and `open`
//! the calls of a ring; `serve` one turn; `worker` and `workers` what the workers of a round do; `rounds` the round. A job is moved and never
//! copied, so no two workers hold one; the rule counts notes of puts and takes, so nothing is lost. After the joins all notes stand in the
//! owner's pass, no pass is out, and the ring is found empty: so what was taken is what was put, whatever the threads did. `one_turn` has the
//! two calls of one turn of a worker or a poll: how many units it grants, and how a job that is done is put down or noted as lost.
#![tactic(auto)]

mod count_run;
mod crew;
mod gate;
mod job;
mod jobs;
pub mod one_turn;
mod open;
mod pass_view;
mod resume;
mod ring;
mod rounds;
mod rule;
mod serve;
mod sorted;
mod steps;
mod turns;
mod worker;
mod workers;

pub use containers::memory::Memory;
pub use count_run::CountRun;
pub use gate::{Gate, OpenGate};
pub use job::Job;
pub use jobs::Jobs;
pub use open::Opened;
pub use pass_view::{BookEntry, Note, PassView};
pub use resume::Resume;
pub use ring::{Pass, Ring};
pub use rounds::round;
pub use rule::RingRule;
pub use serve::{Served, serve_one};
