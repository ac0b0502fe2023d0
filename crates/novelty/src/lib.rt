//! Proposals by novelty: a walk goes on from a state that has a fact which no state before it had with as many unmet goals, from the
//! one with the fewest unmet goals, and from the oldest of equal ones (best-first width search of width 1, Lipovetzky and Geffner
//! 2017).
//!
//! `queue` has numbers by their keys, first in first out, `expanding` the states that are left, `seen` the facts that were true, and
//! `proposer` what is proposed.
#![tactic(auto)]

pub mod expanding;
pub mod proposer;
pub mod queue;
pub mod seen;
