//! Greedy walks through the states of a task: a plan, or that there is none of any length.
//!
//! `greedy` has walks led by novelty, by relaxed plans and by both in turn, with shares of the states that grow, and shortens the plan
//! that is found. `bytes` says how many states some memory holds.
#![tactic(auto)]

pub mod bytes;
pub mod greedy;
