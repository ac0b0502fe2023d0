//! A walk through the states of a task: a plan, or the least plan, or that there is none of any length.
//!
//! Whoever proposes a state and an action is not trusted: `walk` tests that the action runs there, computes the next state, looks
//! it up and stores it. `sweep` tries each action in each stored state, `path` has the actions that lead to a stored state. `least`
//! sweeps alone, breadth first; `follow` goes after proposals, and sweeps where there are no more. `room` has the memory of walks,
//! which is taken before they begin. `shorten` takes out of a plan what is not needed.
#![tactic(auto)]

pub mod answer;
pub mod follow;
pub mod least;
mod path;
pub mod room;
pub mod shorten;
mod sweep;
pub mod walk;
