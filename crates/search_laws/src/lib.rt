//! What a search through the states of a task has to find so that there is no plan, or none that is shorter.
//!
//! `specs/Search.antt` has sets of states out of which no action leads, and layers of states, for numbered actions; `specs/Plans.antt`
//! says the same of the calls of the files that a task comes from.
#![tactic(auto)]

pub mod laws;
