//! The states that a walk through a task has entered: each is kept once, as a packed row, with the state and the action that it
//! comes from, and is found by what it is.
//!
//! `pack` has states as rows of words, `rows` the rows in one block, `table` the decision trees by which a row is found, and
//! `store` all of it together.
#![tactic(auto)]

pub mod pack;
mod rows;
pub mod store;
mod table;
