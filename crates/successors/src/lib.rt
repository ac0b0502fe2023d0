//! What leads from one state to others, where states are rows of words: which actions can run, and the state after one.
//!
//! `row` has literals in a row, `next` the state after an action and whether a state is a goal, `trie` the actions by their
//! preconditions, which `build` builds and `check` tests, `moves` what actions need and do, and `ways` both.
#![tactic(auto)]

mod build;
mod check;
pub mod moves;
pub mod next;
pub mod row;
pub mod trie;
pub mod ways;
