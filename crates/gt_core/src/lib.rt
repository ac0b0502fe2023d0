//! Grounded planning tasks over numbered facts, and the clauses known of their states. The definitions of planning that every
//! crate above speaks of stand in `specs/`: literals and tasks, execution, which actions disable each other, the published
//! order, steps and step plans.
//!
//! `Pairs` has the known clauses as a sorted list and a row of bits for each literal, so that `has` is one look-up. An `Eff` takes 16 bytes:
//! without a condition it is its literal (`Eff::sure`) and takes no memory of its own; else condition and literal stand in a box (`Eff::new`).
#![tactic(auto)]

pub mod act;
mod clause_list;
pub mod eff;
mod lawful;
pub mod laws;
pub mod limits;
pub mod lits;
pub mod pairs;
pub mod task;
pub mod wide;
