//! The clauses of one step of a horizon's formula, and those of one time: every horizon's are these with their variables
//! moved. Each clause group has a file of its own, and is what the definition in `formula_defs` lists of it.
//!
//! How many literals these clauses have is worked out by arithmetic, before any is built (`step_size`, `known_size`):
//! `specs/own/Sizes.antt` has the numbers, and the laws of `proofs/` say that they are those of the clauses.
//!
//! The adds beside a delete are noted in one pass over the effects of an action (`adders`).
#![tactic(auto)]

pub mod adders;
mod counted_adds;
mod effect_size;
mod effects;
mod frames;
pub mod index;
pub mod known;
pub mod known_size;
pub mod literals;
mod numbers;
mod preconditions;
pub mod step_size;
pub mod template;
