//! The grounder: from a task as it is written to one over numbered facts and actions.
//!
//! `tuples` counts what there is to look at, `constant` finds the facts, `actions` the actions, `simplify` and
//! `effects` make the numbered task of them, and `grounded` puts it together.
//!
//! The initial atoms less those that possible deletes name are the constant ones, the other reachable atoms the facts; the kept calls whose
//! precondition wants no constant atom to be false are the actions. There is no list of all instances: the tuples of a `forall` are numbered,
//! and a tuple is computed from its number (`bindings`). `literals` decides whether a literal may hold, may be true, or is never true, by
//! tables and without memory. What is left of conditions and effects is sorted once, where it is not in order as it stands. Effects with a
//! condition are counted while actions are made; past the limit none is kept.
#![tactic(auto)]

mod actions;
mod bindings;
mod conditional;
mod constant;
mod effects;
mod grounded;
mod known;
mod literals;
mod places;
mod simplify;
mod tuples;

pub use grounded::{GroundError, Grounded, ground};
