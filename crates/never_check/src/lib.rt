//! The check of what shows that no plan exists: of clauses that actions keep, read forward or backward, and of weights that no
//! action raises. An answer says that it passes the check of `never_defs`, or what of it does not pass.
//!
//! Literals are followed by unit propagation (`propagate`) over clauses and the known clauses of a task (`rules`), on a trail
//! (`trail`) that goes back to where it was.
#![tactic(auto)]

mod after;
pub mod backward;
mod begin;
mod cases;
pub mod excluded;
pub mod forward;
mod given;
mod left;
mod propagate;
mod refutes;
mod rules;
mod settle;
pub mod trail;
mod uses;
pub mod weights;
