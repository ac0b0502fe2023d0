//! Chains: of the actions of a step that can run in one order only, no one takes a literal that a later one reads.
//!
//! For some actions in an order and a fact literal, each reader after a taker has a variable that is true where a taker
//! before it is in the step (Rintanen, Heljanko and Niemelä 2006). `Chains` takes the links of one literal after the other,
//! and has the clauses of a task's chains, in the numbers of the first step. Which actions a chain goes over is the caller's:
//! `Chains::find` takes the components of an order.
//!
//! `index` lists for each fact literal the actions that take or read it, in their order; it looks at the literals that the
//! actions have, and at no others.
//!
//! `index` keeps a row of bits of the literals that are touched, and looks at no other ones.
#![tactic(auto)]

mod chain;
pub mod chains;
mod clauses;
pub mod index;
pub mod link;
mod walk;

pub use chains::Chains;
