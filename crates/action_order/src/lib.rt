//! The published order of a task's actions: one order in which the members of every step can run.
//!
//! `readers` finds for each literal the actions that need it, ask for it or are excluded by it, `sure` what each action surely makes true.
//! `edges` unites these rows to the targets of each action, as a row of bits, so no edge is listed. `walk` finds the components by one
//! depth-first walk with a stack of its own (Gabow's path-based search), `quotient` unites the rows of their vertices, `sort` lists them in
//! topological order, least name first, `group` lists the members, and `publish` and `order` lay out the look-ups.
#![tactic(auto)]

mod edges;
mod group;
pub mod numbers;
pub mod order;
pub mod publish;
mod quotient;
mod readers;
mod ready;
mod sort;
mod sure;
mod walk;
