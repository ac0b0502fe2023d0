//! Proposals by relaxed plans: what a state costs to the goal where no literal is lost, as a sum over the literals (the additive
//! heuristic of Bonet and Geffner 2001), and which actions a plan without losses uses (Hoffmann and Nebel 2001), which are preferred
//! (Helmert 2006, with a second queue).
//!
//! `relaxation` has the operators, `costs` the costs from a state and a relaxed plan, `open` the actions of states by cost, and
//! `proposer` what is proposed. `reached` proposes by novelty and relaxed plans together.
#![tactic(auto)]

pub mod costs;
pub mod open;
pub mod proposer;
pub mod reached;
pub mod relaxation;
