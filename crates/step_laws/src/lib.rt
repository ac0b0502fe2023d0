//! Why the satisfying assignments of a horizon's formula are its step plans.
//!
//! `proofs/` shows two laws for each kind of steps: the sets of true actions of a satisfying assignment are a step plan, and each step
//! plan is such sets, for every set of known clauses that hold in each state that actions lead to. `laws` has them for steps whose
//! members run in one order (exists-steps), `all_laws` for those whose members run in every order (all-steps; both: Rintanen, Heljanko
//! and Niemelä 2006): there each fact literal has two chains over all actions, one in the published order and one in its reverse, so
//! that no true action disables another. What such a step is, and that each order of its members runs, stands in gt_core.
#![tactic(auto)]

pub mod all_laws;
pub mod laws;
