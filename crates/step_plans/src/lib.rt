//! Step plans of a ground task and plans of the files that it comes from: a step plan, listed step by step, is a plan, and a
//! short plan is a step plan.
//!
//! `specs/Plans.antt` says when lists of actions are a step plan, and `specs/Laws.antt` what holds of it.
//!
//! `specs/Known.antt` has what is known of a ground task, its published order and the formulas of its horizons: definitions on which
//! certificates, races and the judge stand.
#![tactic(auto)]

pub mod laws;
pub mod linear;
