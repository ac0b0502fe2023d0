//! Formulas of which the satisfying assignments are step plans, and the way back from an assignment to the steps.
//!
//! `StepForm` is what a search over horizons needs of an encoding: the layout of the variables of a horizon, the size
//! of its formula without building it, the formula, and the steps that a satisfying assignment stands for, with the two
//! laws that tie formulas to plans. `joining` and `ends` make a formula of the clauses of one step and of one
//! time, for whatever chains. `Placed` is the encoding whose chains go where its `Placing` says; `ExistsForm` is that of
//! exists-steps with one published order of the actions (Rintanen, Heljanko and Niemelä 2006).
//!
//! `Placed` keeps the chains, the clauses of one step and of one time, and their sizes; `size` multiplies. `formula` counts first, and within
//! the limit on literals hands the one step and the one time on to the repeated part of a formula, in memory that all formulas of the form
//! share. `limits` names how many literals a formula may have: `MOST_LITERALS`, which is the condition of every form, and `PLANNER_LITERALS`,
//! at which race, certificates and horizon_run decide.
#![tactic(auto)]

pub mod ends;
pub mod exists;
pub mod form;
pub mod joining;
pub mod limits;
pub mod placed;
pub mod steps;
mod truth;
