//! A search for clauses that show that no plan exists, whatever its length: backward obligations after Suda (2014), without a SAT solver.
//!
//! Whole states go forward from the initial one. For each number of steps there is a layer of cubes, which are conjunctions of literals: no
//! state from which the goal is within so many actions has one. Where a state cannot be brought nearer to the goal, a cube that it has
//! is found for its layer (`reason`), made small (`shrink`) and learned. Where two layers are the same, the opposites of the
//! cubes are a backward set of `never_defs`.
//!
//! Nothing that the search comes to is believed: a set is checked by `never_check`, and a plan is run, before either is an answer.
#![tactic(auto)]

mod after;
pub mod answer;
mod excluded;
mod layers;
mod obligations;
mod reason;
mod rounds;
pub mod search;
mod set;
mod shrink;
mod steps;
mod tables;
