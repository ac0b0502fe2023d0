//! The formula of clauses whose refutation shows that no plan of any length exists.
//!
//! The formula says that a step leads from a state with all clauses to the goal or to a state without one of them; `step_laws` has its
//! definition and the law that where nothing satisfies it there is no plan. `formed` makes it: `counted` tests first that there are not too
//! many literals, and `joined` takes the step and the known pairs from the formula of horizon 1 and adds the clauses (`adds`) and the
//! cubes (`cubes`).
#![tactic(auto)]

mod adds;
mod counted;
mod cubes;
pub mod formed;
mod joined;
