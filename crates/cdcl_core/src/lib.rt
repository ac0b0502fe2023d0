//! A learning solver that stops after any number of conflicts and goes on later.
//!
//! ```text
//! let mut solver = Solver::new(alloc, formula, PlainChooser::new())?;
//! solver.advance(100)?;
//! match solver.standing() {
//!     Standing::Found => ..    // `value` satisfies the formula
//!     Standing::Refuted => ..  // `log` derives the empty clause
//!     Standing::Going => ..    // 100 conflicts were handled; `advance` goes on
//! }
//! ```
//!
//! `search` is the state, `solver` the public calls, `reduce` what a restart drops; it looks only at the learned clauses that are kept and have
//! more than 8 literals. `Search` is told where a literal becomes true (`assign`) and where a clause is learned and the trail goes back (`enter`).
//! `Solver` keeps what its chooser was told of the trail, and the least length that the trail had since; before each choice it takes back and
//! tells what is new (`choose_told`). `Solver::renewed` makes the solver of another formula in the memory of one that is done with: the tables
//! of propagation, the chains and the trail are emptied; the index of pairs, values, log and what the chooser keeps are made anew.
#![tactic(auto)]

mod reduce;
mod search;
pub mod solver;

pub use cdcl_defs::standing::Standing;
