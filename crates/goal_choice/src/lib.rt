//! Choice of actions backwards from the goals (Rintanen, Artificial Intelligence 193, 2012): a solver of a horizon's formula
//! decides for an action that makes a wanted literal true, the one that is wanted at the latest time.
//!
//! ```text
//! let supporters = Supporters::new(alloc, task)?; // once for all horizons
//! let chooser = GoalChooser::sharing(alloc, &supporters, form.layout(n))?;
//! let solver = Solver::new(alloc, form.formula(n)?, chooser)?;
//! ```
//!
//! `supporters` has the goal and the effects by literal, in flat blocks that are made once, which `gather` gathers from a task; `needs` what has
//! to hold before each effect, with the precondition of an action kept once; `literals` is a set of literals as a row of bits. `support` asks
//! for one literal, `search` finds the least of its supporters that has a value, `walk` goes over all literals of a step. `told_walk` keeps the
//! literals that a solver told and the last walk over their values, and goes on from the time down to which nothing has changed (`descent`).
//! `choose` walks anew for any values, `choose_told` goes on from the walk that is kept. As contracts see it a chooser is what it was made from.
#![tactic(auto)]

mod chooser;
mod descent;
mod flat_lists;
mod gather;
mod literals;
mod needs;
mod search;
mod support;
mod supporters;
mod told_walk;
mod walk;

pub use chooser::GoalChooser;
pub use supporters::Supporters;
pub use told_walk::ToldWalk;
