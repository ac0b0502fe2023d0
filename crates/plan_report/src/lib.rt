//! The report of a race: the lines of its horizons, the conflicts, and how it ended, with the calls of a plan.
//!
//! `specs/Report.antt` says which bytes. A text is its lines, joined; `laws` says what a reader finds in them: the calls
//! of a plan, the sets of its steps, and of each horizon what the race came to.
//!
//! `listings` has the lines of a ground task and of its published order; `specs/Listings.antt` says which.
//!
//! `horizons` writes the lines of the horizons, `calls` the steps with their calls, `report` the whole, and `listings` the lines of a ground task
//! and of a published order. `laws` says what a reader finds in a report.
#![tactic(auto)]

mod calls;
mod horizons;
pub mod laws;
mod listings;
mod report;
mod task_lines;
mod task_names;
mod text;

pub use calls::push_actions;
pub use listings::{push_ground, push_order};
pub use report::{plan_text, report_text, summary_text};
pub use step_plans::linear::linearise;
pub use task_names::{object_name, push_atom, push_call};
pub use text::Text;
