//! Two-literal invariants: the greatest set of clauses of one or two fact literals that are true in the initial state of
//! a task and that no action breaks, as far as the set itself tells.
//!
//! They are found in rounds (`round`): from the clauses that are true at first (`first`), each round drops those that an action breaks, as
//! far as the clauses themselves tell.
//!
//! After the first round only the actions are tested that may know something else than before (`greatest`). A round tests the listed actions
//! in parallel, in pieces of 2,048, by the clauses as it found them. The actions of a piece put what they break into one row a literal, and
//! what some piece has there is dropped afterwards (`drop`), so that a round takes room for rows of each piece and not of each action.
//!
//! `broken` tests one action; what is seen at once to break nothing, or only what is broken already, is not looked into (`harmless`). Effects
//! without condition are tested by themselves (`plain`), others in groups of one condition (`groups`). A group whose condition is not met
//! anyway is found by a literal of it that is not known (`givers`), and one that may take something by what it takes (`takers`), so that under
//! a condition only those groups are looked at of which it can tell something (`by_literal`). `list` lists the clauses at the end.
#![tactic(auto)]

mod broken;
mod by_literal;
mod drop;
mod first;
mod givers;
mod greatest;
mod groups;
mod harmless;
pub mod laws;
mod list;
mod plain;
mod round;
mod takers;

pub use greatest::find;
