//! Tests that cross crates and are no rows of the built program: calls of the shelf, workers at gates, and what is seen of a task.
#![tactic(auto)]

#[cfg(test)]
mod tests;
