//! How many literals a formula may have.

/// How many literals a formula has at most that is made.
pub const MOST_LITERALS: u64 = 16_000_000;

/// How many literals a formula has at most that the planner searches, or that a certificate is checked over.
pub const PLANNER_LITERALS: u64 = 4_000_000;
