//! What a search answers.

use containers::FlatLists;

/// How a search ended.
#[derive(Drop)]
pub enum End {
    /// Clauses, which are a backward set.
    Set(FlatLists<u32>),
    /// Actions that run to the goal.
    Plan(Vec<u32>),
    /// The budget is spent.
    Open,
}

/// An answer, and how many obligations it took.
#[derive(Drop)]
pub struct Answer {
    pub obligations: u64,
    pub end: End,
}
