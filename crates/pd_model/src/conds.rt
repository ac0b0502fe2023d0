// Conditions.
use crate::{Pattern, Term};
use containers::{ListOf, SharedListOf};

/// One literal of a condition.
#[derive(Drop)]
pub enum Cond {
    /// The atom is in the state, or is not, as is wanted.
    Has { atom: Pattern, want: bool },
    /// The two terms are one object, or are two, as is wanted.
    Same { left: Term, right: Term, want: bool },
}

/// A condition: the conjunction of its literals.
pub type Conds = ListOf<Cond>;

/// A condition in memory that all effects share which stand under it.
pub type SharedConds = SharedListOf<Cond>;
