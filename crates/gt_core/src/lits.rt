//! Fact literals, and truth values of facts.

use containers::ListOf;
pub use containers::codes::opposite;

/// Fact literals: `2f` says that fact f is true, `2f + 1` that it is false.
pub type Lits = ListOf<u32>;

/// Truth values, one a fact.
pub type Bits = ListOf<bool>;
