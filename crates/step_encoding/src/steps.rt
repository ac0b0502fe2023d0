//! Lists of steps.

use action_order::numbers::ActNumbers;
use containers::ListOf;

/// Steps, each a set of actions in the order in which they run.
pub type Steps = ListOf<ActNumbers>;
