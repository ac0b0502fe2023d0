// Calls of actions, and what a list of them comes to.
use crate::Objects;
use containers::ListOf;

/// A schema with one object for each parameter.
#[derive(Drop)]
pub struct Call {
    /// The number of the schema.
    pub schema: u32,
    /// The numbers of the objects, one for each parameter.
    pub objects: Objects,
}

/// Calls, in the order in which they run.
pub type Calls = ListOf<Call>;

/// What a list of calls comes to.
#[derive(Clone, Copy, PartialEq, Eq)]
pub enum Verdict {
    /// Each call runs in turn, and the goal holds in the last state: the list is a plan.
    Reaches,
    /// The first call that cannot run, counted from 0.
    Blocked { index: u32 },
    /// Each call runs in turn, and the goal does not hold in the last state.
    Short,
}
