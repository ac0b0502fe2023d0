// The files that a fault is told of.

/// One of the files that a task and its plan are read from.
#[derive(Clone, Copy, PartialEq, Eq)]
pub enum Which {
    Domain,
    Problem,
    Plan,
}
