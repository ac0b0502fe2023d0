// Marks of what effects share.

/// What an effect is known to share with the one before it: where a mark is not set, nothing is known.
#[derive(Clone, Copy)]
pub struct Sameness {
    /// The types of its variables are those of the one before.
    pub over: bool,
    /// Its condition is that of the one before.
    pub cond: bool,
}
