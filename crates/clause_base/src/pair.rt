//! A clause of two literals as one of them sees it.

/// A clause of two literals beside one of them: the other one, and the clause's number.
#[derive(Clone, Copy)]
pub struct Pair {
    /// The code of the other literal.
    pub other: u32,
    /// The number of the clause.
    pub number: u32,
}
