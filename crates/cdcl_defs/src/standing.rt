/// How far a solver is.
#[derive(Clone, Copy, PartialEq, Eq)]
pub enum Standing {
    /// It may go on.
    Going,
    /// Its values satisfy the formula.
    Found,
    /// It has learned the empty clause.
    Refuted,
}
