use clause_base::literal::Lit;

/// A literal that is true, with the number of the clause that forced it; with none it is a decision.
#[derive(Clone, Copy)]
pub struct Assigned {
    /// The literal.
    pub literal: Lit,
    /// The number of the clause that forced it: the formula's clauses are numbered from 0, the learned ones go on from there.
    pub reason: Option<u32>,
}
