use crate::clause::Clause;
use containers::ListOf;

/// A list of numbers of clauses. The clauses of a formula are numbered from 0, and those that a log learns go on from there.
pub type Hints = ListOf<u32>;

/// What a solver did with a clause.
#[derive(Drop)]
pub enum Entry {
    /// It learned a clause, from the clauses with these numbers, in the order in which they force a literal; the last one
    /// is the clause that is then false. The clause takes the next number.
    Learn { clause: Clause, hints: Hints },
    /// It keeps the clause with this number no more. This takes no number.
    Drop { number: u32 },
}
