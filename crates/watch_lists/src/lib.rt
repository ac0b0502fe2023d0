//! Which clause is the least that is false or has one literal left, after any calls in any order.
//!
//! A solver asks for it where it is wanted, and takes literals back to levels alone: it goes through `propagation`. Here what is
//! asked first is looked for after each change, and literals are taken back to any length. So the first four clauses that ask are
//! listed for each length of the trail: where no others asked there, and none was added since, just these are looked at where the
//! trail is taken back to it.
//!
//! Where a literal is made true, what `known` of propagation gives is kept for the length that the trail had, 20 bytes each, so that `undo_to`
//! looks at four clauses at most and at those from the fifth pending one, or the first added since, on. No program but tests uses this crate.
#![tactic(auto)]

pub mod watches;
