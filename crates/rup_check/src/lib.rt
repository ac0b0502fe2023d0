//! A checker of derivations by reverse unit propagation along hints.
//!
//! `check` says whether a log derives the empty clause from a formula, entry by entry, and answers the first entry that
//! does not follow. It searches for nothing: an entry is read once, and so are the clauses that its hints name. Clauses that
//! an entry drops are no hints after it. A formula with an accepted log has no satisfying assignment, which is a clause of
//! `check`; so a `Checked` is worth as much as the definitions of `clause_base`, whatever made the log.
//!
//! `checker` is the same for entries that come one after another and are not kept, as those of a file of any length.
//!
//! `effect` says what a hint comes to: all literals of its clause are false, or all but one, which is then taken as true, or
//! neither; `falsified` has the literals that are taken as false.
//!
//! `pages` has the clauses that were learned, of which those that are dropped give their room back.
//!
//! What `check` accepts is a `Checked`, which nothing else makes. `effect` tells what the clause of a hint says over the literals that are taken
//! as false (`Falsified`). A table says which of the formula's clauses were dropped, so a hint finds its clause in constant time. A page whose
//! clauses are more than half gone is packed anew, one that still grows only once 32 are gone: what is kept is at most about twice the clauses
//! that are there, and two bytes a number.
#![tactic(auto)]

pub mod check;
pub mod checker;
pub mod effect;
mod entry;
pub mod falsified;
mod kept;
mod left;
mod page;
mod pages;
mod steps;
