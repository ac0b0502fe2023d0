//! What is known of a state in which each clause of a set holds, where the clauses are over one or two literals and stand
//! in rows of bits, one row a literal; and, where clauses are dropped, what of it is another than before and which actions
//! that concerns.
//!
//! What is known is worked out from no literal, and from each that an action asks for (`asked`) by itself (`known`): since a clause has two
//! literals at most, what several literals tell is what each of them tells. `close` follows literals to the end: one whose set is done brings
//! that set, all others are followed at once, by one union of their rows (`bound`). After a round `renew` works out a row anew only where a
//! clause that it could have used is gone. `again` lists the actions that may know something else than before.
#![tactic(auto)]

pub mod again;
pub mod asked;
mod bound;
mod close;
pub mod known;
mod renew;
