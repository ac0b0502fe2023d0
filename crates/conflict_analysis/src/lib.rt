//! A solver's clauses by number, the walk from a conflict back along the trail to the clause that is learned, and the level to
//! backtrack to with it.
//!
//! `Clauses` has the formula, the log, and the numbers of the long clauses that are kept. `Resolvent` is the clause in the making, as a bit for
//! each position of the trail whose entry made one of its literals false. `order` is a set of literals by code that is read out rising, so that
//! no learned clause is sorted by comparing. `Analysis` walks back from a conflict (`learn`): it looks for the latest bit before the one it was
//! at (`latest`), word by word, and reads no entry that is not marked. It keeps room for literals and hints from one conflict to the next. The
//! cost of a conflict is that of the clauses it resolves with, and a word for each 64 entries of the trail.
#![tactic(auto)]

pub mod backjump;
pub mod clauses;
mod latest;
pub mod learn;
pub mod order;
pub mod resolvent;
pub mod walk;
