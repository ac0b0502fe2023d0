//! A judge of proofs in LRAT format, as text, for a formula that it is given: it takes the text in pieces of any length, and holds
//! of it no more than one line, the clauses that are kept and the ids.
//!
//! What it says is worth as much as the checker of `rup_check`: whatever the bytes were, a formula that it calls refuted has no
//! satisfying assignment.
//!
//! ```text
//! let mut judge = Judge::new(alloc, &formula)?;
//! while let Some(piece) = tape.next()? {
//!     match judge.take(piece)? {
//!         Verdict::More => {}
//!         verdict => return Ok(verdict),
//!     }
//! }
//! judge.finish()
//! ```
//!
//! It reads a line at a time (`lines`), turns ids into numbers of clauses (`entries`, by `ids`), and hands each entry to the `Checker` of
//! rup_check. What a text comes to is a function of its bytes (`verdict_of` of `specs/Verdicts.antt`), by which the judge is exact.
#![tactic(auto)]

mod entries;
mod ids;
pub mod judge;
mod lines;
pub mod verdict;
