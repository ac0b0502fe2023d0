//! The text of a certificate: comments, a line that says what the certificate is, `clauses forward`, `clauses backward` or
//! `weights`, and lines of numbers.
//!
//! A clause is a line of literals, as DIMACS has them, with a 0 at its end; the number of a fact is its place among the facts of
//! the task, counted from 1. A weight is a line `FACT WEIGHT`. `specs/Certificate.antt` says what a text tells, and what is wrong
//! with it, and `read` is exact by it. `write` makes the text of clauses.
#![tactic(auto)]

pub mod fault;
mod kind;
pub mod laws;
mod line;
mod literals;
pub mod read;
mod reader;
pub mod sorted;
mod weight;
pub mod write;
