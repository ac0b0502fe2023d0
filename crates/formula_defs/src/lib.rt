//! The formula of a horizon, clause by clause.
//!
//! `specs/` numbers the variables of a task's formula and lists its clauses, over plain lists; an upper crate has the
//! laws that tie its satisfying assignments to step plans. `proofs/` has what holds of any list of clauses: codes say
//! what clauses say, and every variable is one of the layout's. (The encoding is that of exists-steps by Rintanen,
//! Heljanko and Niemelä 2006.)
#![tactic(auto)]

pub mod laws;
pub mod layout;
