//! A task as grounding looks at it: each condition and each effect stands once in its schema (`distinct`), and the objects that fit
//! types are listed once (`domains`).
//!
//! `specs/own/Thinned.antt` says which task is left, `specs/own/Domains.antt` which types have a list.
//!
//! `Domains` holds the schemas so made; a condition that is the one of the effect before is made distinct once and shared.
//! `proofs/published/Same.antt` shows that the task is grounded as the one of the files.
#![tactic(auto)]

mod distinct;
mod domains;
mod equal;
mod told;

pub use domains::Domains;
