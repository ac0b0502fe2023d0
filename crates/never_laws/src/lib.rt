//! What certificates that no plan exists say of the files: no calls of them are a plan, however many.
#![tactic(auto)]

pub mod laws;
