//! What passes between a program and a solver: the text of a formula, and the verdict on a proof of it in LRAT format that a tape gives.
//! The file of the proof is opened once, taken piece by piece, and handed to lrat_judge.
//!
//! A verdict is one on the bytes of the whole file, and of a file that could not be read there is none
//! ([`verdict::verdict_on`], by `IsVerdictOn` of `specs/Verdict.antt`).
//!
//! ```text
//! let text = told(alloc, b"exists", 3, &formula)?;
//! open(&mut tape, "proof.lrat")?;
//! let verdict = verdict_on(alloc, &formula, &mut tape)?;
//! ```
#![tactic(auto)]

pub mod told;
pub mod verdict;
