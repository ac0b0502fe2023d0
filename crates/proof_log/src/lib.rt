//! Logs of what a solver learned and dropped, in memory and as certificates in files.
//!
//! In memory (`log`) a learned clause is a block of its own, which the solver's clauses share, so that it stands once. The numbers of
//! hints and of what was dropped stand as bytes, one entry after another. Contracts see the list of entries. `Reader` gives them one
//! after another. A number (`number`) stands seven bits a byte, the lowest first, and each byte but its last has the highest bit set
//! (LEB128, as DWARF has it), so that small ones take one byte. A list of numbers (`numbers`) stands as how far each is from the one
//! before it, upwards in even numbers and downwards in odd ones ("zigzag", as Protocol Buffers have it).
//!
//! As text, both ways, stand a horizon and the log that refutes it. The first line is `horizon N`. Then comes a line for each entry:
//! `learn`, the codes of the clause, `by`, the numbers of its hints; or `drop` and a number. `specs/Text.antt` says what the one text
//! is, `specs/Place.antt` where other bytes go wrong.
//!
//! ```text
//! let proof = read_proof(alloc, bytes)?;
//! let text = write_proof(alloc, proof.horizon, &proof.log)?;     // the same bytes
//! ```
//!
//! Nothing finds a clause of a log by its number: whoever needs that keeps the clauses beside it. `Reader` lends an entry where it stands
//! (`Step`), its literals as a slice, or reads its hints into a vector (`take_into`), so that each is decoded once. That clauses and bytes are
//! those of the list of entries is the invariant (`Held.antt`).
#![tactic(auto)]

mod clause;
mod decimal;
mod decimals;
mod entry;
mod every_log;
pub mod laws;
mod length;
pub mod literals;
pub mod log;
pub mod number;
pub mod numbers;
mod proof;
mod read;
pub mod reader;
mod steps;
mod write;

pub use every_log::written;
pub use length::proof_length;
pub use proof::{Proof, ProofFault, Text};
pub use read::read_proof;
pub use write::write_proof;
