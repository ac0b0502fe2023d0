//! A task as a transition system, for model checkers: in the Berkeley Logic Interchange Format (BLIF), or as an And-Inverter Graph (AIGER).
//!
//! One action runs a step, which inputs choose by the bits of its number; where the bits spell no action, or its precondition does not
//! hold, the state stays. The latches are the facts in their order, fact f as `vN` with N = f + 1, and the output, or the bad state, is
//! the goal. `specs/Blif.antt` and `specs/Aiger.antt` say what the texts are, to the byte.
#![tactic(auto)]

mod acts;
pub mod aiger;
pub mod blif;
mod circuit;
mod circuit_acts;
mod circuit_facts;
mod facts;
mod gate;
mod names;
mod wires;
