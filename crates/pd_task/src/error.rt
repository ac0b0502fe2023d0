// Why two trees are no task.
ghost use Rattle.std.specs.Prelude.{◌≡◌};
ghost use Rattle.pd_task.specs.declared.error.PddlError.TheVariants as errors;

use pd_model::{Memory, Which};
use pd_words::{Fault, ReadError};

/// The first cause for which a domain and a problem say no task, with the file and the offset of a byte in
/// it, from 0.
#[derive(Clone, Copy, PartialEq, Eq)]
pub enum PddlError {
    /// A wrong item, at its place; or a list that lacks one.
    Shape { file: Which, at: u32 },
    /// A name that is not declared.
    Unknown { file: Which, at: u32 },
    /// An atom with a wrong number of terms.
    Arity { file: Which, at: u32 },
    /// A name or a section that may stand once stands again.
    Duplicate { file: Which, at: u32 },
    /// A part of PDDL that is left out.
    Unsupported { file: Which, at: u32 },
    /// Want of memory.
    Memory,
}

impl From<Memory> for PddlError {
    ghost from_gives = { λ _ e. e ≡ errors.Memory };

    fn from(_: Memory) -> Self {
        PddlError::Memory
    }
}
