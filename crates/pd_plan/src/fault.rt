// Why bytes are no plan file.
ghost use Rattle.std.specs.Prelude.{◌≡◌};
ghost use Rattle.pd_plan.specs.declared.fault.PlanFault.TheVariants as error;

use std::alloc::{AllocError, AllocFailed};

/// The first fault of a plan file; places are offsets of bytes, from 0.
#[derive(Clone, Copy, PartialEq, Eq)]
pub enum PlanFault {
    /// The bytes are no lists of words: the wrong byte, the parenthesis of an empty list, or the length where
    /// a list is not closed.
    Syntax { at: u32 },
    /// A word that names no action, or no object.
    Unknown { at: u32 },
    /// A list with more or fewer objects than its action has parameters.
    Arity { at: u32 },
    /// An object whose type does not lie at or under that of its parameter.
    Mistyped { at: u32 },
    /// Want of memory.
    Memory,
}

impl From<AllocError> for PlanFault {
    ghost from_gives = { λ _ e. e ≡ error.Memory };

    fn from(_: AllocError) -> Self {
        PlanFault::Memory
    }
}

impl<T: Drop> From<AllocFailed<T>> for PlanFault {
    ghost from_gives = { λ _ e. e ≡ error.Memory };

    fn from(_: AllocFailed<T>) -> Self {
        PlanFault::Memory
    }
}
