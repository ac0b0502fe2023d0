// Why trees are no task.
ghost use Rattle.std.specs.Prelude.{◌≡◌};
ghost use Rattle.pd_words.specs.First.{Gives, wants};
ghost use Rattle.pd_words.specs.declared.fault.ReadError.TheVariants.{Memory};

use std::alloc::{AllocError, AllocFailed};

/// The first cause for which a file is no task, at the offset of a byte, from 0.
#[derive(Clone, Copy, PartialEq, Eq)]
pub enum Fault {
    /// A wrong item, or a list that lacks one.
    Shape(u32),
    /// A name that is not declared.
    Unknown(u32),
    /// An atom with a wrong number of terms.
    Arity(u32),
    /// A name or a section that may stand once stands again.
    Duplicate(u32),
    /// A part of PDDL that is left out.
    Unsupported(u32),
}

/// Why reading a tree ends early.
#[derive(Clone, Copy, PartialEq, Eq)]
pub enum ReadError {
    /// Want of memory; also where more than 4,294,967,295 things would need a number.
    Memory,
    Fault(Fault),
}

impl From<AllocError> for ReadError {
    ghost from_gives = { λ _ e. e ≡ Memory };

    fn from(_: AllocError) -> Self {
        ReadError::Memory
    }
}

impl<T: Drop> From<AllocFailed<T>> for ReadError {
    ghost from_gives = { λ _ e. e ≡ Memory };

    fn from(_: AllocFailed<T>) -> Self {
        ReadError::Memory
    }
}

/// The fault, where what reading wants is not so.
pub(crate) fn wants(is: bool, fault: Fault) -> Result<(), ReadError>
    ensures { Gives (wants is fault) result }
{
    if is {
        Ok(())
    } else {
        Err(ReadError::Fault(fault))
    }
}
