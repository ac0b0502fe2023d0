//! Why a run has no more to decide.
ghost use Rattle.std.specs.Prelude.{◌≡◌};
ghost use Rattle.plan_endings.specs.declared.stop.Stop.TheVariants as stop;

use crate::{Ending, File, Kind};
use pl_io::Memory;
use std::alloc::{AllocError, AllocFailed};

/// The run ends, or memory is wanting.
#[derive(Drop)]
pub enum Stop {
    /// With this ending.
    Ends(Ending),
    /// Want of memory.
    Memory,
}

impl<T: Drop> From<AllocFailed<T>> for Stop {
    ghost from_gives = { λ _ e. e ≡ stop.Memory };

    fn from(_: AllocFailed<T>) -> Self {
        Stop::Memory
    }
}

impl From<AllocError> for Stop {
    ghost from_gives = { λ _ e. e ≡ stop.Memory };

    fn from(_: AllocError) -> Self {
        Stop::Memory
    }
}

impl From<Memory> for Stop {
    ghost from_gives = { λ _ e. e ≡ stop.Memory };

    fn from(_: Memory) -> Self {
        Stop::Memory
    }
}

/// The end of a run that refuses a file, at the offset of a byte.
pub fn refuse(kind: Kind, file: File, at: u32) -> Stop
    ensures { result ≡ Stop.Ends (Ending.Refused kind file at) }
{
    Stop::Ends(Ending::Refused { kind, file, at })
}
