// Why a race has no end.
ghost use Rattle.std.specs.Prelude.{◌≡◌};

use containers::memory::Memory;

/// Why a race has no end.
#[derive(Clone, Copy, PartialEq, Eq)]
pub enum RaceError {
    /// The formula of a horizon has too many literals, and none is live when its turn to start comes.
    Literals { horizon: u32, count: u64 },
    /// Want of memory.
    Memory,
}

impl From<Memory> for RaceError {
    ghost use Rattle.race.specs.declared.error.RaceError.TheVariants.{Memory as memory};

    ghost from_gives = { λ _ e. e ≡ memory };

    fn from(_error: Memory) -> RaceError {
        RaceError::Memory
    }
}
