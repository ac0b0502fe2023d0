//! Why there is no answer.
ghost use Rattle.std.specs.Prelude.{◌≡◌};
ghost use Rattle.commands.specs.declared.error.ProofError.TheVariants as errors;

/// Why there is no answer on a horizon.
#[derive(Clone, Copy, PartialEq, Eq)]
pub enum ProofError {
    /// The formula of the horizon has too many literals, so many.
    Literals { count: u64 },
    /// Want of memory.
    Memory,
}

impl From<containers::memory::Memory> for ProofError {
    ghost from_gives = { λ _ e. e ≡ errors.Memory };

    fn from(_: containers::memory::Memory) -> Self {
        ProofError::Memory
    }
}
