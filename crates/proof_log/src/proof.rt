// What a certificate is, and why bytes are none.
ghost use Rattle.std.specs.Prelude.{◌≡◌};
ghost use Rattle.proof_log.specs.declared.proof.ProofFault.TheVariants as error;

use crate::log::Log;
use containers::ListOf;
use containers::memory::Memory;

/// The bytes of a text. Contracts see the list of them.
pub type Text = ListOf<u8>;

/// A certificate: a horizon, and the log that is to refute it.
#[derive(Drop)]
pub struct Proof {
    /// The horizon, from 0 to the greatest one.
    pub horizon: u32,
    /// What a solver learned and dropped, in order.
    pub log: Log,
}

/// Why bytes are no certificate.
#[derive(Clone, Copy, PartialEq, Eq)]
pub enum ProofFault {
    /// The line that begins at this offset, from 0, does not fit.
    Syntax { at: u32 },
    /// Want of memory.
    Memory,
}

impl From<Memory> for ProofFault {
    ghost from_gives = { λ _ e. e ≡ error.Memory };

    fn from(_: Memory) -> Self {
        ProofFault::Memory
    }
}
