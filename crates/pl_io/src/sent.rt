// The bytes that were handed on. Clauses alone read them.
ghost use Rattle.std.specs.Prelude.{◌≡◌, [], ◌++◌};

use crate::heard::Heard;
use std::marker::Model;

/// The bytes that were handed on, in their order. It takes no memory.
#[derive(Drop)]
pub struct Sent {
    // each call's bytes, so that what is noted is set in one place
    calls: Heard,
}

impl Model for Sent {
    ghost use Rattle.pl_io.specs.own.Sent.{Sent, all_bytes};

    ghost Value = { Sent };

    ghost view = { λ s. record { bytes = all_bytes s.calls.entries } };
}

impl Sent {
    /// Nothing was handed on.
    pub fn new() -> Sent
        ensures { result.bytes ≡ [] }
    {
        Sent {
            calls: Heard::new(),
        }
    }

    /// These bytes were handed on.
    pub fn note(&mut self, bytes: &[u8])
        ensures { self.new.bytes ≡ self.old.bytes ++ bytes.now }
    {
        self.calls.note(&[], bytes);
    }
}
