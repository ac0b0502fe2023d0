//! The names of the files that a tape opened, and how far it read the last.
ghost use Rattle.std.specs.Prelude.{◌≡◌, [], ◌∷◌, ◌++◌};
ghost use Rattle.pl_io.specs.Tape.{read_after};

use crate::heard::Heard;
use crate::tape::Reading;
use std::marker::Model;

/// The names of the files that were opened, in their order. It takes no memory.
#[derive(Drop)]
pub struct Opened {
    // a call each, so that what is noted is set in one place
    calls: Heard,
}

impl Model for Opened {
    ghost use Rattle.pl_io.specs.own.Opened.{Opened, all_names};

    ghost Value = { Opened };

    ghost view = { λ o. record { names = all_names o.calls.entries } };
}

impl Opened {
    /// No file was opened.
    pub fn new() -> Opened
        ensures { result.names ≡ [] }
    {
        Opened {
            calls: Heard::new(),
        }
    }

    /// A file of this name was opened.
    pub fn note(&mut self, name: &[u8])
        ensures { self.new.names ≡ self.old.names ++ name.now ∷ [] }
    {
        self.calls.note(name, &[]);
    }
}

/// How far a file was read after a piece more.
pub(crate) fn next_reading(before: Reading, piece: &[u8]) -> Reading
    ensures { result ≡ read_after before piece.now }
{
    match before {
        Reading::Lost => Reading::Lost,
        _ if piece.is_empty() => Reading::Ended,
        Reading::Goes => Reading::Goes,
        Reading::Ended => Reading::Lost,
    }
}
