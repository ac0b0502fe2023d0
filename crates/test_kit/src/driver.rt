//! A driver for tests, which counts how often what it drives is polled.
//!
//! ```text
//! let polls = AtomicU64::new(0);
//! let mut driver = Counting::new(&rt, &polls);
//! let run = settle(&mut driver, run, 50, 10)?;    // five polls, and as many counted
//! ```
ghost use Rattle.std.specs.Prelude.{◌≡◌};

use crate::counted::Counted;
use futures::Future;
use poll_run::{BlockOn, DriveFailed, Driver};
use std::alloc::AllocGlobal;
use std::marker::Model;
use std::random::RandomSource;
use std::sync::Wait;
use std::sync::atomic::AtomicU64;

/// Drives as `BlockOn` does, and counts the polls. Contracts see how often it refused.
#[derive(Drop)]
pub struct Counting<'a, H> {
    blocks: BlockOn<'a, H>,
    polls: &'a AtomicU64,
}

impl<'a, H> Model for Counting<'a, H> {
    ghost use Rattle.std.specs.Prelude.{ℕ};

    ghost Value = { ℕ };

    ghost view = { λ d. d.blocks };
}

impl<'a, H: Wait + RandomSource + AllocGlobal> Counting<'a, H> {
    /// A driver over the runtime `rt`, which adds each poll to `polls`. It takes no memory.
    pub fn new(rt: &'a H, polls: &'a AtomicU64) -> Counting<'a, H>
        ensures { ⟦<Counting<'a, H> as Driver>⟧.faults result ≡ 0 }
    {
        Counting {
            blocks: BlockOn::new(rt),
            polls,
        }
    }
}

impl<'a, H: Wait + RandomSource + AllocGlobal> Driver for Counting<'a, H> {
    ghost faults = { λ d. d };

    fn drive<T: Future>(&mut self, future: T) -> Result<T::Output, DriveFailed> {
        let polls = self.polls;
        self.blocks.drive(Counted { future, polls })
    }
}
