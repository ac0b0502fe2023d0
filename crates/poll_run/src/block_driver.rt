// A driver over the executor of `futures`.
ghost use Rattle.std.specs.Prelude.{◌≡◌};

use crate::{DriveFailed, Driver};
use futures::Future;
use futures::executor::block_on;
use std::alloc::AllocGlobal;
use std::marker::Model;
use std::random::RandomSource;
use std::sync::Wait;

/// Drives by `block_on`, on the calling thread. Contracts see how often that refused.
#[derive(Drop)]
pub struct BlockOn<'a, H> {
    rt: &'a H,
    refused: u64,
}

impl<'a, H> Model for BlockOn<'a, H> {
    ghost use Rattle.std.specs.Prelude.{ℕ};

    ghost Value = { ℕ };

    ghost view = { λ d. d.refused };
}

impl<'a, H: Wait + RandomSource + AllocGlobal> BlockOn<'a, H> {
    /// A driver over the runtime `rt`. It takes no memory.
    pub fn new(rt: &'a H) -> BlockOn<'a, H>
        ensures { ⟦<BlockOn<'a, H> as Driver>⟧.faults result ≡ 0 }
    {
        BlockOn { rt, refused: 0 }
    }
}

impl<'a, H: Wait + RandomSource + AllocGlobal> Driver for BlockOn<'a, H> {
    ghost faults = { λ d. d };

    fn drive<T: Future>(&mut self, future: T) -> Result<T::Output, DriveFailed> {
        match block_on(self.rt, future) {
            Ok(output) => Ok(output),
            Err(_) => {
                self.refused = self.refused.saturating_add(1);
                Err(DriveFailed)
            }
        }
    }
}
