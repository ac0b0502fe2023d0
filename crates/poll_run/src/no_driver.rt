// A driver that never drives.
ghost use Rattle.std.specs.Prelude.{◌≡◌, IfOk, IsErr};
ghost use Rattle.pl_io.specs.Outside.{HasCause};

use crate::{DriveFailed, Driver};
use futures::Future;
use std::marker::Model;

/// Never drives: each call is a fault. Contracts see how many there were.
#[derive(Drop)]
pub struct NoDriver {
    refused: u64,
}

impl Model for NoDriver {
    ghost use Rattle.std.specs.Prelude.{ℕ};

    ghost Value = { ℕ };

    ghost view = { λ d. d.refused };
}

impl NoDriver {
    /// A driver that was not called yet. It takes no memory.
    pub fn new() -> NoDriver
        ensures { ⟦<NoDriver as Driver>⟧.faults result ≡ 0 }
    {
        NoDriver { refused: 0 }
    }
}

impl Driver for NoDriver {
    ghost faults = { λ d. d };

    fn drive<T: Future>(&mut self, future: T) -> Result<T::Output, DriveFailed>
        requires { T.can_poll future }
        ensures gives { IfOk result (T.gives future) }
        ensures cause { HasCause self.old self.new result }
        ensures never { IsErr result }
    {
        // It is let go here, and not polled.
        let _gone = future;
        self.refused = self.refused.saturating_add(1);
        Err(DriveFailed)
    }
}
