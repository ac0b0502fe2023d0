// What drives a future to its end.
ghost use Rattle.std.specs.Prelude.{ℕ, IfOk};
ghost use Rattle.pl_io.specs.Outside.{HasCause};

use futures::Future;

/// The driver gave up. The future is gone.
#[derive(Clone, Copy, PartialEq, Eq)]
pub struct DriveFailed;

/// Polls a future until it is ready.
pub trait Driver {
    /// How often it gave up. The count never falls, and stands still at 2^64 - 1.
    ghost faults: { Self → ℕ };

    /// Polls a future that was not polled yet until it is ready, and gives what it gave. `DriveFailed` comes only where the
    /// count of faults rose in this call, or stands at its last value. It may wait.
    fn drive<T: Future>(&mut self, future: T) -> Result<T::Output, DriveFailed>
        requires { T.can_poll future }
        ensures gives { IfOk result (T.gives future) }
        ensures cause { HasCause (faults self.old) (faults self.new) result };
}
