// A future whose polls come to an end.
ghost use Rattle.std.specs.Prelude.{ℕ, ◌<◌};
ghost use Rattle.futures.specs.Poll.{IfReady, OnPending};
ghost use Rattle.futures.specs.Task.{Keeps};

use futures::Future;
use futures::task::{Context, Poll};

/// A future that is ready after so many polls at most, whatever drives it: each poll that is pending leaves fewer.
pub trait Bounded: Future {
    /// How many more polls may be pending.
    ghost polls_left: { Self → ℕ };

    /// A poll of it.
    fn poll_on(&mut self, cx: &mut Context<'_>) -> Poll<Self::Output>
        // As of every future.
        requires { Self.can_poll self.old }
        ensures value { IfReady result (Self.gives self.old) }
        ensures again { OnPending result (Self.can_poll self.new) }
        ensures same { OnPending result ((x : _) → Self.gives self.new x → Self.gives self.old x) }
        ensures kept { Keeps cx.old cx.new }

        // Where it is pending, fewer polls are left.
        ensures fewer { OnPending result (polls_left self.new < polls_left self.old) };
}
