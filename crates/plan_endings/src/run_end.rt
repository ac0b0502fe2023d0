//! How a run of a program ends: what all endings of any program have.
ghost use Rattle.std.specs.Prelude.{◌≡◌, ℕ, List, Bool, IsTrue, OnOk, IfOk, IsOk};
ghost use Rattle.plan_endings.specs.Ending.{bytes_of};
ghost use Rattle.plan_endings.specs.declared.ending.Ending.{Ending as EndingValue};

use crate::{Due, Ending};
use pl_io::Memory;
use std::alloc::Global;

/// How a run of a program ends, but for want of memory and a write fault: with an exit status and a text. A program's endings are those
/// of [`Ending`], and others of its own.
pub trait RunEnd: Sized + Drop {
    /// The exit status.
    ghost status_of: { Self → ℕ };

    /// The text due.
    ghost text_of: { Self → List ℕ };

    /// The text is there: it was made, or is always the same.
    ghost is_there: { Self → Bool };

    /// The numbers of the text are numbers of the program.
    ghost is_small: { Self → Type 0 };

    /// As one of [`Ending`].
    ghost plain: { EndingValue → Self };

    /// As one of [`Ending`].
    fn of_plain(ending: Ending) -> Self
        ensures { result ≡ plain ending };

    /// The exit status.
    fn status(&self) -> u8
        ensures { result ≡ status_of self.now };

    /// The text due, made whole. One that is there takes no memory.
    fn text(self, alloc: Global) -> Result<Due, Memory>
        ensures text { IfOk result (λ due. bytes_of due ≡ text_of self) }
        ensures small { OnOk result (is_small self) }
        ensures there { IsTrue (is_there self) → IsOk result };
}
