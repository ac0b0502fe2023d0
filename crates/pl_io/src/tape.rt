// Files that are taken piece by piece, from front to back, so that a file of any length and a pipe will do.
ghost use Rattle.std.specs.Prelude.{◌≡◌, ◌<◌, ◌≤◌, ◌++◌, ℕ, List, [], Option, option_map, length, take, OnOk, OnErr, IfOk, IfSome};
ghost use Rattle.pl_io.specs.Outside.{Rose};
ghost use Rattle.pl_io.specs.Tape.{Given, given_opened, given_more, given_lost};

use crate::TakeError;

/// How far the file that was opened last was read.
#[derive(Clone, Copy, PartialEq, Eq)]
pub enum Reading {
    /// All that was read of it came piece after piece from its front on, and it may have more.
    Goes,
    /// The same, and its end was told.
    Ended,
    /// A call failed since it was opened, or bytes came after its end; or no file was opened.
    Lost,
}

/// Files by name, of which one at a time is taken piece by piece.
pub trait Tape {
    /// The bytes of the file of a name, where the tape tells them.
    ghost told: { Self → List ℕ → Option (List ℕ) };

    /// What is left of the file that was opened last, where the tape tells it.
    ghost left: { Self → Option (List ℕ) };

    /// The names of the files that were opened, in their order, and of the one that was opened last the bytes that were handed over
    /// since, in their order, and how far it was read. It is kept of every tape, also of one that tells nothing.
    ghost given: { Self → Given };

    /// How many pieces there are at most before the end or a fault.
    ghost pieces: { Self → ℕ };

    /// How many faults the tape had. The count stands still at 2^64 - 1.
    ghost faults: { Self → ℕ };

    /// Opens the file `name` at its front; what was open before is let go.
    ///
    /// `Err(Failed)`: a fault, which the tape counts; that there is no such file is one. `Err(Memory)`: want of memory.
    fn open(&mut self, name: &str) -> Result<(), TakeError>
        ensures told { told self.new ≡ told self.old }
        ensures left { OnOk result (left self.new ≡ told self.old name.now) }
        ensures given { OnOk result (given self.new ≡ given_opened (given self.old) name.now) }
        ensures ungiven { OnErr result (given self.new ≡ given_lost (given self.old)) }
        ensures later { faults self.old ≤ faults self.new }
        ensures cause { result ≡ Err TakeError.Failed → Rose (faults self.old) (faults self.new) };

    /// Takes the next bytes of the open file into the front of `into`, and answers how many; 0 at the end of the file alone.
    ///
    /// `Err(Failed)`: a fault, which the tape counts; that no file is open is one. `Err(Memory)`: want of memory.
    fn take(&mut self, into: &mut [u8]) -> Result<usize, TakeError>
        requires { 0 < length into.old }
        ensures told { told self.new ≡ told self.old }
        ensures room { length into.new ≡ length into.old }
        ensures bound { IfOk result (λ count. count ≤ length into.new) }
        ensures taken { IfOk result (λ count. left self.old ≡ option_map (λ after. take count into.new ++ after) (left self.new)) }
        ensures given { IfOk result (λ count. given self.new ≡ given_more (given self.old) (take count into.new)) }
        ensures ungiven { OnErr result (given self.new ≡ given_lost (given self.old)) }
        ensures end { result ≡ Ok 0 → IfSome (left self.old) (λ before. before ≡ []) }
        ensures fewer { IfOk result (λ count. 0 < count → pieces self.new < pieces self.old) }
        ensures later { faults self.old ≤ faults self.new }
        ensures cause { result ≡ Err TakeError.Failed → Rose (faults self.old) (faults self.new) };
}
