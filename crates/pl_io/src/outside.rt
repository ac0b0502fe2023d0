// What the planner asks of the world: a shelf to take files from, and a sink to put bytes into.
ghost use Rattle.std.specs.Prelude.{◌≡◌, ◌<◌, ◌≤◌, ◌+◌, ◌++◌, ℕ, Bool, List, [], ◌∷◌, true, false, Option, length, take, IsTrue, IsOk, IsErr, OnOk, OnErr, IfOk, IfSome};
ghost use Rattle.pl_io.specs.Outside.{Notes, Took, TookWhole, TookFirst, Heard, Hears, fault_count, FaultRose, HasCause, appended, TakesFront};

use std::alloc::AllocError;

/// How much of a file was taken.
#[derive(Clone, Copy, PartialEq, Eq)]
pub enum Taken {
    /// All of its bytes.
    Whole,

    /// As many of its first bytes as were asked for, and it has more.
    Longer,
}

/// Why a file was not taken.
#[derive(Clone, Copy, PartialEq, Eq)]
pub enum TakeError {
    /// A fault of reading, which the shelf wrote down under the file's name. That there is no such file is one.
    Failed,

    /// No room for the bytes, or for the name of a file that could not be read.
    Memory,
}

impl From<AllocError> for TakeError {
    ghost use Rattle.std.specs.Prelude.{◌≡◌};
    ghost use Rattle.pl_io.specs.declared.outside.TakeError.TheVariants.{Memory};

    ghost from_gives = { λ _ error. error ≡ Memory };

    fn from(_: AllocError) -> TakeError {
        TakeError::Memory
    }
}

/// Files by name, of which each is taken whole.
pub trait Shelf {
    /// The bytes of the file of a name, where the shelf tells them.
    ghost told: { Self → List ℕ → Option (List ℕ) };

    /// Whether the shelf tells that no file has this name.
    ghost lacks: { Self → List ℕ → Bool };

    /// The names at which the shelf failed, in the order of the calls: one entry for each fault.
    ghost failed: { Self → List (List ℕ) };

    /// What the shelf handed over, in the order of the calls: the name that was asked for, whether it was all of the file,
    /// and the bytes.
    /// It is kept of every shelf, also of one that tells nothing.
    ghost heard: { Self → List Heard };

    /// Appends the bytes of the file `name` to `into`, at most `most` of them.
    ///
    /// `Ok(Whole)`: all bytes of the file were appended. `Ok(Longer)`: the file has more than `most` bytes, and its first
    /// `most` were appended. `Err(Failed)`: a fault, of which the shelf keeps the name. `Err(Memory)`: want of memory,
    /// also where there is no room to keep the name of a fault. At every answer `into` holds what it held, followed by
    /// some bytes, and a shelf that met a fault on the way and overcame it may have written it down.
    fn take(&mut self, name: &str, most: usize, into: &mut Vec<u8>) -> Result<Taken, TakeError>
        // No call changes what the shelf tells.
        ensures told { told self.new ≡ told self.old }
        ensures lacks { lacks self.new ≡ lacks self.old }

        // What stands in `into` stays there.
        ensures appends { Took into.old.items into.new.items }

        // A file was taken whole exactly where it has at most `most` bytes.
        ensures whole { result ≡ Ok Taken.Whole → IfSome (told self.old name.now) (TookWhole most into.old.items into.new.items) }
        ensures whole_fits { result ≡ Ok Taken.Whole → length into.new.items ≤ length into.old.items + most }
        ensures longer { result ≡ Ok Taken.Longer → IfSome (told self.old name.now) (TookFirst most into.old.items into.new.items) }
        ensures longer_fills { result ≡ Ok Taken.Longer → length into.new.items ≡ length into.old.items + most }

        // What is handed over is written down; what an error leaves in `into` is not.
        ensures heard { result ≡ Ok Taken.Whole → Hears true (heard self.old) (heard self.new) name.now into.old.items into.new.items }
        ensures heard_front { result ≡ Ok Taken.Longer → Hears false (heard self.old) (heard self.new) name.now into.old.items into.new.items }
        ensures unheard { OnErr result (heard self.new ≡ heard self.old) }

        // The list of faults is as it was, or has this name once more at its end; so no count of faults falls.
        ensures notes { Notes (failed self.old) (failed self.new) name.now }
        ensures never_falls { (other : List ℕ) → fault_count other (failed self.old) ≤ fault_count other (failed self.new) }

        // A fault is written down, and a name that is not there is a fault, where memory is not wanting.
        ensures cause { result ≡ Err TakeError.Failed → failed self.new ≡ failed self.old ++ name.now ∷ [] }
        ensures rose { result ≡ Err TakeError.Failed → FaultRose name.now (failed self.old) (failed self.new) }
        ensures missing { IsTrue (lacks self.old name.now) → IsErr result };
}

/// A fault of writing: nothing was taken in that call.
#[derive(Clone, Copy, PartialEq, Eq)]
pub struct PutFailed;

/// Where bytes go.
pub trait Sink {
    /// The bytes that the sink took, in their order, where it tells them.
    ghost taken: { Self → Option (List ℕ) };

    /// How many faults the sink had. The count stands still at 2^64 - 1.
    ghost faults: { Self → ℕ };

    /// Takes bytes of the front of `text`, and answers how many: at least one.
    ///
    /// `Err(PutFailed)`: a fault, which the sink counts, and nothing was taken.
    fn put(&mut self, text: &[u8]) -> Result<usize, PutFailed>
        requires { 0 < length text.now }
        ensures some { IfOk result (λ count. (0 < count) × (count ≤ length text.now)) }
        ensures taken { IfOk result (λ count. taken self.new ≡ appended (taken self.old) (take count text.now)) }
        ensures err { OnErr result (taken self.new ≡ taken self.old) }
        ensures cause { HasCause (faults self.old) (faults self.new) result };
}

/// Puts all of `text` into a sink: what a call leaves is put again. It takes no memory of its own.
///
/// `Err(PutFailed)`: the sink had a fault, and what it took is a front of `text`.
pub fn put_all<K: Sink>(sink: &mut K, text: &[u8]) -> Result<(), PutFailed>
    ensures ok { OnOk result (K.taken sink.new ≡ appended (K.taken sink.old) text.now) }
    ensures front { TakesFront (K.taken sink.old) (K.taken sink.new) text.now }
    ensures cause { HasCause (K.faults sink.old) (K.faults sink.new) result }
    ensures nothing { text.now ≡ [] → IsOk result × (sink.new ≡ sink.old) }
{
    let mut done = 0;
    while done < text.len() {
        done += sink.put(&text[done..])?;
    }
    Ok(())
}
