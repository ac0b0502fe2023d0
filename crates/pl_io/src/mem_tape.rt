// A tape in memory, for runs without a file system: it has one file, which it tells, and fails where it was told to.
ghost use Rattle.std.specs.Prelude.{◌≡◌, ◌<◌, ◌≤◌, ◌++◌, ◌-◌, ◌+◌, ℕ, List, [], Option, Some, None, Ok, Err, length, take, drop, min, IfOk, if◌then◌else◌};
ghost use Rattle.std.specs.Str.{bytes_eq};
ghost use Rattle.pl_io.specs.Outside.{Rose};
ghost use Rattle.pl_io.specs.Tape.{file_told};

use crate::opened::{Opened, next_reading};
use crate::{NamedFile, Reading, Sent, TakeError, Tape};

/// One file in memory, of which each piece has at most so many bytes. A take at or after a place in it fails, where there is one.
#[derive(Drop)]
pub struct MemTape {
    file: NamedFile,
    most: usize,
    failing: Option<usize>,
    at: usize,
    faults: u64,
    opened: Opened,
    given: Sent,
    reading: Reading,
}

impl MemTape {
    /// A tape of this file, in pieces of at most `most` bytes, and at least one; takes at or after the place `failing`, counted from 0,
    /// fail. It takes no memory.
    pub fn new(file: NamedFile, most: usize, failing: Option<usize>) -> MemTape
        ensures faults { ⟦<MemTape as Tape>⟧.faults result ≡ 0 }
        ensures told { ⟦<MemTape as Tape>⟧.told result ≡ file_told file }
    {
        MemTape {
            file,
            most,
            failing,
            at: 0,
            faults: 0,
            opened: Opened::new(),
            given: Sent::new(),
            reading: Reading::Lost,
        }
    }

    /// How many faults the tape had.
    pub fn faults(&self) -> u64
        ensures { result ≡ ⟦<MemTape as Tape>⟧.faults self.now }
    {
        self.faults
    }
}

impl Tape for MemTape {
    ghost told = { λ tape. file_told tape.file };

    ghost left = { λ tape. Some (drop tape.at tape.file.bytes) };

    ghost given = { λ tape. record { opened = tape.opened.names; bytes = tape.given.bytes; reading = tape.reading } };

    ghost pieces = { λ tape. length tape.file.bytes - tape.at };

    ghost faults = { λ tape. tape.faults };

    fn open(&mut self, name: &str) -> Result<(), TakeError> {
        self.reading = Reading::Lost;
        if self.file.name.as_slice() != name.as_bytes() {
            self.faults = self.faults.saturating_add(1);
            return Err(TakeError::Failed);
        }
        self.at = 0;
        self.opened.note(name.as_bytes());
        self.given = Sent::new();
        self.reading = Reading::Goes;
        Ok(())
    }

    fn take(&mut self, into: &mut [u8]) -> Result<usize, TakeError> {
        let before = self.reading;
        self.reading = Reading::Lost;
        if let Some(place) = self.failing {
            if place <= self.at {
                self.faults = self.faults.saturating_add(1);
                return Err(TakeError::Failed);
            }
        }
        let bytes = self.file.bytes.as_slice();
        let at = self.at.min(bytes.len());
        let count = copy_front(&bytes[at..], self.most.max(1), into);
        self.at = at + count;
        self.given.note(&into[..count]);
        self.reading = next_reading(before, &into[..count]);
        Ok(count)
    }
}

/// Copies the front of `from`, at most `most` bytes of it, into the front of `into`, and answers how many.
fn copy_front(from: &[u8], most: usize, into: &mut [u8]) -> usize
    requires most { 0 < most }
    requires room { 0 < length into.old }
    ensures room { length into.new ≡ length into.old }
    ensures count { result ≤ length from.now }
    ensures bound { result ≤ length into.new }
    ensures copied { take result into.new ≡ take result from.now }
    ensures end { result ≡ 0 → from.now ≡ [] }
{
    let count = from.len().min(most).min(into.len());
    into[..count].copy_from_slice(&from[..count]);
    count
}
