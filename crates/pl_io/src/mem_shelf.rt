// A shelf in memory, for runs without a file system: it tells all its files, and fails where it was told to.
ghost use Rattle.std.specs.Prelude.{◌≡◌, ◌≢◌, ◌↔◌, ◌≤◌, ◌+◌, ◌++◌, ℕ, true, false, List, [], ◌∷◌, length, option_map, IsTrue, IsSome, IsErr, OnErr, OnOk, IfSome, Contains};
ghost use Rattle.pl_io.specs.Outside.{Notes, Took, TookWhole, TookFirst, Hears, fault_count, FaultRose};
ghost use Rattle.pl_io.specs.own.Calls.{next_call, NextFails};
ghost use Rattle.pl_io.specs.own.MemShelf.{bytes_at, has_none};

use crate::faults::note;
use crate::{Bytes, Files, Heard, NamedFile, Names, Numbers, Shelf, TakeError, Taken};
use containers::let_go;
use std::alloc::Global;
use std::marker::Model;

/// Files in memory, by name. The calls of `take` whose numbers, counted from 1, are listed as failing fail.
pub struct MemShelf {
    alloc: Global,
    files: Files,
    failing: Numbers,
    calls: u32,
    failed: Names,
    heard: Heard,
}

impl Model for MemShelf {
    ghost use Rattle.pl_io.specs.own.MemShelf.{ShelfInMemory};

    ghost Value = { ShelfInMemory };

    ghost view = { λ shelf. record { files = shelf.files; failing = shelf.failing; calls = shelf.calls; failed = shelf.failed; heard = shelf.heard.entries } };
}

/// All parts are let go in one call, so that a proof has one step for it and not one for each part.
impl Drop for MemShelf {
    fn drop(self) {
        let_go!(self: MemShelf { alloc, files, failing, calls, failed, heard });
    }
}

impl MemShelf {
    /// A shelf of these files whose calls with the numbers of `failing` fail. It takes no memory; `alloc` serves the
    /// names of faults later.
    pub fn new(alloc: Global, files: Files, failing: Numbers) -> MemShelf
        ensures { result ≡ record { files = files; failing = failing; calls = 0; failed = []; heard = [] } }
    {
        MemShelf {
            alloc,
            files,
            failing,
            calls: 0,
            failed: Names::of(Vec::new(alloc)),
            heard: Heard::new(),
        }
    }

    /// The names at which the shelf failed, in the order of the calls.
    pub fn failed(&self) -> &[Bytes]
        ensures { result.now ≡ self.now.failed }
    {
        self.failed.as_slice()
    }

    /// Counts a call, and answers whether it is one of those that fail.
    fn next_fails(&mut self) -> bool
        ensures count { self.new ≡ record self.old { calls = next_call self.old.calls } }
        ensures fails { IsTrue result ↔ NextFails self.old.failing self.old.calls }
    {
        self.calls = self.calls.saturating_add(1);
        self.failing.as_slice().contains(&self.calls)
    }
}

/// The bytes of the first file of this name.
fn find<'a>(files: &'a [NamedFile], name: &[u8]) -> Option<&'a Bytes>
    ensures { option_map (λ bytes. bytes.now) result ≡ bytes_at files.now name.now }
{
    for file in files {
        if file.name.as_slice() == name {
            return Some(&file.bytes);
        }
    }
    None
}

/// Appends these bytes, at most `most` of them, and writes down under the name what was appended. It fails for want of memory
/// alone.
fn append_front(
    bytes: &[u8],
    name: &str,
    most: usize,
    into: &mut Vec<u8>,
    heard: &mut Heard,
) -> Result<Taken, TakeError>
    ensures whole { result ≡ Ok Taken.Whole → TookWhole most into.old.items into.new.items bytes.now }
    ensures longer { result ≡ Ok Taken.Longer → TookFirst most into.old.items into.new.items bytes.now }
    ensures appends { Took into.old.items into.new.items }
    ensures memory { result ≢ Err TakeError.Failed }
    ensures err { OnErr result (into.new.items ≡ into.old.items) }
    ensures heard { result ≡ Ok Taken.Whole → Hears true heard.old.entries heard.new.entries name.now into.old.items into.new.items }
    ensures heard_front { result ≡ Ok Taken.Longer → Hears false heard.old.entries heard.new.entries name.now into.old.items into.new.items }
    ensures unheard { OnErr result (heard.new.entries ≡ heard.old.entries) }
{
    if bytes.len() <= most {
        into.extend_from_slice(bytes)?;
        heard.note(name.as_bytes(), bytes);
        Ok(Taken::Whole)
    } else {
        into.extend_from_slice(&bytes[..most])?;
        heard.note_front(name.as_bytes(), &bytes[..most]);
        Ok(Taken::Longer)
    }
}

impl Shelf for MemShelf {
    ghost told = { λ shelf. bytes_at shelf.files };

    ghost lacks = { λ shelf. has_none shelf.files };

    ghost failed = { λ shelf. shelf.failed };

    ghost heard = { λ shelf. shelf.heard };

    fn take(&mut self, name: &str, most: usize, into: &mut Vec<u8>) -> Result<Taken, TakeError>
        // As of every shelf.
        ensures told { bytes_at self.new.files ≡ bytes_at self.old.files }
        ensures lacks { has_none self.new.files ≡ has_none self.old.files }
        ensures appends { Took into.old.items into.new.items }
        ensures whole { result ≡ Ok Taken.Whole → IfSome (bytes_at self.old.files name.now) (TookWhole most into.old.items into.new.items) }
        ensures whole_fits { result ≡ Ok Taken.Whole → length into.new.items ≤ length into.old.items + most }
        ensures longer { result ≡ Ok Taken.Longer → IfSome (bytes_at self.old.files name.now) (TookFirst most into.old.items into.new.items) }
        ensures longer_fills { result ≡ Ok Taken.Longer → length into.new.items ≡ length into.old.items + most }
        ensures heard { result ≡ Ok Taken.Whole → Hears true self.old.heard self.new.heard name.now into.old.items into.new.items }
        ensures heard_front { result ≡ Ok Taken.Longer → Hears false self.old.heard self.new.heard name.now into.old.items into.new.items }
        ensures unheard { OnErr result (self.new.heard ≡ self.old.heard) }
        ensures notes { Notes self.old.failed self.new.failed name.now }
        ensures never_falls { (other : List ℕ) → fault_count other self.old.failed ≤ fault_count other self.new.failed }
        ensures cause { result ≡ Err TakeError.Failed → self.new.failed ≡ self.old.failed ++ name.now ∷ [] }
        ensures rose { result ≡ Err TakeError.Failed → FaultRose name.now self.old.failed self.new.failed }
        ensures missing { IsTrue (has_none self.old.files name.now) → IsErr result }

        // The listed calls fail, and no other call for a name that is there; an error leaves `into` as it was.
        ensures listed { NextFails self.old.failing self.old.calls → IsErr result }
        ensures only_listed { ¬ NextFails self.old.failing self.old.calls → IsSome (bytes_at self.old.files name.now) → result ≢ Err TakeError.Failed }
        ensures err { OnErr result (into.new.items ≡ into.old.items) }

        // But for a fault and the count of calls the shelf stays as it was.
        ensures quiet { OnOk result (self.new ≡ record self.old { calls = next_call self.old.calls; heard = self.new.heard }) }
        ensures kept { self.new ≡ record self.old { calls = next_call self.old.calls; failed = self.new.failed; heard = self.new.heard } }
    {
        if !self.next_fails()
            && let Some(bytes) = find(self.files.as_slice(), name.as_bytes())
        {
            return append_front(bytes.as_slice(), name, most, into, &mut self.heard);
        }
        Err(note(self.alloc, &mut self.failed, name))
    }
}
