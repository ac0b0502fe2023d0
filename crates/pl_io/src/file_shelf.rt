// The shelf of the running program: the files of the system, by their paths. It tells no content.
ghost use Rattle.std.specs.Prelude.{◌≡◌, ◌≤◌, ◌+◌, ◌++◌, ℕ, List, [], ◌∷◌, length, None, false};
ghost use Rattle.std.specs.declared.io.ErrorKind.TheVariants as kinds;
ghost use Rattle.pl_io.specs.Outside.{Took};

use crate::faults::note;
use crate::{Bytes, Heard, Names, Shelf, TakeError, Taken};
use std::alloc::Global;
use std::fs::{self, OpenFile};
use std::io::{ErrorKind, Read};
use std::rt::Files;

/// How many bytes are asked of the system at a time.
const CHUNK: usize = 16384;

/// The files of the system, by their paths. What can't be opened and read to its end, as a folder, is a fault.
#[derive(Drop)]
pub struct FileShelf<'a, H> {
    rt: &'a H,
    alloc: Global,
    failed: Names,
    heard: Heard,
}

impl<'a, H: Files> FileShelf<'a, H> {
    /// The files that the runtime `rt` reaches. It takes no memory; `alloc` serves the names of faults later.
    pub fn new(rt: &'a H, alloc: Global) -> FileShelf<'a, H>
        ensures failed { ⟦<FileShelf<'a, H> as Shelf>⟧.failed result ≡ [] }
        ensures heard { ⟦<FileShelf<'a, H> as Shelf>⟧.heard result ≡ [] }
    {
        FileShelf {
            rt,
            alloc,
            failed: Names::of(Vec::new(alloc)),
            heard: Heard::new(),
        }
    }

    /// The names at which the shelf failed, in the order of the calls.
    pub fn failed(&self) -> &[Bytes]
        ensures { result.now ≡ ⟦<FileShelf<'a, H> as Shelf>⟧.failed self.now }
    {
        self.failed.as_slice()
    }
}

/// Want of memory of the system is no fault of the file.
pub(crate) fn cause_of(kind: ErrorKind) -> TakeError
    ensures memory { kind ≡ kinds.OutOfMemory → result ≡ TakeError.Memory }
    ensures failed { ¬ (kind ≡ kinds.OutOfMemory) → result ≡ TakeError.Failed }
{
    match kind {
        ErrorKind::OutOfMemory => TakeError::Memory,
        _ => TakeError::Failed,
    }
}

/// Reads to the end of the file, or until more than `most` bytes were met.
fn read_front<R: Read>(file: &mut R, most: usize, into: &mut Vec<u8>) -> Result<Taken, TakeError>
    ensures appends { Took into.old.items into.new.items }
    ensures whole_fits { result ≡ Ok Taken.Whole → length into.new.items ≤ length into.old.items + most }
    ensures longer_fills { result ≡ Ok Taken.Longer → length into.new.items ≡ length into.old.items + most }
{
    let mut chunk = [0u8; CHUNK];
    let mut left = most;
    for _ in 0..u64::MAX {
        let count = match file.read(&mut chunk) {
            Ok(count) => count,
            Err(error) => {
                if error.kind() == ErrorKind::Interrupted {
                    continue;
                }
                return Err(cause_of(error.kind()));
            }
        };
        if count == 0 {
            return Ok(Taken::Whole);
        }
        let kept = count.min(left);
        into.extend_from_slice(&chunk[..kept])?;
        if kept < count {
            return Ok(Taken::Longer);
        }
        left -= kept;
    }
    Err(TakeError::Failed)
}

/// How many bytes the file has by its own account, but at most `most`; 0 where it gives none.
fn size_of<F: OpenFile>(file: &F, most: usize) -> usize {
    match file.metadata() {
        Ok(metadata) => usize::try_from(metadata.len()).unwrap_or(most).min(most),
        Err(_) => 0,
    }
}

/// Opens the file and reads it into room that is made once, where its size is known.
fn open_and_read<H: Files>(
    rt: &H,
    name: &str,
    most: usize,
    into: &mut Vec<u8>,
) -> Result<Taken, TakeError>
    ensures appends { Took into.old.items into.new.items }
    ensures whole_fits { result ≡ Ok Taken.Whole → length into.new.items ≤ length into.old.items + most }
    ensures longer_fills { result ≡ Ok Taken.Longer → length into.new.items ≡ length into.old.items + most }
{
    match fs::open(rt, name) {
        Ok(file) => {
            let mut file = file;
            into.reserve_exact(size_of(&file, most))?;
            read_front(&mut file, most, into)
        }
        Err(error) => Err(cause_of(error.kind())),
    }
}

impl<'a, H: Files> Shelf for FileShelf<'a, H> {
    ghost told = { λ _ _. None };

    ghost lacks = { λ _ _. false };

    ghost failed = { λ shelf. shelf.failed };

    ghost heard = { λ shelf. shelf.heard.entries };

    fn take(&mut self, name: &str, most: usize, into: &mut Vec<u8>) -> Result<Taken, TakeError> {
        let before = into.len();
        match open_and_read(self.rt, name, most, into) {
            Ok(Taken::Whole) => {
                self.heard.note(name.as_bytes(), &into[before..]);
                Ok(Taken::Whole)
            }
            Ok(Taken::Longer) => {
                self.heard.note_front(name.as_bytes(), &into[before..]);
                Ok(Taken::Longer)
            }
            Err(TakeError::Failed) => Err(note(self.alloc, &mut self.failed, name)),
            other => other,
        }
    }
}
