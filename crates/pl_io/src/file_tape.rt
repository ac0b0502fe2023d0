// The tape of the running program: the files of the system, by their paths, and the standard input. It tells no content.
ghost use Rattle.std.specs.Prelude.{◌≡◌, ◌<◌, ◌≤◌, ◌+◌, ℕ, length, None, Some, Ok, Err, IfOk, OnErr, IfSome};
ghost use Rattle.pl_io.specs.Outside.{Rose};

use crate::file_shelf::cause_of;
use crate::opened::{Opened, next_reading};
use crate::{Reading, Sent, TakeError, Tape};
use std::fs;
use std::io::{ErrorKind, Read};
use std::rt::Files;

/// What is open.
#[derive(Drop)]
enum Source<F, R> {
    Nothing,
    File(F),
    Input(R),
}

/// The files of the system, by their paths; the name `-` is the standard input. What can't be opened and read to its end, as a
/// folder, is a fault, and so is a file of more than 2^64 - 1 pieces.
#[derive(Drop)]
pub struct FileTape<'a, H: Files + Input> {
    rt: &'a H,
    source: Source<H::File, H::Reader>,
    pieces: u64,
    faults: u64,
    opened: Opened,
    given: Sent,
    reading: Reading,
}

impl<'a, H: Files + Input> FileTape<'a, H> {
    /// The files that the runtime `rt` reaches, of which none is open. It takes no memory.
    pub fn new(rt: &'a H) -> FileTape<'a, H>
        ensures { ⟦<FileTape<'a, H> as Tape>⟧.faults result ≡ 0 }
    {
        FileTape {
            rt,
            source: Source::Nothing,
            pieces: u64::MAX,
            faults: 0,
            opened: Opened::new(),
            given: Sent::new(),
            reading: Reading::Lost,
        }
    }
}

/// Reads some bytes, and answers how many; 0 at the end. A read that a signal interrupted is made again.
fn read_some<R: Read>(from: &mut R, into: &mut [u8]) -> Result<usize, TakeError>
    ensures room { length into.new ≡ length into.old }
    ensures bound { IfOk result (λ count. count ≤ length into.new) }
{
    for _ in 0..u64::MAX {
        match from.read(into) {
            Ok(count) => return Ok(count),
            Err(error) => {
                if error.kind() != ErrorKind::Interrupted {
                    return Err(cause_of(error.kind()));
                }
            }
        }
    }
    Err(TakeError::Failed)
}

/// The same of what is open.
fn read_source<F: Read, R: Read>(
    from: &mut Source<F, R>,
    into: &mut [u8],
) -> Result<usize, TakeError>
    ensures room { length into.new ≡ length into.old }
    ensures bound { IfOk result (λ count. count ≤ length into.new) }
{
    match from {
        Source::Nothing => Err(TakeError::Failed),
        Source::File(file) => read_some(file, into),
        Source::Input(input) => read_some(input, into),
    }
}

/// Opens a file, or the standard input.
fn open_source<H: Files + Input>(
    rt: &H,
    name: &str,
) -> Result<Source<H::File, H::Reader>, TakeError> {
    if name == "-" {
        return Ok(Source::Input(rt.reader()));
    }
    match fs::open(rt, name) {
        Ok(file) => Ok(Source::File(file)),
        Err(error) => Err(cause_of(error.kind())),
    }
}

/// Counts a fault.
fn count_fault(error: TakeError, faults: &mut u64) -> TakeError
    ensures same { result ≡ error }
    ensures later { faults.old ≤ faults.new }
    ensures cause { error ≡ TakeError.Failed → Rose faults.old faults.new }
{
    if error == TakeError::Failed {
        *faults = faults.saturating_add(1);
    }
    error
}

impl<'a, H: Files + Input> Tape for FileTape<'a, H> {
    ghost told = { λ _ _. None };

    ghost left = { λ _. None };

    ghost given = { λ tape. record { opened = tape.opened.names; bytes = tape.given.bytes; reading = tape.reading } };

    ghost pieces = { λ tape. tape.pieces };

    ghost faults = { λ tape. tape.faults };

    fn open(&mut self, name: &str) -> Result<(), TakeError> {
        self.source = Source::Nothing;
        self.pieces = u64::MAX;
        self.reading = Reading::Lost;
        match open_source(self.rt, name) {
            Ok(source) => {
                self.source = source;
                self.opened.note(name.as_bytes());
                self.given = Sent::new();
                self.reading = Reading::Goes;
                Ok(())
            }
            Err(error) => Err(count_fault(error, &mut self.faults)),
        }
    }

    fn take(&mut self, into: &mut [u8]) -> Result<usize, TakeError> {
        let before = self.reading;
        self.reading = Reading::Lost;
        if self.pieces == 0 {
            return Err(count_fault(TakeError::Failed, &mut self.faults));
        }
        self.pieces -= 1;
        match read_source(&mut self.source, into) {
            Ok(count) => {
                self.given.note(&into[..count]);
                self.reading = next_reading(before, &into[..count]);
                Ok(count)
            }
            Err(error) => Err(count_fault(error, &mut self.faults)),
        }
    }
}
