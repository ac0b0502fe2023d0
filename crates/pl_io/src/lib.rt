//! The world outside the planner: a shelf of named files that it reads, and a sink of bytes that it writes to.
//!
//! Code that reads or writes is generic over [`Shelf`] and [`Sink`], so that one contract speaks of the program and of a
//! run in memory. [`MemShelf`] and [`MemSink`] tell what they hold; [`FileShelf`] and [`OutSink`] stand before the
//! system's files and the standard output: the one tells no content, the other what the system counted as taken. Of every shelf and
//! of every tape it is written down, for clauses alone and without memory, what it handed over ([`Heard`], [`Sent`]). [`put_all`] is a whole caller of a sink.
//!
//! What is noted of a run is set in one place, the private `Heard::add`, by a proof by hand; `Sent` is a model over `Heard`. Both take no
//! memory, and their calls do nothing when run.
//!
//! `Tape` is a file that is taken piece by piece, from front to back, so that a pipe will do. A file of the shelf is read in pieces of 16 KiB
//! into room that is made once, by the size that the file gives of itself; at most as many bytes are kept as were asked for, and reading ends
//! as soon as one more was seen. The memory types fail at the calls that they are told to, so that a test runs the planner from bytes to bytes.
#![tactic(auto)]

mod faults;
mod file_shelf;
mod file_tape;
mod heard;
mod lists;
mod mem_shelf;
mod mem_sink;
mod mem_tape;
mod opened;
mod out_sink;
mod outside;
mod sent;
mod tape;

pub use containers::memory::Memory;
pub use file_shelf::FileShelf;
pub use file_tape::FileTape;
pub use heard::Heard;
pub use lists::{Bytes, Files, NamedFile, Names, Numbers};
pub use mem_shelf::MemShelf;
pub use mem_sink::MemSink;
pub use mem_tape::MemTape;
pub use out_sink::OutSink;
pub use outside::{PutFailed, Shelf, Sink, TakeError, Taken, put_all};
pub use sent::Sent;
pub use tape::{Reading, Tape};
