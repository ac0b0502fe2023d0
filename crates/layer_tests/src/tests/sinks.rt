// Sinks in memory, over the standard output, and over an output that is interrupted and takes few bytes.
use super::faulty_files::unasked;
use super::holding::{holds, is_same};
use pl_io::{MemSink, Numbers, OutSink, PutFailed, Sink, put_all};
use std::alloc::Global;
use std::fmt::Display;
use std::io::{self, ErrorKind, Print};
use std::process::Abort;
use std::sync::atomic::{AtomicU64, Ordering};

/// How many bytes a sink takes at most a call, which of its calls fails, how much room it has, and what it takes of the text.
type Row = (u32, u32, u32, &'static str);

const TEXT: &str = "; horizon 0 plan conflicts 0\n";

const FRONTS: [Row; 5] = [
    (10, 9, 1000, TEXT),
    (10, 2, 1000, "; horizon "),
    (1, 1, 1000, ""),
    (1000, 9, 29, TEXT),
    (10, 9, 28, "; horizon 0 plan conflicts 0"),
];

/// Whether a sink took this, and had a fault where that is not the whole text.
fn took(sink: &MemSink, is_whole: bool, front: &str) -> bool {
    is_whole == (front.len() == TEXT.len())
        && is_same(sink.taken(), front.as_bytes())
        && sink.faults() == u64::from(!is_whole)
}

/// A sink in memory, one of whose calls fails, takes what a row says.
fn takes_front(rt: &impl Abort, alloc: Global, row: &Row) {
    let (most, failing, room, front) = *row;
    assert!(rt; most > 0);
    let failing = Numbers::copied_from(alloc, &[failing]).expect(rt, "memory");
    let mut sink = MemSink::new(alloc, most, failing, room)
        .ok()
        .expect(rt, "memory");
    let is_whole = put_all(&mut sink, TEXT.as_bytes()).is_ok();
    holds(rt, took(&sink, is_whole, front), front);
}

#[test]
fn takes_a_front_of_the_text(rt: HostRuntime) {
    for row in &FRONTS {
        takes_front(&rt, rt.alloc(), row);
    }
}

/// An output that is interrupted, takes a byte, and then takes nothing.
#[derive(Drop)]
struct Stingy {
    writes: AtomicU64,
}

impl Print for Stingy {
    fn print<D: Display + Drop>(&self, _value: D) -> io::Result<()> {
        unasked()
    }

    fn println<D: Display + Drop>(&self, _value: D) -> io::Result<()> {
        unasked()
    }

    fn write_all(&self, _bytes: &[u8]) -> io::Result<()> {
        unasked()
    }

    fn write_some(&self, bytes: &[u8]) -> io::Result<usize> {
        match self.writes.fetch_add(1, Ordering::SeqCst) {
            0 => Err(io::Error::from(ErrorKind::Interrupted)),
            1 => Ok(bytes.len().min(1)),
            _ => Ok(0),
        }
    }
}

#[test]
fn writes_again_after_an_interruption(rt: HostRuntime) {
    let out = Stingy {
        writes: AtomicU64::new(0),
    };
    let mut sink = OutSink::new(&out);
    holds(&rt, matches!(sink.put(b"ab"), Ok(1)), "a byte");
    holds(&rt, matches!(sink.put(b"b"), Err(PutFailed)), "no byte");
}

#[test]
fn puts_to_the_standard_output(rt: HostRuntime) {
    let mut sink = OutSink::new(&rt);
    holds(&rt, put_all(&mut sink, b"; written\n").is_ok(), "a line");
    holds(&rt, sink.faults() == 0, "no fault");
}
