// Runs of the planner in memory.
use containers::let_go;
use pl_io::{Bytes, Files, MemShelf, MemSink, NamedFile, Numbers};
use plan_top::run;
use poll_run::Driver;
use solver_pool::Gate;
use std::alloc::{AllocGlobal, Global};
use std::process::Abort;
use std::sync::Wait;
use std::thread::Threads;
use test_kit::gates::{CountGate, Notes, PairGate};

/// A file's name and its bytes.
pub(crate) type Named<'a> = (&'a str, &'a [u8]);

/// That this is so, of these words.
pub(crate) fn holds(rt: &impl Abort, is: bool, words: &str) {
    assert!(rt; is, "{words}");
}

/// A file for a shelf.
pub(crate) fn named(rt: &impl Abort, alloc: Global, name: &str, bytes: &[u8]) -> NamedFile {
    let name = Bytes::copied_from(alloc, name.as_bytes()).expect(rt, "memory");
    let bytes = Bytes::copied_from(alloc, bytes).expect(rt, "memory");
    NamedFile { name, bytes }
}

/// A shelf of these files, whose calls with the numbers of `failing`, counted from 1, fail.
pub(crate) fn shelf_of(
    rt: &impl Abort,
    alloc: Global,
    files: &[Named],
    failing: &[u32],
) -> MemShelf {
    let mut shelved = Files::new(alloc);
    for (name, bytes) in files {
        shelved
            .push(named(rt, alloc, name, bytes))
            .expect(rt, "memory");
    }
    let failing = Numbers::copied_from(alloc, failing).expect(rt, "memory");
    MemShelf::new(alloc, shelved, failing)
}

/// An empty sink that fails at no call and has room for 100,000 bytes, of which it takes at most 1,000 a call.
pub(crate) fn ample_sink(rt: &impl Abort, alloc: Global) -> MemSink {
    MemSink::new(alloc, 1000, Numbers::new(alloc), 100_000)
        .ok()
        .expect(rt, "memory")
}

/// The words of a text, with a blank between each two.
pub(crate) fn split(rt: &impl Abort, alloc: Global, text: &str) -> Vec<String> {
    let mut words = Vec::new(alloc);
    for word in text.split(' ') {
        words
            .push(word.to_owned(alloc).expect(rt, "memory"))
            .expect(rt, "memory");
    }
    words
}

/// Whether two texts are the same.
pub(crate) fn is_same(text: &[u8], wanted: &str) -> bool {
    text == wanted.as_bytes()
}

/// The line above the text of the first problem of a batch.
const FIRST: &[u8] = b"; problem 1\n";

/// Whether what a batch of one problem printed is what `plan` prints of it, under its line.
pub(crate) fn is_first(text: &[u8], wanted: &str) -> bool {
    match text.strip_prefix(FIRST) {
        Some(part) => is_same(part, wanted),
        None => false,
    }
}

/// All that is noted of the turns of a run. One type for all runs, so that the planner is compiled once.
pub(crate) struct TurnNotes {
    pub(crate) count: CountGate,
    pub(crate) notes: Notes,
    pub(crate) pair: PairGate,
}

/// All parts are let go in one call, so that a proof has one step for it and not one for each part.
impl Drop for TurnNotes {
    fn drop(self) {
        let_go!(self: TurnNotes { count, notes, pair });
    }
}

impl TurnNotes {
    /// For a run of which these two horizons wait for each other.
    pub(crate) fn of_pair(one: u32, two: u32) -> TurnNotes {
        TurnNotes {
            count: CountGate::new(),
            notes: Notes::new(),
            pair: PairGate::new(one, two),
        }
    }

    /// For a run of which no horizon waits: there is none past the greatest one.
    pub(crate) fn new() -> TurnNotes {
        TurnNotes::of_pair(256, 257)
    }
}

impl Gate for TurnNotes {
    fn enter(&self, horizon: u32) {
        self.count.enter(horizon);
        self.notes.enter(horizon);
        self.pair.enter(horizon);
    }

    fn leave(&self, horizon: u32) {
        self.count.leave(horizon);
        self.notes.leave(horizon);
        self.pair.leave(horizon);
    }
}

/// The status with which a run on a shelf, into a sink, at a gate and with a driver ends.
pub(crate) fn status_of<H: Threads + Wait + Sync + AllocGlobal + Abort, D: Driver>(
    rt: &H,
    alloc: Global,
    words: &str,
    shelf: &mut MemShelf,
    sink: &mut MemSink,
    gate: &TurnNotes,
    driver: &mut D,
) -> u8 {
    let words = split(rt, alloc, words);
    run(rt, alloc, &words, shelf, sink, gate, driver).0
}
