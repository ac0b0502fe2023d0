// Calls of the shelf and of the sink.
use super::runs::{Named, TurnNotes, ample_sink, holds, is_first, is_same, shelf_of, status_of};
use super::tasks::{DARK, LAMP, LAMP_PLAN};
use pl_io::{MemSink, Numbers};
use poll_run::NoDriver;
use std::alloc::{AllocGlobal, Global};
use std::process::Abort;
use std::sync::Wait;
use std::thread::Threads;

const FILES: [Named<'static>; 3] = [("d", LAMP), ("p", DARK), ("l", b"(flip)")];

// A run that ends well, though this call of the shelf would fail, which is not made.
fn stops_before<H: Threads + Wait + Sync + AllocGlobal + Abort>(
    rt: &H,
    alloc: Global,
    words: &str,
    call: u32,
) {
    let mut shelf = shelf_of(rt, alloc, &FILES, &[call]);
    let mut sink = ample_sink(rt, alloc);
    let mut driver = NoDriver::new();
    let gate = TurnNotes::new();
    let status = status_of(rt, alloc, words, &mut shelf, &mut sink, &gate, &mut driver);
    holds(rt, status == 0 && shelf.failed().is_empty(), words);
}

// Each file that the words name is taken once, and no other: a call more would fail, and the shelf note it.
#[test]
fn files_are_taken_once(rt: HostRuntime) {
    let alloc = rt.alloc();
    stops_before(&rt, alloc, "plan d p", 3);
    stops_before(&rt, alloc, "check d p l", 4);
    stops_before(&rt, alloc, "ground d p", 3);
    stops_before(&rt, alloc, "order d p", 3);
    stops_before(&rt, alloc, "gen corridor 1", 1);
}

// So in a batch, which tells the same with a driver that fails as with one that does not.
#[test]
fn driver_fails(rt: HostRuntime) {
    let (alloc, words) = (rt.alloc(), "batch d p");
    let mut shelf = shelf_of(&rt, alloc, &FILES, &[3]);
    let mut sink = ample_sink(&rt, alloc);
    let mut driver = NoDriver::new();
    let gate = TurnNotes::new();
    let status = status_of(&rt, alloc, words, &mut shelf, &mut sink, &gate, &mut driver);
    let is = status == 0 && shelf.failed().is_empty() && is_first(sink.taken(), LAMP_PLAN);
    holds(&rt, is, words);
}

// The sink takes ten bytes a call, and its second call fails: ten bytes are there, and a fault is noted.
#[test]
fn sink_fails_at_a_call(rt: HostRuntime) {
    let (alloc, words) = (rt.alloc(), "plan d p");
    let mut shelf = shelf_of(&rt, alloc, &FILES, &[]);
    let failing = Numbers::copied_from(alloc, &[2]).expect(&rt, "memory");
    let mut sink = MemSink::new(alloc, 10, failing, 1000)
        .ok()
        .expect(&rt, "memory");
    let mut driver = NoDriver::new();
    let gate = TurnNotes::new();
    let status = status_of(&rt, alloc, words, &mut shelf, &mut sink, &gate, &mut driver);
    let is = status == 6 && sink.faults() == 1 && is_same(sink.taken(), "; horizon ");
    holds(&rt, is, words);
}
