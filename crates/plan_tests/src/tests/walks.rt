// The program of walks and certificates on files in memory, with calls of the shelf, of the tape and of the sink that fail.
use super::runs::{Named, ample_sink, holds, is_same, named, shelf_of, split};
use super::tasks::{DARK, LAMP};
use pl_io::{MemSink, MemTape, Numbers};
use search_top::top::run;
use std::alloc::{AllocGlobal, Global};
use std::process::Abort;
use std::thread::Threads;

// The lamp is off at first, and an action lights it.
const FILES: [Named<'static>; 3] = [
    ("d", LAMP),
    ("p", DARK),
    ("c", b"clauses forward\n1 -1 0\n"),
];

// What is told of words, where the call of the shelf with this number fails, the tape fails at this place, and the sink has these calls fail.
fn tells<H: Threads + Sync + AllocGlobal + Abort>(
    rt: &H,
    alloc: Global,
    words: &str,
    call: u32,
    place: Option<usize>,
    sink: &mut MemSink,
    due: u8,
    text: &str,
) {
    let mut shelf = shelf_of(rt, alloc, &FILES, &[call]);
    let mut tape = MemTape::new(named(rt, alloc, "l", b"1 0 1 0\n"), 3, place);
    let words = split(rt, alloc, words);
    let status = run(rt, alloc, &words, &mut shelf, &mut tape, sink).0;
    holds(rt, status == due && is_same(sink.taken(), text), text);
}

// The same into a sink that fails at no call.
fn tells_all<H: Threads + Sync + AllocGlobal + Abort>(
    rt: &H,
    alloc: Global,
    words: &str,
    call: u32,
    place: Option<usize>,
    due: u8,
    text: &str,
) {
    let mut sink = ample_sink(rt, alloc);
    tells(rt, alloc, words, call, place, &mut sink, due, text);
}

// Each file is taken once, and no other: a call more would fail. A call that fails is told by the file that it was to take.
#[test]
fn walk_on_a_shelf_that_fails(rt: HostRuntime) {
    let (alloc, met) = (rt.alloc(), "; plan of 1 actions\n(flip)\n");
    tells_all(&rt, alloc, "never d p", 3, None, 2, "; open\n");
    tells_all(&rt, alloc, "never d p", 1, None, 5, "; read fault domain\n");
    tells_all(
        &rt,
        alloc,
        "never d p",
        2,
        None,
        5,
        "; read fault problem\n",
    );
    tells_all(
        &rt,
        alloc,
        "never d p c",
        3,
        None,
        5,
        "; read fault proof\n",
    );
    tells_all(&rt, alloc, "never-search d p", 3, None, 1, met);
}

// So does the tape, at the front of a proof and in the middle of a line.
#[test]
fn walk_on_a_tape_that_fails(rt: HostRuntime) {
    let (alloc, words) = (rt.alloc(), "never-judge d p c l");
    let unread = "; read fault proof\n";
    tells_all(&rt, alloc, words, 4, None, 1, "; rejected line 1\n");
    tells_all(&rt, alloc, words, 4, Some(0), 5, unread);
    tells_all(&rt, alloc, words, 4, Some(4), 5, unread);
}

// The sink takes three bytes a call, and its second call fails: three bytes are there.
#[test]
fn walk_into_a_sink_that_fails(rt: HostRuntime) {
    let alloc = rt.alloc();
    let failing = Numbers::copied_from(alloc, &[2]).expect(&rt, "memory");
    let mut sink = MemSink::new(alloc, 3, failing, 1000)
        .ok()
        .expect(&rt, "memory");
    tells(&rt, alloc, "never d p", 3, None, &mut sink, 6, "; o");
}
