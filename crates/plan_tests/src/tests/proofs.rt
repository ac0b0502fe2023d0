// Proofs on a tape in memory, which the judge takes piece by piece.
use super::runs::{ample_sink, holds, is_same, named, shelf_of, split};
use super::tasks::{DARK, LAMP};
use judge_top::judge;
use pl_io::MemTape;
use std::alloc::{AllocGlobal, Global};
use std::process::Abort;
use std::thread::Threads;

// Two lines that refute horizon 0: each follows from the formula and the line before it.
const PROOF: &[u8] = b"3 1 0 2 0\n4 0 3 1 0\n";

// What is told of the proof, in pieces of at most so many bytes, where calls at or after a place fail.
fn tells<H: Threads + Sync + AllocGlobal + Abort>(
    rt: &H,
    alloc: Global,
    most: usize,
    failing: Option<usize>,
    due: u8,
    text: &str,
) {
    let mut shelf = shelf_of(rt, alloc, &[("d", LAMP), ("p", DARK)], &[]);
    let mut tape = MemTape::new(named(rt, alloc, "l", PROOF), most, failing);
    let mut sink = ample_sink(rt, alloc);
    let words = split(rt, alloc, "judge d p 0 l");
    let status = judge(rt, alloc, &words, &mut shelf, &mut tape, &mut sink).0;
    holds(rt, status == due && is_same(sink.taken(), text), text);
}

// A fault at the front, in the middle of a line, between two and in the last one: nothing is said of the proof. Past the line that adds
// the empty clause nothing is read.
#[test]
fn tape_fails_in_a_proof(rt: HostRuntime) {
    let (alloc, unread) = (rt.alloc(), "; read fault proof\n");
    tells(&rt, alloc, 7, None, 0, "; refuted horizon 0 entries 2\n");
    tells(&rt, alloc, 10, Some(0), 5, unread);
    tells(&rt, alloc, 5, Some(5), 5, unread);
    tells(&rt, alloc, 10, Some(10), 5, unread);
    tells(&rt, alloc, 19, Some(19), 5, unread);
    tells(
        &rt,
        alloc,
        20,
        Some(20),
        0,
        "; refuted horizon 0 entries 2\n",
    );
}
