// Runs under a driver that counts how often it polls.
use super::runs::{Named, TurnNotes, ample_sink, holds, shelf_of, status_of};
use super::tasks::{BLOCKS, TOWER, TOWER_PLAN};
use std::alloc::{AllocGlobal, Global};
use std::process::Abort;
use std::random::RandomSource;
use std::sync::Wait;
use std::sync::atomic::{AtomicU64, Ordering};
use std::thread::Threads;
use test_kit::Counting;

const FILES: [Named<'static>; 2] = [("d", BLOCKS), ("p", TOWER)];

// How often the driver of a run on the tower polls, which ends with status 0 and the tower's plan.
fn polls_of<H: Threads + Wait + Sync + RandomSource + AllocGlobal + Abort>(
    rt: &H,
    alloc: Global,
    words: &str,
) -> u64 {
    let polls = AtomicU64::new(0);
    let mut driver = Counting::new(rt, &polls);
    let mut shelf = shelf_of(rt, alloc, &FILES, &[]);
    let mut sink = ample_sink(rt, alloc);
    let gate = TurnNotes::new();
    let status = status_of(rt, alloc, words, &mut shelf, &mut sink, &gate, &mut driver);
    let is_told = sink.taken().ends_with(TOWER_PLAN.as_bytes());
    holds(rt, status == 0 && is_told, words);
    polls.load(Ordering::SeqCst)
}

// The words of a run, and how often its driver polls. The tower's race has two rounds of four horizons, each settled by at most one
// conflict but for horizon 5, which takes two. A poll begins a round, advances one run by a slice at most, or ends a round, and of
// two problems it does so for each. Outside of a batch the driver polls nothing.
const ROWS: [(&str, u64); 5] = [
    ("batch d p --slice 1", 13),
    ("batch d p --slice 2", 12),
    ("batch d p --slice 10000", 12),
    ("batch d p p", 12),
    ("plan d p", 0),
];

#[test]
fn polls_are_counted(rt: HostRuntime) {
    for (words, wanted) in &ROWS {
        holds(&rt, polls_of(&rt, rt.alloc(), words) == *wanted, words);
    }
}
