// Runs with several workers.
use super::runs::{Named, TurnNotes, ample_sink, holds, is_same, shelf_of, status_of};
use super::tasks::{BLOCKS, DARK, LAMP, LAMP_PLAN, TOWER, TOWER_PLAN};
use poll_run::NoDriver;
use std::alloc::{AllocGlobal, Global};
use std::process::Abort;
use std::sync::Wait;
use std::thread::Threads;

// A run on these files at a gate, which ends with status 0 and this report.
fn run_at<H: Threads + Wait + Sync + AllocGlobal + Abort>(
    rt: &H,
    alloc: Global,
    words: &str,
    files: &[Named],
    gate: &TurnNotes,
    report: &str,
) {
    let mut shelf = shelf_of(rt, alloc, files, &[]);
    let mut sink = ample_sink(rt, alloc);
    let mut driver = NoDriver::new();
    let status = status_of(rt, alloc, words, &mut shelf, &mut sink, gate, &mut driver);
    holds(rt, status == 0 && is_same(sink.taken(), report), words);
}

const IN_THE_DARK: [Named<'static>; 2] = [("d", LAMP), ("p", DARK)];

// Whether two horizons of a run are at work at once.
fn meets<H: Threads + Wait + Sync + AllocGlobal + Abort>(
    rt: &H,
    alloc: Global,
    words: &str,
    wanted: bool,
) {
    let gate = TurnNotes::of_pair(0, 1);
    run_at(rt, alloc, words, &IN_THE_DARK, &gate, LAMP_PLAN);
    holds(rt, gate.pair.met() == wanted, words);
}

// They are, but not where there is one worker.
#[test]
fn two_horizons_are_at_work_at_once(rt: HostRuntime) {
    meets(&rt, rt.alloc(), "plan d p", true);
    meets(&rt, rt.alloc(), "plan d p --workers 1", false);
}

// One worker takes the horizons of a round in turn, and the gate is told of each.
#[test]
fn one_worker_takes_one_after_another(rt: HostRuntime) {
    let gate = TurnNotes::new();
    let words = "plan d p --workers 1";
    run_at(&rt, rt.alloc(), words, &IN_THE_DARK, &gate, LAMP_PLAN);
    holds(&rt, gate.notes.are(&[0, 2, 3, 5, 6, 8, 9, 11]), words);
}

// How many turns a run on the tower takes.
fn turns<H: Threads + Wait + Sync + AllocGlobal + Abort>(
    rt: &H,
    alloc: Global,
    words: &str,
    wanted: u64,
) {
    let gate = TurnNotes::new();
    run_at(
        rt,
        alloc,
        words,
        &[("d", BLOCKS), ("p", TOWER)],
        &gate,
        TOWER_PLAN,
    );
    let (entered, left) = gate.count.counts();
    holds(rt, entered == wanted && left == wanted, words);
}

// Each of the eight horizons of the tower takes a turn for each of its conflicts, of which one has two, where a turn has one, and
// one turn where it has many.
#[test]
fn turns_are_no_longer_than_the_slice(rt: HostRuntime) {
    turns(&rt, rt.alloc(), "plan d p --workers 1 --slice 1", 9);
    turns(&rt, rt.alloc(), "plan d p --workers 1 --slice 10000", 8);
    turns(&rt, rt.alloc(), "plan d p --workers 4 --slice 1", 9);
}
