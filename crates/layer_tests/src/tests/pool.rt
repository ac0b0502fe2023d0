// Turns in a ring, rounds, and that two runs are at work at once.
ghost use Rattle.std.specs.Prelude.{◌≡◌};
ghost use Rattle.crossbeam_queue.specs.Passes.{view};
ghost use Rattle.solver_pool.specs.Ring.{IsOwnerPass, IsRingPass, IsSlice};

use super::holding::holds;
use solver_pool::{
    CountRun, Gate, Job, Jobs, OpenGate, Opened, Pass, Resume, Ring, Served, round, serve_one,
};
use std::alloc::Global;
use std::process::Abort;
use std::sync::Wait;
use std::thread::Threads;
use test_kit::gates::{CountGate, PairGate};

/// A job of a run that counts: its horizon, the units that it needs, and its target.
type Row = (u32, u64, u16);

fn jobs_of(rt: &impl Abort, alloc: Global, rows: &[Row]) -> Jobs<CountRun> {
    let mut jobs = Vec::new(alloc);
    for (horizon, need, target) in rows {
        let run = CountRun::new(*horizon, *need);
        let target = u64::from(*target);
        jobs.push(Job { run, target }).ok().expect(rt, "memory");
    }
    Jobs::new(jobs)
}

/// A ring of these jobs.
fn ring_of<H: Wait + Abort>(rt: &H, alloc: Global, rows: &[Row]) -> Opened<CountRun>
    ensures { IsOwnerPass ⟦<CountRun as Resume>⟧ result.ring result.owner }
{
    let jobs = jobs_of(rt, alloc, rows);
    assert!(rt; jobs.len() <= 16 && jobs.are_rising() && jobs.are_sound());
    let Ok(opened) = Ring::open(rt, alloc, jobs) else {
        rt.panic("memory")
    };
    opened
}

/// What a turn comes to.
#[derive(Clone, Copy)]
enum Turn {
    /// The job stays in the ring.
    Back,
    /// There is no job.
    Idle,
    /// The job is done, and its run was granted so many units.
    Done(u64),
}

/// Whether a turn came to this.
fn is_turn(served: Served<CountRun>, turn: Turn) -> bool {
    match (served, turn) {
        (Served::Back, Turn::Back) | (Served::Idle, Turn::Idle) => true,
        (Served::Done(job), Turn::Done(units)) => job.run.granted() == units,
        _ => false,
    }
}

/// Makes turns with a pass, which come to this.
fn serves<H: Wait + Abort>(
    rt: &H,
    ring: &Ring<CountRun>,
    pass: &mut Pass<CountRun>,
    slice: u32,
    turns: &[Turn],
)
    requires pass { IsRingPass ⟦<CountRun as Resume>⟧ ring.now pass.old }
    requires slice { IsSlice slice }
    ensures pass { IsRingPass ⟦<CountRun as Resume>⟧ ring.now pass.new }
    ensures owner { (view pass.new.pass).owner ≡ (view pass.old.pass).owner }
{
    for turn in turns {
        let served = serve_one(rt, ring, pass, slice, &OpenGate);
        holds(rt, is_turn(served, *turn), "a turn");
    }
}

/// Whether a job is there, and of this horizon.
fn is_of(job: Option<Job<CountRun>>, horizon: u32) -> bool {
    match job {
        Some(job) => job.run.horizon() == horizon,
        None => false,
    }
}

/// Whether no job is there.
fn is_none(job: Option<Job<CountRun>>) -> bool {
    job.is_none()
}

/// Drains a ring: jobs of these horizons come out, and no other.
fn drains<H: Wait + Abort>(
    rt: &H,
    ring: &Ring<CountRun>,
    owner: &mut Pass<CountRun>,
    horizons: &[u32],
)
    requires { IsOwnerPass ⟦<CountRun as Resume>⟧ ring.now owner.old }
    ensures { IsOwnerPass ⟦<CountRun as Resume>⟧ ring.now owner.new }
{
    for horizon in horizons {
        holds(rt, is_of(ring.drain(rt, owner), *horizon), "a job");
    }
    holds(rt, is_none(ring.drain(rt, owner)), "no job");
}

/// Jobs, whether the turns are made with a pass that is given out or with the owner's, how many units a turn grants, what
/// the turns come to, and the horizons that are drained after them.
type Story = (&'static [Row], bool, u32, &'static [Turn], &'static [u32]);

/// What is told of a ring comes to pass.
fn is_told<H: Wait + Abort>(
    rt: &H,
    ring: &Ring<CountRun>,
    owner: &mut Pass<CountRun>,
    story: &Story,
)
    requires { IsOwnerPass ⟦<CountRun as Resume>⟧ ring.now owner.old }
{
    let (_, given, slice, turns, horizons) = *story;
    assert!(rt; slice >= 1 && slice <= 10000);
    if given {
        let Ok(mut pass) = ring.give(rt, owner) else {
            rt.panic("memory")
        };
        serves(rt, ring, &mut pass, slice, turns);
        drains(rt, ring, owner, horizons);
        ring.take_in(rt, owner, pass);
    } else {
        serves(rt, ring, owner, slice, turns);
        drains(rt, ring, owner, horizons);
    }
}

/// What is told comes to pass of a ring that is opened for it.
fn comes_to_pass<H: Wait + Abort>(rt: &H, alloc: Global, story: &Story) {
    let Opened { ring, mut owner } = ring_of(rt, alloc, story.0);
    is_told(rt, &ring, &mut owner, story);
}

const SIXTEEN: [Row; 16] = [
    (0, 5, 3),
    (1, 5, 3),
    (2, 5, 3),
    (3, 5, 3),
    (4, 5, 3),
    (5, 5, 3),
    (6, 5, 3),
    (7, 5, 3),
    (8, 5, 3),
    (9, 5, 3),
    (10, 5, 3),
    (11, 5, 3),
    (12, 5, 3),
    (13, 5, 3),
    (14, 5, 3),
    (15, 5, 3),
];

const STORIES: [Story; 4] = [
    (&[], true, 1, &[Turn::Idle], &[]),
    (
        &SIXTEEN,
        false,
        1,
        &[],
        &[0, 1, 2, 3, 4, 5, 6, 7, 8, 9, 10, 11, 12, 13, 14, 15],
    ),
    (
        &[(0, 5, 3)],
        true,
        2,
        &[Turn::Back, Turn::Done(3), Turn::Idle],
        &[],
    ),
    (&[(0, 1, 1)], false, 1, &[Turn::Done(1), Turn::Idle], &[]),
];

#[test]
fn a_ring_serves_and_is_drained(rt: HostRuntime) {
    for story in &STORIES {
        comes_to_pass(&rt, rt.alloc(), story);
    }
}

/// A round of these jobs.
fn round_of<G: Gate, H: Threads + Wait + Sync + Abort>(
    rt: &H,
    alloc: Global,
    rows: &[Row],
    workers: u32,
    slice: u32,
    gate: &G,
) -> Jobs<CountRun> {
    assert!(rt; workers >= 1 && workers <= 16 && slice >= 1 && slice <= 10000);
    let jobs = jobs_of(rt, alloc, rows);
    assert!(rt; jobs.len() <= 16 && jobs.are_rising() && jobs.are_sound());
    round(rt, alloc, jobs, workers, slice, gate)
        .ok()
        .expect(rt, "memory")
}

/// A job that a round gives back: its horizon, and the units that its run was granted where it is unsettled.
type Line = (u32, Option<u64>);

/// Whether a job is as a line says.
fn is_line(job: &Job<CountRun>, line: &Line) -> bool {
    let (horizon, granted) = *line;
    let unsettled = job.run.unsettled();
    let as_told = match granted {
        Some(units) => unsettled && job.run.granted() == units,
        None => !unsettled,
    };
    job.run.horizon() == horizon && as_told
}

/// Whether jobs are as the lines say, a job a line.
fn are_lines(jobs: &[Job<CountRun>], lines: &[Line]) -> bool {
    let mut same = jobs.len() == lines.len();
    for (job, line) in jobs.iter().zip(lines) {
        same &= is_line(job, line);
    }
    same
}

/// Jobs, how many workers serve them, how many units a turn grants, what comes back, and how many turns begin.
type Round = (&'static [Row], u32, u32, &'static [Line], u64);

/// A round gives back what is told, and so many turns began, and as many ended.
fn gives_back<H: Threads + Wait + Sync + Abort>(rt: &H, alloc: Global, told: &Round) {
    let (rows, workers, slice, lines, turns) = *told;
    let gate = CountGate::new();
    let jobs = round_of(rt, alloc, rows, workers, slice, &gate);
    holds(rt, are_lines(jobs.as_slice(), lines), "what comes back");
    let (entered, left) = gate.counts();
    holds(rt, entered == turns && left == turns, "turns");
}

const THREE: [Row; 3] = [(4, 5, 3), (7, 1, 3), (9, 100, 0)];

const STAND: [Line; 3] = [(4, Some(3)), (7, None), (9, Some(0))];

const ROUNDS: [Round; 5] = [
    (&THREE, 2, 1, &STAND, 5),
    (&THREE, 1, 2, &STAND, 4),
    (&THREE, 16, 10000, &STAND, 3),
    (&[(0, 1, 50), (1, 0, 50)], 2, 1, &[(0, None), (1, None)], 2),
    (&[], 3, 1, &[], 0),
];

#[test]
fn jobs_come_back_in_order_at_their_targets(rt: HostRuntime) {
    for told in &ROUNDS {
        gives_back(&rt, rt.alloc(), told);
    }
}

/// Jobs, two horizons, how many workers serve the jobs, and whether the two are at work at once.
type Pair = (&'static [Row], u32, u32, u32, bool);

/// Two horizons are at work at once in a round of these jobs, or not, as is told.
fn meet<H: Threads + Wait + Sync + Abort>(rt: &H, alloc: Global, told: &Pair) {
    let (rows, one, two, workers, met) = *told;
    let gate = PairGate::new(one, two);
    let jobs = round_of(rt, alloc, rows, workers, 1, &gate);
    holds(rt, jobs.len() == rows.len(), "as many jobs");
    holds(rt, gate.met() == met, "at work at once");
}

const ALL_THREE: [Row; 3] = [(0, 1, 1), (1, 1, 1), (2, 1, 1)];

// Whichever two of three: so no two are dealt out to one worker beforehand. Also where one of the two is settled from the
// start: its turn is taken all the same. One worker alone never ends the wait in time.
const PAIRS: [Pair; 6] = [
    (&[(0, 1, 1), (1, 1, 1)], 0, 1, 2, true),
    (&ALL_THREE, 0, 1, 2, true),
    (&ALL_THREE, 0, 2, 2, true),
    (&ALL_THREE, 1, 2, 2, true),
    (&[(0, 1, 1), (1, 0, 1)], 0, 1, 2, true),
    (&[(0, 1, 1), (1, 1, 1)], 0, 1, 1, false),
];

#[test]
fn two_runs_are_at_work_at_once(rt: HostRuntime) {
    for told in &PAIRS {
        meet(&rt, rt.alloc(), told);
    }
}
