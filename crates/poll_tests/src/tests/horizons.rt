//! The runs of two horizons of a lamp that is off, which one action turns on: by themselves, in a round of two workers, and by
//! polls.
ghost use Rattle.std.specs.Prelude.{◌≤◌};

use super::lamps::lamp_run;
use super::seen::{Seen, holds};
use cdcl_defs::standing::Standing;
use poll_run::{BlockOn, settle};
use solver_pool::{Job, Jobs, OpenGate, Resume, round};
use std::alloc::{AllocGlobal, Global};
use std::process::Abort;
use std::random::RandomSource;
use std::sync::Wait;
use std::thread::Threads;

/// The run, which was granted so many conflicts, has handled so many, and stands so. One that was granted none may go on.
fn looked<R: Seen>(
    rt: &impl Abort,
    alloc: Global,
    run: R,
    granted: u64,
    conflicts: u64,
    wanted: Standing,
) -> R {
    let goes = granted == 0 || matches!(wanted, Standing::Going);
    holds(rt, run.granted() == granted && run.unsettled() == goes);
    run.seen_at(alloc, conflicts, wanted)
        .expect(rt, "a run that stands so")
}

/// Grants a run conflicts, as a worker does.
fn grant<R: Seen>(rt: &impl Abort, run: &mut R, conflicts: u32) {
    assert!(rt; conflicts <= 1000 && run.granted() <= 1000);
    run.advance(conflicts).ok().expect(rt, "memory");
}

/// The run of no step goes on to its first conflict, which refutes it, and no further.
fn is_refuted_by_one<R: Seen>(rt: &impl Abort, alloc: Global, run: R) {
    let mut run = looked(rt, alloc, run, 0, 0, Standing::Going);
    grant(rt, &mut run, 0);
    let mut run = looked(rt, alloc, run, 0, 0, Standing::Going);
    grant(rt, &mut run, 1);
    let mut run = looked(rt, alloc, run, 1, 1, Standing::Refuted);
    grant(rt, &mut run, 5);
    let run = looked(rt, alloc, run, 6, 1, Standing::Refuted);
    holds(rt, run.is_certified(alloc));
}

/// The run of one step is found before it is granted a conflict, and stays so.
fn is_found_at_once<R: Seen>(rt: &impl Abort, alloc: Global, run: R) {
    let mut run = looked(rt, alloc, run, 0, 0, Standing::Found);
    grant(rt, &mut run, 5);
    looked(rt, alloc, run, 5, 0, Standing::Found);
}

#[test]
fn no_step_is_refuted_and_one_step_is_found(rt: HostRuntime) {
    let alloc = rt.alloc();
    is_refuted_by_one(&rt, alloc, lamp_run(&rt, alloc, 0, 0));
    is_found_at_once(&rt, alloc, lamp_run(&rt, alloc, 1, 0));
}

/// A run whose solver is a conflict ahead looks as before, until the conflict is granted.
fn is_ahead_unseen<R: Seen>(rt: &impl Abort, alloc: Global, run: R) {
    let mut run = run;
    holds(rt, run.work_ahead());
    let mut run = looked(rt, alloc, run, 0, 0, Standing::Going);
    holds(rt, !run.work_ahead());
    grant(rt, &mut run, 1);
    let run = looked(rt, alloc, run, 1, 1, Standing::Refuted);
    holds(rt, run.is_certified(alloc));
}

#[test]
fn what_was_not_granted_is_not_seen(rt: HostRuntime) {
    let alloc = rt.alloc();
    is_ahead_unseen(&rt, alloc, lamp_run(&rt, alloc, 0, 1));
}

/// Two runs, each with a target of 50 units.
fn two_jobs<R: Resume>(rt: &impl Abort, alloc: Global, first: R, second: R) -> Jobs<R> {
    assert!(rt; first.granted() <= 50 && second.granted() <= 50);
    let mut jobs = Vec::new(alloc);
    jobs.push(Job {
        run: first,
        target: 50,
    })
    .expect(rt, "memory");
    jobs.push(Job {
        run: second,
        target: 50,
    })
    .expect(rt, "memory");
    Jobs::new(jobs)
}

/// Two runs stand as they do by themselves, and the log of the first is accepted.
fn are_ended<R: Seen>(rt: &impl Abort, alloc: Global, jobs: Vec<Job<R>>) {
    let mut jobs = jobs;
    let Job { run, target: _ } = jobs.pop().expect(rt, "a job");
    let found = run.seen_at(alloc, 0, Standing::Found);
    let Job { run, target: _ } = jobs.pop().expect(rt, "another job");
    let refuted = run.seen_at(alloc, 1, Standing::Refuted);
    let refuted = refuted.expect(rt, "a refuted run");
    holds(rt, found.is_some() && jobs.is_empty());
    holds(rt, refuted.is_certified(alloc));
}

/// A round of two workers, in turns of one unit, brings two runs so far.
fn rounds<R: Seen + Send, H: Threads + Wait + Sync + Abort>(
    rt: &H,
    alloc: Global,
    first: R,
    second: R,
) {
    let jobs = two_jobs(rt, alloc, first, second);
    assert!(rt; jobs.len() <= 16 && jobs.are_rising() && jobs.are_sound());
    let jobs = round(rt, alloc, jobs, 2, 1, &OpenGate)
        .ok()
        .expect(rt, "memory");
    are_ended(rt, alloc, jobs.into_vec());
}

#[test]
fn a_round_brings_runs_to_their_targets(rt: HostRuntime) {
    let alloc = rt.alloc();
    let (first, second) = (lamp_run(&rt, alloc, 0, 0), lamp_run(&rt, alloc, 1, 0));
    rounds(&rt, alloc, first, second);
}

/// A new run that is brought to a target by polls of one conflict has handled so many, and stands so.
fn settles<R: Seen, H: Wait + RandomSource + AllocGlobal + Abort>(
    rt: &H,
    run: R,
    target: u64,
    conflicts: u64,
    wanted: Standing,
)
    requires { target ≤ 1000 }
{
    assert!(rt; !run.spoilt() && run.granted() <= target);
    let end = settle(&mut BlockOn::new(rt), run, target, 1)
        .ok()
        .expect(rt, "a run");
    let is_refuted = matches!(wanted, Standing::Refuted);
    let end = end.seen_at(rt.alloc(), conflicts, wanted);
    let end = end.expect(rt, "a run that stands so");
    holds(rt, end.is_certified(rt.alloc()) == is_refuted);
}

// With units, the first conflict refutes the run of no step; without, it stays as it is.
#[test]
fn polls_settle_the_run_of_a_horizon(rt: HostRuntime) {
    let alloc = rt.alloc();
    settles(&rt, lamp_run(&rt, alloc, 0, 0), 50, 1, Standing::Refuted);
    settles(&rt, lamp_run(&rt, alloc, 0, 0), 0, 0, Standing::Going);
}
