// The gate is told before and after each turn, and of its horizon.
ghost use Rattle.std.specs.Prelude.{◌≡◌, false, nat_lt};
ghost use Rattle.solver_pool.specs.CountRun.{count_moved, count_state, count_state-unsettled};

use super::holding::holds;
use solver_pool::{CountRun, Job, Jobs, Memory, Resume, round};
use std::alloc::Global;
use std::process::Abort;
use std::sync::Wait;
use std::thread::Threads;
use test_kit::gates::Notes;

/// A run that counts, and tells of each time that it is advanced.
#[derive(Drop)]
struct ToldRun<'a> {
    run: CountRun,
    told: &'a Notes,
}

impl Resume for ToldRun<'_> {
    ghost key_of = { λ r. r.run.horizon };

    ghost granted_of = { λ r. r.run.granted };

    ghost origin_of = { λ r. record r { run = record r.run { granted = 0 } } };

    ghost moved = { λ r k. record r { run = count_moved r.run k } };

    ghost state_of = { λ r. record r { run = count_state r.run } };

    ghost unsettled_at = { λ r. nat_lt r.run.granted r.run.need };

    ghost spoilt_at = { λ r. false };

    fn advance(&mut self, conflicts: u32) -> Result<(), Memory> {
        self.told.advance(self.run.horizon);
        self.run.granted += u64::from(conflicts);
        Ok(())
    }

    fn horizon(&self) -> u32 {
        self.run.horizon
    }

    fn unsettled(&self) -> bool {
        self.run.granted < self.run.need
    }

    fn spoilt(&self) -> bool {
        false
    }

    fn granted(&self) -> u64 {
        self.run.granted
    }

    ghost by_state = { λ r. count_state-unsettled r.run };
}

/// Two runs that tell of their turns: that of horizon 4 needs two units, that of horizon 7 one.
fn jobs_told<'a>(rt: &impl Abort, alloc: Global, told: &'a Notes) -> Jobs<ToldRun<'a>> {
    let mut jobs = Vec::new(alloc);
    for (horizon, target) in &[(4, 2), (7, 1)] {
        let run = CountRun::new(*horizon, *target);
        let job = Job {
            run: ToldRun { run, told },
            target: *target,
        };
        jobs.push(job).ok().expect(rt, "memory");
    }
    Jobs::new(jobs)
}

/// A round of one worker in turns of one unit, of the two runs.
fn round_told<H: Threads + Wait + Sync + Abort>(rt: &H, alloc: Global, told: &Notes) {
    let jobs = jobs_told(rt, alloc, told);
    assert!(rt; jobs.len() <= 16 && jobs.are_rising() && jobs.are_sound());
    round(rt, alloc, jobs, 1, 1, told).ok().expect(rt, "memory");
}

#[test]
fn a_run_enters_before_its_turn_and_leaves_after(rt: HostRuntime) {
    let told = Notes::new();
    round_told(&rt, rt.alloc(), &told);
    holds(
        &rt,
        told.are(&[12, 13, 14, 21, 22, 23, 12, 13, 14]),
        "the steps of two runs",
    );
}
