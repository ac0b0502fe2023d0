//! What files come to for the commands on certificates.
ghost use Rattle.std.specs.Prelude.{◌≡◌, ◌≤◌, length, IfOk};
ghost use Rattle.containers.specs.Limits.{most_bytes, certificate_bytes};
ghost use Rattle.commands.specs.Certificate.{IsSpelled};
ghost use Rattle.plan_endings.specs.Ends.{EndsAs, StopsBy};
ghost use Rattle.commands.specs.Answers.{AnswersProve, AnswersVerify, RefusesProof, ending_of_run, ending_of_check};
ghost use Rattle.commands.specs.Tasks.{OnceRead, OnceGrounded};
ghost use Rattle.horizon_rates.specs.Limits.{last_horizon};

use crate::ProofError;
use crate::prove::{Proved, prove};
use crate::verify::{Judged, verify};
use pl_io::Bytes;
use plan_endings::stop::{Stop, refuse};
use plan_endings::{Ending, File, Kind};
use plan_tasks::ground::ground_task;
use plan_tasks::ready::read_ready;
use plan_tasks::task::read_task;
use proof_log::{Proof, ProofFault, read_proof};
use std::alloc::Global;
use std::thread::Threads;

/// What a domain and a problem come to for the command `prove`.
pub(crate) fn answer_prove<H: Threads + Sync>(
    rt: &H,
    alloc: Global,
    domain: &[u8],
    problem: &[u8],
    horizon: u32,
    budget: u64,
) -> Result<Ending, Stop>
    requires domain_fits { length domain.now ≤ most_bytes }
    requires problem_fits { length problem.now ≤ most_bytes }
    requires horizon { horizon ≤ last_horizon }
    requires budget { budget ≤ 1000000 }
    ensures { EndsAs (OnceGrounded domain.now problem.now (AnswersProve horizon budget)) result }
{
    let ready = read_ready(alloc, domain, problem)?;
    match prove(rt, alloc, ready.grounded.task(), horizon, budget) {
        Ok(proved) => Ok(run_ending(horizon, proved)),
        Err(ProofError::Literals { count }) => Ok(Ending::TooLarge { horizon, count }),
        Err(ProofError::Memory) => Err(Stop::Memory),
    }
}

fn run_ending(horizon: u32, proved: Proved) -> Ending
    ensures { result ≡ ending_of_run horizon proved }
{
    match proved {
        Proved::Certificate(text) => Ending::Listing(Bytes::of(text.into_vec())),
        Proved::TooLong => Ending::TooLong(File::Proof),
        Proved::Plan { conflicts } => Ending::Found { horizon, conflicts },
        Proved::Open { conflicts } => Ending::Open { horizon, conflicts },
    }
}

/// What a domain, a problem and a certificate come to for the command `verify`.
pub(crate) fn answer_verify<H: Threads + Sync>(
    rt: &H,
    alloc: Global,
    domain: &[u8],
    problem: &[u8],
    proof: &[u8],
) -> Result<Ending, Stop>
    requires domain_fits { length domain.now ≤ most_bytes }
    requires problem_fits { length problem.now ≤ most_bytes }
    requires proof_fits { length proof.now ≤ certificate_bytes }
    ensures { EndsAs (OnceRead domain.now problem.now (λ task. AnswersVerify task proof.now)) result }
{
    let task = read_task(alloc, domain, problem)?;
    let log = read_certificate(alloc, proof)?;
    let grounded = ground_task(alloc, &task)?;
    match verify(rt, alloc, grounded.task(), &log) {
        Ok(judged) => Ok(check_ending(log.horizon, judged)),
        Err(ProofError::Literals { count }) => Ok(Ending::TooLarge {
            horizon: log.horizon,
            count,
        }),
        Err(ProofError::Memory) => Err(Stop::Memory),
    }
}

// The horizon and the log that the bytes of a file spell.
fn read_certificate(alloc: Global, bytes: &[u8]) -> Result<Proof, Stop>
    requires { length bytes.now ≤ certificate_bytes }
    ensures spelled { IfOk result (λ proof. IsSpelled bytes.now proof.horizon proof.log) }
    ensures few { IfOk result (λ proof. length proof.log ≤ certificate_bytes) }
    ensures stops { StopsBy (RefusesProof bytes.now) result }
{
    match read_proof(alloc, bytes) {
        Ok(proof) => Ok(proof),
        Err(ProofFault::Syntax { at }) => Err(refuse(Kind::Syntax, File::Proof, at)),
        Err(ProofFault::Memory) => Err(Stop::Memory),
    }
}

fn check_ending(horizon: u32, judged: Judged) -> Ending
    ensures { result ≡ ending_of_check horizon judged }
{
    match judged {
        Judged::Accepted { entries } => Ending::Accepted { horizon, entries },
        Judged::Rejected { entry } => Ending::Rejected { entry },
        Judged::NotEmpty => Ending::NotEmpty,
    }
}
