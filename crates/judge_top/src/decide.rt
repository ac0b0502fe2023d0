//! How a run ends, before anything is written.
ghost use Rattle.std.specs.Prelude.{◌≡◌, ◌≤◌, ℕ, List, length, map, string_bytes, None, Ok};
ghost use Rattle.pl_io.specs.Outside.{Agrees, fault_count};
ghost use Rattle.plan_tasks.specs.Files.{NotesAmong};
ghost use Rattle.containers.specs.Limits.{most_bytes};
ghost use Rattle.judge_top.specs.Requested.{requested, command_named};
ghost use Rattle.judge_top.specs.Seen.{seen, horizon_of};
ghost use Rattle.proof_verdict.specs.Verdict.{tape_run};
ghost use Rattle.judge_top.specs.Answers.{EndsWith};
ghost use Rattle.judge_top.specs.Causes.{Answers, OfModel, ComesFor, Comes, names_in, two_of};
ghost use Rattle.horizon_rates.specs.Limits.{last_horizon};

use crate::answer::{Open, answer_formula, answer_open};
use crate::{Ended, Request};
use pl_io::{Shelf, TakeError, Tape};
use plan_endings::File;
use plan_endings::stop::Stop;
use plan_tasks::take::{Names, take_all};
use proof_verdict::verdict::open;
use requests::{Stepping, read_words};
use std::alloc::Global;
use std::thread::Threads;

/// How the run ends, by the words, the files that they name and the proof.
pub fn decide<H: Threads + Sync, S: Shelf, T: Tape>(
    rt: &H,
    alloc: Global,
    words: &[String],
    shelf: &mut S,
    tape: &mut T,
) -> Result<Ended, Stop>
    ensures cause { EndsWith (Comes (S.heard shelf.old) (S.heard shelf.new) (S.failed shelf.old) (S.failed shelf.new) (tape_run (T.faults tape.old) (T.faults tape.new) (T.given tape.old) (T.given tape.new)) (map string_bytes words.now)) result }
    ensures no_command { command_named (map string_bytes words.now) ≡ None → result ≡ Ok Ended.Usage }
    ensures untouched { requested (map string_bytes words.now) ≡ None → shelf.new ≡ shelf.old }
    ensures told { S.told shelf.new ≡ S.told shelf.old }
    ensures lacks { S.lacks shelf.new ≡ S.lacks shelf.old }
    ensures tape_faults { T.faults tape.old ≤ T.faults tape.new }
    ensures agrees { Agrees (S.told shelf.old) (S.lacks shelf.old) (S.heard shelf.old) (S.heard shelf.new) }
    ensures noted { NotesAmong (names_in (map string_bytes words.now)) (S.failed shelf.old) (S.failed shelf.new) }
    ensures never_falls { (name : List ℕ) → fault_count name (S.failed shelf.old) ≤ fault_count name (S.failed shelf.new) }
{
    match read_words(alloc, words)? {
        None => Ok(Ended::Usage),
        Some(request) => decide_request(rt, alloc, &request, shelf, tape),
    }
}

// The same for what the words ask for.
fn decide_request<H: Threads + Sync, S: Shelf, T: Tape>(
    rt: &H,
    alloc: Global,
    request: &Request<'_>,
    shelf: &mut S,
    tape: &mut T,
) -> Result<Ended, Stop>
    requires { horizon_of (seen request.now) ≤ last_horizon }
    ensures cause { EndsWith (ComesFor (S.heard shelf.old) (S.heard shelf.new) (S.failed shelf.old) (S.failed shelf.new) (tape_run (T.faults tape.old) (T.faults tape.new) (T.given tape.old) (T.given tape.new)) (seen request.now)) result }
    ensures told { S.told shelf.new ≡ S.told shelf.old }
    ensures lacks { S.lacks shelf.new ≡ S.lacks shelf.old }
    ensures agrees { Agrees (S.told shelf.old) (S.lacks shelf.old) (S.heard shelf.old) (S.heard shelf.new) }
    ensures noted { NotesAmong (two_of (seen request.now)) (S.failed shelf.old) (S.failed shelf.new) }
    ensures tape_faults { T.faults tape.old ≤ T.faults tape.new }
{
    let names = Names {
        domain: request.domain(),
        problem: request.problem(),
        third: None,
    };
    let files = take_all(alloc, names, File::Proof, shelf)?;
    let first = files.domain.as_slice();
    let second = files.problem.as_slice();
    answer(rt, alloc, request, first, second, tape)
}

// What the bytes of the domain and of the problem, and the file on the tape, come to.
fn answer<H: Threads + Sync, T: Tape>(
    rt: &H,
    alloc: Global,
    request: &Request<'_>,
    first: &[u8],
    second: &[u8],
    tape: &mut T,
) -> Result<Ended, Stop>
    requires domain_fits { length first.now ≤ most_bytes }
    requires problem_fits { length second.now ≤ most_bytes }
    requires horizon { horizon_of (seen request.now) ≤ last_horizon }
    ensures cause { EndsWith (λ end. Answers (tape_run (T.faults tape.old) (T.faults tape.new) (T.given tape.old) (T.given tape.new)) (seen request.now) end first.now second.now) result }
    ensures tape_faults { T.faults tape.old ≤ T.faults tape.new }
{
    match request {
        Request::Formula {
            horizon,
            stepping,
            ..
        } => { answer_formula(rt, alloc, *horizon, *stepping, first, second) }
        Request::Judge {
            horizon,
            proof,
            stepping,
            ..
        } => {
            open(tape, proof)?;
            answer_open(
                rt,
                alloc,
                *horizon,
                *stepping,
                Open::Proof,
                first,
                second,
                tape,
            )
        }
        Request::Model {
            horizon,
            model,
            stepping,
            ..
        } => { answer_opened(rt, alloc, first, second, *horizon, *stepping, model, tape) }
    }
}

// The same of the file of a model, which is opened first.
fn answer_opened<H: Threads + Sync, T: Tape>(
    rt: &H,
    alloc: Global,
    first: &[u8],
    second: &[u8],
    horizon: u32,
    steps: Stepping,
    model: &str,
    tape: &mut T,
) -> Result<Ended, Stop>
    requires domain_fits { length first.now ≤ most_bytes }
    requires problem_fits { length second.now ≤ most_bytes }
    requires horizon { horizon ≤ last_horizon }
    ensures cause { EndsWith (λ end. OfModel (tape_run (T.faults tape.old) (T.faults tape.new) (T.given tape.old) (T.given tape.new)) steps horizon model.now end first.now second.now) result }
    ensures tape_faults { T.faults tape.old ≤ T.faults tape.new }
{
    match tape.open(model) {
        Ok(()) => answer_open(rt, alloc, horizon, steps, Open::Model, first, second, tape),
        Err(TakeError::Failed) => Ok(Ended::Unread),
        Err(TakeError::Memory) => Err(Stop::Memory),
    }
}
