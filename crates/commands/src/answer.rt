//! What the bytes of its files decide for a request.
ghost use Rattle.std.specs.Prelude.{◌≡◌, ◌≤◌, ◌<◌, ◌^◌, ◌∷◌, [], length, IsTrue, IfOk, Ok};
ghost use Rattle.std.specs.List.{list_all};
ghost use Rattle.pd_model.specs.Fits.{is_call};
ghost use Rattle.pd_plan.specs.PlanFile.{plan_file};
ghost use Rattle.requests.specs.Seen.{seen, files_of, IsSized};
ghost use Rattle.containers.specs.Limits.{most_bytes};
ghost use Rattle.plan_tasks.specs.Limits.{AreShort};
ghost use Rattle.plan_tasks.specs.Named.{names_of as names_in, bytes_of, third_bytes as third_now};
ghost use Rattle.commands.specs.Files.{third_of as third_in, file_at, HasFiles};
ghost use Rattle.commands.specs.Tasks.{OnceRead, OnceGrounded};
ghost use Rattle.commands.specs.Answers.{Decides, AnswersPlan, AnswersGround, AnswersOrder, AnswersCheck, RefusesCalls, ending_of};
ghost use Rattle.plan_endings.specs.Ends.{EndsAs, StopsBy};

use crate::certify::{answer_prove, answer_verify};
use crate::raced::raced;
use crate::reported::reported;
use action_order::publish::publish;
use horizon_rates::Settings;
use pd_model::{Calls, Pddl, Verdict};
use pd_plan::{PlanFault, read_plan};
use pl_io::Bytes;
use plan_endings::stop::{Stop, refuse};
use plan_endings::{Ending, File, Kind};
use plan_report::{push_ground, push_order};
use plan_tasks::ready::read_ready;
use plan_tasks::take::{Files, Names};
use plan_tasks::task::read_task;
use requests::{Request, Stepping};
use solver_pool::Gate;
use std::alloc::Global;
use std::sync::Wait;
use std::thread::Threads;
use two_invariants::find;

/// The names of the files of a request, of which a command has two or three; `gen` has none, `batch` any number.
pub fn names_of<'a>(request: &Request<'a>) -> Names<'a>
    requires { HasFiles (seen request.now) }
    ensures { names_in result ≡ files_of (seen request.now) }
{
    match request {
        Request::Plan {
            domain,
            problem,
            ..
        } => two(domain, problem),
        Request::Ground { domain, problem } => two(domain, problem),
        Request::Order { domain, problem } => two(domain, problem),
        Request::Check {
            domain,
            problem,
            plan,
        } => three(domain, problem, plan),
        Request::Prove {
            domain,
            problem,
            ..
        } => two(domain, problem),
        Request::Verify {
            domain,
            problem,
            certificate,
        } => three(domain, problem, certificate),
        // The caller's condition leaves these out.
        Request::Gen { .. } => unreachable!(),
        Request::Batch { .. } => unreachable!(),
    }
}

/// What the file after the first two of a request is, where it has one.
pub fn third_of(request: &Request<'_>) -> File
    ensures { HasFiles (seen request.now) → result ≡ third_in (seen request.now) }
{
    match request {
        Request::Verify { .. } => File::Proof,
        _ => File::Plan,
    }
}

// The names of two files.
fn two<'a>(domain: &'a str, problem: &'a str) -> Names<'a>
    ensures { names_in result ≡ domain.now ∷ problem.now ∷ [] }
{
    Names {
        domain,
        problem,
        third: None,
    }
}

// The names of three files.
fn three<'a>(domain: &'a str, problem: &'a str, third: &'a str) -> Names<'a>
    ensures { names_in result ≡ domain.now ∷ problem.now ∷ third.now ∷ [] }
{
    Names {
        domain,
        problem,
        third: Some(third),
    }
}

/// What the bytes of its files, in the order of the words, decide for a request.
pub fn answer<H: Threads + Wait + Sync, G: Gate>(
    rt: &H,
    alloc: Global,
    request: &Request<'_>,
    files: &Files,
    gate: &G,
) -> Result<Ending, Stop>
    requires fit { AreShort (file_at (seen request.now)) 0 (bytes_of files.now) }
    requires count { length (bytes_of files.now) ≡ length (files_of (seen request.now)) }
    requires sized { IsSized (seen request.now) }
    requires has { HasFiles (seen request.now) }
    ensures { EndsAs (Decides (seen request.now) (bytes_of files.now)) result }
{
    let domain = files.domain.as_slice();
    let problem = files.problem.as_slice();
    match request {
        Request::Plan {
            stepping,
            settings,
            ..
        } => answer_plan(rt, alloc, *stepping, domain, problem, settings, gate),
        Request::Ground { .. } => answer_ground(alloc, domain, problem),
        Request::Order { .. } => answer_order(rt, alloc, domain, problem),
        Request::Check { .. } => answer_check(alloc, domain, problem, third_bytes(files)),
        Request::Prove {
            horizon,
            budget,
            ..
        } => answer_prove(rt, alloc, domain, problem, *horizon, *budget),
        Request::Verify { .. } => answer_verify(rt, alloc, domain, problem, third_bytes(files)),
        // The caller's condition leaves these out.
        Request::Gen { .. } => unreachable!(),
        Request::Batch { .. } => unreachable!(),
    }
}

// The bytes of the third of three files.
fn third_bytes(files: &Files) -> &[u8]
    requires { length (bytes_of files.now) ≡ 3 }
    ensures { third_now files.now.third ≡ result.now ∷ [] }
{
    match &files.third {
        Some(third) => third.as_slice(),
        None => unreachable!(),
    }
}

// What a domain and a problem come to for the commands `plan` and `plan-all`.
fn answer_plan<H: Threads + Wait + Sync, G: Gate>(
    rt: &H,
    alloc: Global,
    steps: Stepping,
    domain: &[u8],
    problem: &[u8],
    settings: &Settings,
    gate: &G,
) -> Result<Ending, Stop>
    requires domain_fits { length domain.now ≤ most_bytes }
    requires problem_fits { length problem.now ≤ most_bytes }
    ensures { EndsAs (OnceGrounded domain.now problem.now (AnswersPlan steps settings.now)) result }
{
    let ready = read_ready(alloc, domain, problem)?;
    let end = raced(rt, alloc, steps, ready.grounded.task(), settings, gate)?;
    reported(alloc, &ready, &end, settings)
}

// What a domain and a problem come to for the command `ground`.
fn answer_ground(alloc: Global, domain: &[u8], problem: &[u8]) -> Result<Ending, Stop>
    requires domain_fits { length domain.now ≤ most_bytes }
    requires problem_fits { length problem.now ≤ most_bytes }
    ensures { EndsAs (OnceGrounded domain.now problem.now AnswersGround) result }
{
    let ready = read_ready(alloc, domain, problem)?;
    let mut text = Vec::new(alloc);
    push_ground(&ready.task, &ready.grounded, &mut text)?;
    Ok(Ending::Listing(Bytes::of(text)))
}

// What a domain and a problem come to for the command `order`.
fn answer_order<H: Threads + Sync>(
    rt: &H,
    alloc: Global,
    domain: &[u8],
    problem: &[u8],
) -> Result<Ending, Stop>
    requires domain_fits { length domain.now ≤ most_bytes }
    requires problem_fits { length problem.now ≤ most_bytes }
    ensures { EndsAs (OnceGrounded domain.now problem.now AnswersOrder) result }
{
    let ready = read_ready(alloc, domain, problem)?;
    let acts = ready.grounded.task();
    let pairs = find(rt, alloc, acts)?;
    let order = publish(alloc, acts, &pairs)?;
    let mut text = Vec::new(alloc);
    push_order(&ready.task, &ready.grounded, &order, &pairs, &mut text)?;
    Ok(Ending::Listing(Bytes::of(text)))
}

// What a domain, a problem and a plan come to for the command `check`.
fn answer_check(alloc: Global, domain: &[u8], problem: &[u8], plan: &[u8]) -> Result<Ending, Stop>
    requires domain_fits { length domain.now ≤ most_bytes }
    requires problem_fits { length problem.now ≤ most_bytes }
    requires plan_fits { length plan.now ≤ most_bytes }
    ensures { EndsAs (OnceRead domain.now problem.now (λ task. AnswersCheck task plan.now)) result }
{
    let task = read_task(alloc, domain, problem)?;
    check_task(alloc, &task, plan)
}

// What a task comes to for the command `check`, with the bytes of a plan file.
fn check_task(alloc: Global, task: &Pddl, plan: &[u8]) -> Result<Ending, Stop>
    requires { length plan.now ≤ most_bytes }
    ensures { EndsAs (AnswersCheck task.now plan.now) result }
{
    let calls = read_calls(alloc, task, plan)?;
    Ok(ending(task.run_plan(alloc, calls.as_slice())?))
}

// The calls of a plan file.
fn read_calls(alloc: Global, task: &Pddl, plan: &[u8]) -> Result<Calls, Stop>
    requires { length plan.now ≤ most_bytes }
    ensures calls { IfOk result (λ calls. plan_file task.now plan.now ≡ Ok calls) }
    ensures are_calls { IfOk result (λ calls. IsTrue (list_all (is_call task.now) calls)) }
    ensures few { IfOk result (λ calls. length calls < 2 ^ 32) }
    ensures stops { StopsBy (RefusesCalls task.now plan.now) result }
{
    let file = File::Plan;
    match read_plan(alloc, plan, task) {
        Ok(calls) => Ok(calls),
        Err(PlanFault::Syntax { at }) => Err(refuse(Kind::Syntax, file, at)),
        Err(PlanFault::Unknown { at }) => Err(refuse(Kind::Unknown, file, at)),
        Err(PlanFault::Arity { at }) => Err(refuse(Kind::Arity, file, at)),
        Err(PlanFault::Mistyped { at }) => Err(refuse(Kind::Mistyped, file, at)),
        Err(PlanFault::Memory) => Err(Stop::Memory),
    }
}

fn ending(verdict: Verdict) -> Ending
    ensures { result ≡ ending_of verdict }
{
    match verdict {
        Verdict::Reaches => Ending::Reaches,
        Verdict::Blocked { index } => Ending::Blocked { index },
        Verdict::Short => Ending::Short,
    }
}
