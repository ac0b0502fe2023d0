//! What the bytes of files come to where it is tried to show that there is no plan of any length.
ghost use Rattle.std.specs.Prelude.{◌≤◌, length, IfOk};
ghost use Rattle.containers.specs.Limits.{most_bytes, certificate_bytes};
ghost use Rattle.search_top.specs.Answers.{EndsWith, OnceReady};
ghost use Rattle.search_top.specs.Never.{AnswersNever, AnswersCertificate};
ghost use Rattle.search_top.specs.own.Exclusions.{IsExcluded, HasLiterals};

use crate::Ended;
use crate::judged::judge;
use crate::never_report::{ended_excluded, ended_judged};
use gt_core::task::Task;
use never_check::excluded::{Exclusion, excluded_goal};
use pl_io::Memory;
use plan_endings::stop::Stop;
use plan_tasks::ready::read_ready;
use std::alloc::Global;
use std::thread::Threads;
use two_invariants::find;

// By what the goal of a task is excluded, under its invariants.
fn excluded<H: Threads + Sync>(rt: &H, alloc: Global, task: &Task) -> Result<Exclusion, Memory>
    ensures excluded { IfOk result (IsExcluded task.now) }
    ensures literals { IfOk result (HasLiterals task.now.facts) }
{
    // For the proof: the task is lawful.
    let _facts = task.facts();
    let known = find(rt, alloc, task)?;
    let by = excluded_goal(alloc, task, &known)?;
    Ok(by)
}

/// What a domain and a problem come to for the command `never`.
pub(crate) fn answer_never<H: Threads + Sync>(
    rt: &H,
    alloc: Global,
    domain: &[u8],
    problem: &[u8],
) -> Result<Ended, Stop>
    requires domain_fits { length domain.now ≤ most_bytes }
    requires problem_fits { length problem.now ≤ most_bytes }
    ensures { EndsWith (OnceReady domain.now problem.now AnswersNever) result }
{
    let ready = read_ready(alloc, domain, problem)?;
    let by = excluded(rt, alloc, ready.grounded.task())?;
    let end = ended_excluded(alloc, &ready.task, &ready.grounded, by)?;
    Ok(end)
}

/// What a domain, a problem and the text of a certificate come to for the command `never`.
pub(crate) fn answer_certificate<H: Threads + Sync>(
    rt: &H,
    alloc: Global,
    domain: &[u8],
    problem: &[u8],
    certificate: &[u8],
) -> Result<Ended, Stop>
    requires domain_fits { length domain.now ≤ most_bytes }
    requires problem_fits { length problem.now ≤ most_bytes }
    requires certificate_fits { length certificate.now ≤ certificate_bytes }
    ensures { EndsWith (OnceReady domain.now problem.now (AnswersCertificate certificate.now)) result }
{
    let ready = read_ready(alloc, domain, problem)?;
    let said = judge(rt, alloc, ready.grounded.task(), certificate)?;
    let end = ended_judged(alloc, &ready.task, &ready.grounded, said)?;
    Ok(end)
}
