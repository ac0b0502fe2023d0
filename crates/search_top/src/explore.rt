//! What the bytes of a domain and a problem come to where a certificate is searched for, or the task is told as a transition system.
ghost use Rattle.std.specs.Prelude.{◌≡◌, ◌≤◌, length, OnOk, IfOk};
ghost use Rattle.containers.specs.Limits.{most_bytes};
ghost use Rattle.search_top.specs.Answers.{EndsWith, OnceReady};
ghost use Rattle.search_top.specs.Explored.{IsExplored, ended_explored, IsSmallFound, AnswersExplore, AnswersSystem, system_text};
ghost use Rattle.search_top.specs.own.Below.{IsFoundBelow};

use crate::ended::{Ended, Finding};
use crate::report::push_end;
use crate::request::{Format, How};
use grounder::Grounded;
use gt_core::task::Task;
use never_search::answer::{Answer, End};
use never_search::search::search;
use never_system::aiger::put_aiger;
use never_system::blif::put_blif;
use never_text::write::put_clauses;
use pd_model::{Memory, Pddl};
use pl_io::Bytes;
use plan_endings::Ending;
use plan_endings::stop::Stop;
use plan_tasks::ready::read_ready;
use state_search::answer::{Actions, End as WalkEnd};
use std::alloc::Global;
use std::thread::Threads;
use two_invariants::find;

// What a search for a certificate comes to that meets so many obligations at most.
fn explored<H: Threads + Sync>(
    rt: &H,
    alloc: Global,
    task: &Task,
    budget: u32,
) -> Result<Answer, Memory>
    ensures explored { IfOk result (IsExplored task.now budget) }
    ensures below { IfOk result (λ a. IsFoundBelow (length task.now.actions) a.end) }
{
    let known = find(rt, alloc, task)?;
    let answer = search(alloc, task, &known, u64::from(budget))?;
    Ok(answer)
}

// How a run ends with that.
fn ended_explored(alloc: Global, p: &Pddl, g: &Grounded, end: End) -> Result<Ended, Memory>
    requires { IsFoundBelow (length g.now.calls) end }
    ensures ended { IfOk result (λ ended. ended ≡ ended_explored p.now g.now end) }
    ensures small { OnOk result (IsSmallFound end) }
{
    let mut text = Vec::new(alloc);
    match end {
        End::Set(clauses) => {
            put_clauses(&mut text, false, &clauses)?;
            Ok(Ended::Shown {
                finding: Finding::NoPlan,
                text: Bytes::of(text),
            })
        }
        End::Plan(actions) => {
            let end = WalkEnd::Plan(Actions::of(actions));
            push_end(p, g, How::Greedy, &end, &mut text)?;
            Ok(Ended::Shown {
                finding: Finding::Planned,
                text: Bytes::of(text),
            })
        }
        End::Open => {
            text.extend_from_slice(b"; open\n")?;
            Ok(Ended::Shown {
                finding: Finding::Open,
                text: Bytes::of(text),
            })
        }
    }
}

/// What a domain and a problem come to for the command `never-search`.
pub(crate) fn answer_explore<H: Threads + Sync>(
    rt: &H,
    alloc: Global,
    domain: &[u8],
    problem: &[u8],
    budget: u32,
) -> Result<Ended, Stop>
    requires domain_fits { length domain.now ≤ most_bytes }
    requires problem_fits { length problem.now ≤ most_bytes }
    ensures { EndsWith (OnceReady domain.now problem.now (AnswersExplore budget)) result }
{
    let ready = read_ready(alloc, domain, problem)?;
    let answer = explored(rt, alloc, ready.grounded.task(), budget)?;
    let end = ended_explored(alloc, &ready.task, &ready.grounded, answer.end)?;
    Ok(end)
}

// The text of a task as a transition system, in a format.
fn system_text(alloc: Global, format: Format, task: &Task) -> Result<Bytes, Memory>
    ensures { IfOk result (λ text. text ≡ system_text format task.now) }
{
    let mut text = Vec::new(alloc);
    match format {
        Format::Blif => put_blif(alloc, &mut text, task)?,
        Format::Aiger => put_aiger(alloc, &mut text, task)?,
    }
    Ok(Bytes::of(text))
}

/// What a domain and a problem come to for the command `system`.
pub(crate) fn answer_system(
    alloc: Global,
    domain: &[u8],
    problem: &[u8],
    format: Format,
) -> Result<Ended, Stop>
    requires domain_fits { length domain.now ≤ most_bytes }
    requires problem_fits { length problem.now ≤ most_bytes }
    ensures { EndsWith (OnceReady domain.now problem.now (AnswersSystem format)) result }
{
    let ready = read_ready(alloc, domain, problem)?;
    let text = system_text(alloc, format, ready.grounded.task())?;
    Ok(Ended::Plain(Ending::Listing(text)))
}
