//! What the bytes of a domain and a problem come to for a walk through the states.
ghost use Rattle.std.specs.Prelude.{◌≤◌, length};
ghost use Rattle.containers.specs.Limits.{most_bytes};
ghost use Rattle.search_top.specs.Answers.{EndsWith, OnceReady, AnswersSearch};

use crate::Ended;
use crate::budget::budget_of;
use crate::report::{outcome_of, report_of};
use crate::request::How;
use crate::walk::walk;
use plan_endings::stop::Stop;
use plan_tasks::ready::read_ready;
use std::alloc::Global;

/// What a domain and a problem come to for the command `search`.
pub(crate) fn answer_search(
    alloc: Global,
    domain: &[u8],
    problem: &[u8],
    how: How,
    states: u32,
    memory: u32,
) -> Result<Ended, Stop>
    requires domain_fits { length domain.now ≤ most_bytes }
    requires problem_fits { length problem.now ≤ most_bytes }
    requires some { 1 ≤ states }
    ensures { EndsWith (OnceReady domain.now problem.now (AnswersSearch how states memory)) result }
{
    let ready = read_ready(alloc, domain, problem)?;
    let task = ready.grounded.task();
    let most = budget_of(how, task, states, memory);
    let answer = walk(alloc, how, task, most)?;
    let text = report_of(alloc, &ready.task, &ready.grounded, how, most, &answer)?;
    Ok(Ended::Walked {
        outcome: outcome_of(&answer.end),
        text,
    })
}
