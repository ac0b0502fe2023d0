//! What the bytes of a domain and a problem, and a proof or a model, come to.
ghost use Rattle.std.specs.Prelude.{◌≡◌, ◌≤◌, length, IfOk};
ghost use Rattle.containers.specs.Limits.{most_bytes};
ghost use Rattle.pl_io.specs.Tape.{IsAtFront};
ghost use Rattle.plan_endings.specs.Ends.{OnlyMemory};
ghost use Rattle.proof_verdict.specs.Verdict.{tape_run};
ghost use Rattle.judge_top.specs.Answers.{EndsWith, OnceReady, AnswersFormula, AnswersOpen, IsBelow, IsSmallTold, ended_by, ended_with};
ghost use Rattle.horizon_rates.specs.Limits.{last_horizon};

use crate::Ended;
use crate::formula::{formula_by, word_of};
use crate::model::{Told, told_by};
use lrat_judge::verdict::Verdict;
use pl_io::{Bytes, Tape};
use plan_endings::Ending;
use plan_endings::stop::Stop;
use plan_report::plan_text;
use plan_tasks::ready::{Ready, read_ready};
use proof_verdict::told::told;
use proof_verdict::verdict::verdict_on;
use requests::Stepping;
use sat_text::value_reader::Refused;
use std::alloc::Global;
use std::thread::Threads;

/// What the file is that is open.
#[derive(Clone, Copy)]
pub enum Open {
    /// A proof.
    Proof,
    /// The text of a model.
    Model,
}

/// What a domain and a problem come to for the command `formula`.
pub fn answer_formula<H: Threads + Sync>(
    rt: &H,
    alloc: Global,
    horizon: u32,
    steps: Stepping,
    domain: &[u8],
    problem: &[u8],
) -> Result<Ended, Stop>
    requires domain_fits { length domain.now ≤ most_bytes }
    requires problem_fits { length problem.now ≤ most_bytes }
    requires horizon { horizon ≤ last_horizon }
    ensures { EndsWith (OnceReady domain.now problem.now (AnswersFormula steps horizon)) result }
{
    let ready = read_ready(alloc, domain, problem)?;
    let formula = formula_by(rt, alloc, steps, ready.grounded.task(), horizon)?;
    let text = told(alloc, word_of(steps).as_bytes(), horizon, &formula)?;
    Ok(Ended::Plain(Ending::Listing(text)))
}

// How a run ends with a verdict; a proof that is not read to its end has none.
fn ended(horizon: u32, verdict: Verdict) -> Ended
    ensures { result ≡ ended_by horizon verdict }
{
    match verdict {
        Verdict::Refuted { entries } => Ended::Refuted { horizon, entries },
        Verdict::Rejected { line } => Ended::Rejected { line },
        Verdict::Syntax { at } => Ended::Syntax { at },
        Verdict::TooLong { line } => Ended::TooLong { line },
        Verdict::NotEmpty | Verdict::More => Ended::Plain(Ending::NotEmpty),
    }
}

/// What a domain, a problem and the file that is open come to, which is a proof for the command `judge`, and the text of a model for
/// `model`.
pub fn answer_open<H: Threads + Sync, T: Tape>(
    rt: &H,
    alloc: Global,
    horizon: u32,
    steps: Stepping,
    what: Open,
    domain: &[u8],
    problem: &[u8],
    tape: &mut T,
) -> Result<Ended, Stop>
    requires domain_fits { length domain.now ≤ most_bytes }
    requires problem_fits { length problem.now ≤ most_bytes }
    requires horizon { horizon ≤ last_horizon }
    requires front { IsAtFront (T.given tape.old) }
    ensures ended { EndsWith (λ end. OnceReady domain.now problem.now (AnswersOpen what steps horizon (tape_run (T.faults tape.old) (T.faults tape.new) (T.given tape.old) (T.given tape.new))) end) result }
    ensures opened { (T.given tape.new).opened ≡ (T.given tape.old).opened }
    ensures later { T.faults tape.old ≤ T.faults tape.new }
{
    let ready = read_ready(alloc, domain, problem)?;
    let task = ready.grounded.task();
    match what {
        Open::Proof => {
            let formula = formula_by(rt, alloc, steps, task, horizon)?;
            let verdict = verdict_on(alloc, &formula, tape)?;
            Ok(ended(horizon, verdict))
        }
        Open::Model => {
            let told = told_by(rt, alloc, steps, task, horizon, tape)?;
            let end = ended_told(alloc, &ready, horizon, told)?;
            Ok(end)
        }
    }
}

// How a run ends with what was made of a model's text.
fn ended_told(alloc: Global, ready: &Ready, horizon: u32, told: Told) -> Result<Ended, Stop>
    requires { IsBelow (length ready.now.grounded.calls) told }
    ensures ended { IfOk result (λ end. end ≡ ended_with ready.now.task ready.now.grounded horizon told) }
    ensures small { IfOk result (λ end. IsSmallTold horizon told) }
    ensures memory { OnlyMemory result }
{
    match told {
        Told::Unread => Ok(Ended::Unread),
        Told::Refused(Refused::NoText { at }) => Ok(Ended::NoText { at }),
        Told::Refused(Refused::LongLine { line }) => Ok(Ended::TooLong { line }),
        Told::NoModel { clause } => Ok(Ended::NoModel { clause }),
        Told::Plan(steps) => {
            let steps = steps.as_slice();
            let text = plan_text(alloc, &ready.task, &ready.grounded, horizon, steps)?;
            Ok(Ended::Plain(Ending::Listing(Bytes::of(text.into_vec()))))
        }
    }
}
