//! What a generated task comes to.
ghost use Rattle.std.specs.Prelude.{◌≡◌, ◌≤◌, ◌++◌, length, IfOk};
ghost use Rattle.race_outcome.specs.Ends.{end_view, lines_in, conflicts_in};
ghost use Rattle.plan_gen.specs.Task.{domain_of, problem_of};
ghost use Rattle.containers.specs.Limits.{most_bytes};
ghost use Rattle.commands.specs.Tasks.{OnceGrounded};
ghost use Rattle.commands.specs.Generated.{AnswersGenerated, RacesGenerated, kind_text, generated_line, generated_report};
ghost use Rattle.plan_endings.specs.Ends.{EndsAs};

use crate::raced::{outcome, raced};
use horizon_rates::Settings;
use pd_model::Memory;
use pl_io::Bytes;
use plan_endings::Ending;
use plan_endings::stop::Stop;
use plan_gen::{Kind, Made, generate};
use plan_report::summary_text;
use plan_tasks::ready::read_ready;
use race_outcome::RaceEnd;
use report_lines::push_number;
use requests::{Show, Stepping};
use solver_pool::Gate;
use std::alloc::{AllocError, Global};
use std::sync::Wait;
use std::thread::Threads;

/// What a generated task comes to: the text that is shown, or how the race on it ended.
pub fn answer_gen<H: Threads + Wait + Sync, G: Gate>(
    rt: &H,
    alloc: Global,
    kind: Kind,
    number: u32,
    show: Show,
    settings: &Settings,
    gate: &G,
) -> Result<Ending, Stop>
    requires { (1 ≤ number) × (number ≤ 64) }
    ensures { EndsAs (AnswersGenerated kind number settings.now show) result }
{
    let made = generate(alloc, kind, number)?;
    match show {
        Show::Domain => Ok(Ending::Listing(Bytes::of(made.domain.into_vec()))),
        Show::Problem => Ok(Ending::Listing(Bytes::of(made.problem.into_vec()))),
        Show::None => { race_made(rt, alloc, &made, kind, number, settings, gate) }
    }
}

// What the task of the two texts that were generated comes to.
fn race_made<H: Threads + Wait + Sync, G: Gate>(
    rt: &H,
    alloc: Global,
    made: &Made,
    kind: Kind,
    number: u32,
    settings: &Settings,
    gate: &G,
) -> Result<Ending, Stop>
    requires domain_fits { length made.now.domain ≤ most_bytes }
    requires problem_fits { length made.now.problem ≤ most_bytes }
    ensures { EndsAs (OnceGrounded made.now.domain made.now.problem (RacesGenerated kind number settings.now)) result }
{
    let ready = read_ready(alloc, made.domain.as_slice(), made.problem.as_slice())?;
    let end = raced(
        rt,
        alloc,
        Stepping::Exists,
        ready.grounded.task(),
        settings,
        gate,
    )?;
    let text = generated_text(alloc, kind, number, &end, settings)?;
    Ok(Ending::Report {
        outcome: outcome(&end),
        text,
    })
}

// The report on a generated task.
fn generated_text(
    alloc: Global,
    kind: Kind,
    number: u32,
    end: &RaceEnd,
    settings: &Settings,
) -> Result<Bytes, Memory>
    requires { conflicts_in (lines_in (end_view end.now)) ≤ settings.now.budget }
    ensures { IfOk result (λ text. text ≡ generated_report kind number settings.now (end_view end.now)) }
{
    let mut text = first_line(alloc, kind, number)?;
    let summary = summary_text(alloc, end, settings.budget)?;
    text.extend_from_slice(summary.as_slice())?;
    Ok(Bytes::of(text))
}

// The first line of the report on a generated task.
fn first_line(alloc: Global, kind: Kind, number: u32) -> Result<Vec<u8>, AllocError>
    ensures { IfOk result (λ text. text.items ≡ generated_line kind number) }
{
    let mut text = Vec::from_slice(alloc, b"; generated ")?;
    text.extend_from_slice(kind_word(kind).as_bytes())?;
    text.extend_from_slice(b" ")?;
    push_number(&mut text, u64::from(number))?;
    text.extend_from_slice(b"\n")?;
    Ok(text)
}

// The word for a kind of task.
fn kind_word(kind: Kind) -> &'static str
    ensures { result.now ≡ kind_text kind }
{
    match kind {
        Kind::Corridor => "corridor",
        Kind::Gripper => "gripper",
    }
}
