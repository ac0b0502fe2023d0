//! What the bytes of a domain, a problem and a certificate come to where its formula is told, or a proof over that formula is judged.
ghost use Rattle.std.specs.Prelude.{◌≡◌, ◌≤◌, ◌<◌, ◌++◌, ◌∷◌, [], length, Some, Ok, IfOk, decimal};
ghost use Rattle.containers.specs.Limits.{most_bytes, certificate_bytes};
ghost use Rattle.report_lines.specs.Lines.{joined};
ghost use Rattle.gt_core.specs.Task.{initial_state};
ghost use Rattle.never_defs.specs.Sets.{AreTrue};
ghost use Rattle.never_text.specs.Certificate.{certificate_of};
ghost use Rattle.never_text.specs.Reading.{AreClauses};
ghost use Rattle.plan_endings.specs.Ends.{OnlyMemory};
ghost use Rattle.proof_verdict.specs.Verdict.{tape_run};
ghost use Rattle.search_top.specs.Answers.{EndsWith, OnceReady};
ghost use Rattle.search_top.specs.Never.{faulty_line};
ghost use Rattle.search_top.specs.Refuted.{ended_kind, ended_initial, ended_verdict, OfForward, FormulaTold, ProofJudged, AnswersNeverFormula, AnswersNeverJudge};
ghost use Rattle.search_top.specs.declared.ended.Ended.TheVariants.{Shown};

use crate::ended::{Ended, Finding};
use containers::FlatLists;
use gt_core::task::Task;
use lrat_judge::verdict::Verdict;
use never_check::forward::first_false;
use never_form::formed::formula_of;
use never_text::read::{Reading, read};
use pl_io::{Bytes, Memory, Tape};
use plan_endings::Ending;
use plan_endings::stop::Stop;
use plan_tasks::ready::read_ready;
use proof_verdict::told::told;
use proof_verdict::verdict::{open, verdict_on};
use report_lines::push_number;
use std::alloc::Global;
use std::thread::Threads;

// How a run ends with this finding, whose text is a line that begins so and ends with a number.
fn shown(alloc: Global, finding: Finding, front: &[u8], number: u64) -> Result<Ended, Memory>
    ensures { IfOk result (λ end. end ≡ Shown finding (joined ((front.now ++ decimal number) ∷ []))) }
{
    let mut text = Vec::new(alloc);
    text.extend_from_slice(front)?;
    push_number(&mut text, number)?;
    text.extend_from_slice(b"\n")?;
    Ok(Ended::Shown {
        finding,
        text: Bytes::of(text),
    })
}

// How a run ends with a text that is no certificate, by the offset of its first line at fault.
fn faulty(alloc: Global, at: u64) -> Result<Ended, Stop>
    ensures ended { IfOk result (λ end. end ≡ Shown Finding.Refused (joined (faulty_line at ∷ []))) }
    ensures memory { OnlyMemory result }
{
    let end = shown(
        alloc,
        Finding::Refused,
        b"; refused syntax certificate ",
        at,
    )?;
    Ok(end)
}

// How a run ends with a certificate of which there is no formula.
fn other_kind(alloc: Global) -> Result<Ended, Stop>
    ensures ended { IfOk result (λ end. end ≡ ended_kind) }
    ensures memory { OnlyMemory result }
{
    let mut text = Vec::new(alloc);
    text.extend_from_slice(b"; refused kind certificate\n")?;
    Ok(Ended::Shown {
        finding: Finding::Refused,
        text: Bytes::of(text),
    })
}

// How a run ends with the verdict on a proof over the formula of so many clauses; a proof that is not read to its end has none.
fn ended_verdict(alloc: Global, count: usize, verdict: Verdict) -> Result<Ended, Memory>
    ensures { IfOk result (λ end. end ≡ ended_verdict count verdict) }
{
    match verdict {
        Verdict::Refuted { entries } => refuted(alloc, count, entries),
        Verdict::Rejected { line } => { shown(alloc, Finding::Rejected, b"; rejected line ", line) }
        Verdict::Syntax { at } => shown(alloc, Finding::Refused, b"; refused syntax proof ", at),
        Verdict::TooLong { line } => shown(alloc, Finding::Past, b"; limit line ", line),
        Verdict::NotEmpty | Verdict::More => Ok(Ended::Plain(Ending::NotEmpty)),
    }
}

// The same of a proof of so many entries that derives the empty clause.
fn refuted(alloc: Global, count: usize, entries: u64) -> Result<Ended, Memory>
    ensures { IfOk result (λ end. end ≡ ended_verdict count (Verdict.Refuted entries)) }
{
    let mut text = Vec::new(alloc);
    text.extend_from_slice(b"; no plan of any length, clauses ")?;
    push_number(&mut text, count as u64)?;
    text.extend_from_slice(b" entries ")?;
    push_number(&mut text, entries)?;
    text.extend_from_slice(b"\n")?;
    Ok(Ended::Shown {
        finding: Finding::NoPlan,
        text: Bytes::of(text),
    })
}

// What clauses come to where their formula is told.
fn formula_told<H: Threads + Sync>(
    rt: &H,
    alloc: Global,
    task: &Task,
    clauses: &FlatLists<u32>,
) -> Result<Ended, Stop>
    requires { AreClauses task.now.facts clauses.now }
    ensures { EndsWith (FormulaTold task.now clauses.now) result }
{
    let formula = formula_of(rt, alloc, task, clauses)?;
    let text = told(alloc, b"exists never", 1, &formula)?;
    Ok(Ended::Plain(Ending::Listing(text)))
}

// How a run ends where the clause with this number is false in the initial state.
fn false_at_first(alloc: Global, number: usize) -> Result<Ended, Stop>
    requires { number < certificate_bytes }
    ensures ended { IfOk result (λ end. end ≡ ended_initial number) }
    ensures memory { OnlyMemory result }
{
    let count = number as u64 + 1;
    let end = shown(alloc, Finding::Rejected, b"; rejected initial ", count)?;
    Ok(end)
}

// What clauses that are all true in the initial state and the proof of this name come to.
fn proof_judged<H: Threads + Sync, T: Tape>(
    rt: &H,
    alloc: Global,
    task: &Task,
    clauses: &FlatLists<u32>,
    proof: &str,
    tape: &mut T,
) -> Result<Ended, Stop>
    requires clauses { AreClauses task.now.facts clauses.now }
    requires first { AreTrue (initial_state task.now) clauses.now }
    ensures ended { EndsWith (ProofJudged (tape_run (T.faults tape.old) (T.faults tape.new) (T.given tape.old) (T.given tape.new)) proof.now task.now clauses.now) result }
    ensures later { T.faults tape.old ≤ T.faults tape.new }
{
    let formula = formula_of(rt, alloc, task, clauses)?;
    open(tape, proof)?;
    let verdict = verdict_on(alloc, &formula, tape)?;
    let end = ended_verdict(alloc, clauses.len(), verdict)?;
    Ok(end)
}

// What the text of a certificate comes to where its formula is told.
fn formula_in<H: Threads + Sync>(
    rt: &H,
    alloc: Global,
    task: &Task,
    text: &[u8],
) -> Result<Ended, Stop>
    requires { length text.now ≤ certificate_bytes }
    ensures { EndsWith (OfForward (FormulaTold task.now) (certificate_of task.now.facts text.now)) result }
{
    let reading = read(alloc, task.facts(), text)?;
    match &reading {
        Reading::Forward(clauses) => formula_told(rt, alloc, task, clauses),
        Reading::Faulty { at, .. } => faulty(alloc, *at),
        Reading::Backward(_) => other_kind(alloc),
        Reading::Weights(_) => other_kind(alloc),
    }
}

// What the text of a certificate and the proof of this name come to.
fn proof_in<H: Threads + Sync, T: Tape>(
    rt: &H,
    alloc: Global,
    task: &Task,
    text: &[u8],
    proof: &str,
    tape: &mut T,
) -> Result<Ended, Stop>
    requires { length text.now ≤ certificate_bytes }
    ensures ended { EndsWith (OfForward (ProofJudged (tape_run (T.faults tape.old) (T.faults tape.new) (T.given tape.old) (T.given tape.new)) proof.now task.now) (certificate_of task.now.facts text.now)) result }
    ensures later { T.faults tape.old ≤ T.faults tape.new }
{
    let reading = read(alloc, task.facts(), text)?;
    match &reading {
        Reading::Forward(clauses) => match first_false(task, clauses) {
            Some(number) => false_at_first(alloc, number),
            None => proof_judged(rt, alloc, task, clauses, proof, tape),
        },
        Reading::Faulty { at, .. } => faulty(alloc, *at),
        Reading::Backward(_) => other_kind(alloc),
        Reading::Weights(_) => other_kind(alloc),
    }
}

/// What a domain, a problem and the text of a certificate come to for the command `never-formula`.
pub(crate) fn answer_formula<H: Threads + Sync>(
    rt: &H,
    alloc: Global,
    domain: &[u8],
    problem: &[u8],
    certificate: &[u8],
) -> Result<Ended, Stop>
    requires domain_fits { length domain.now ≤ most_bytes }
    requires problem_fits { length problem.now ≤ most_bytes }
    requires certificate_fits { length certificate.now ≤ certificate_bytes }
    ensures { EndsWith (OnceReady domain.now problem.now (AnswersNeverFormula certificate.now)) result }
{
    let ready = read_ready(alloc, domain, problem)?;
    formula_in(rt, alloc, ready.grounded.task(), certificate)
}

/// What they and the proof of this name come to for the command `never-judge`.
pub(crate) fn answer_judge<H: Threads + Sync, T: Tape>(
    rt: &H,
    alloc: Global,
    domain: &[u8],
    problem: &[u8],
    certificate: &[u8],
    proof: &str,
    tape: &mut T,
) -> Result<Ended, Stop>
    requires domain_fits { length domain.now ≤ most_bytes }
    requires problem_fits { length problem.now ≤ most_bytes }
    requires certificate_fits { length certificate.now ≤ certificate_bytes }
    ensures ended { EndsWith (OnceReady domain.now problem.now (AnswersNeverJudge (tape_run (T.faults tape.old) (T.faults tape.new) (T.given tape.old) (T.given tape.new)) proof.now certificate.now)) result }
    ensures later { T.faults tape.old ≤ T.faults tape.new }
{
    let ready = read_ready(alloc, domain, problem)?;
    proof_in(rt, alloc, ready.grounded.task(), certificate, proof, tape)
}
