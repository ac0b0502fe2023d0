//! What is said of a certificate.
ghost use Rattle.std.specs.Prelude.{◌≡◌, ◌≤◌, length, Ok, IfOk};
ghost use Rattle.containers.specs.Limits.{certificate_bytes};
ghost use Rattle.never_text.specs.Certificate.{Forward, Backward, Weights, certificate_of};
ghost use Rattle.never_text.specs.Reading.{AreClauses, AreWeighted};
ghost use Rattle.search_top.specs.Never.{said_forward, said_backward, said_weights, IsSaidOf};
ghost use Rattle.search_top.specs.own.Below.{HasActions};

use containers::FlatLists;
use gt_core::task::Task;
use never_check::backward::{BackwardVerdict, check_backward};
use never_check::forward::{ForwardVerdict, check_forward};
use never_check::weights::{WeightsVerdict, check_weights};
use never_text::read::{Reading, read};
use pl_io::Memory;
use std::alloc::Global;
use std::thread::Threads;
use two_invariants::find;

/// What is said of the text of a certificate. Clauses are numbered from 0, in the order of its lines, and actions as in the ground task.
#[derive(Clone, Copy, PartialEq, Eq)]
pub enum Judgement {
    /// It is no certificate: the offset of the first byte of the line at fault, or how long the text is.
    Faulty { at: u64 },
    /// So many clauses show that there is no plan.
    Clauses(u32),
    /// Weights show it.
    Weights,
    /// The clause with this number is false in the initial state; or, where there is none, all clauses are true there.
    Initial(Option<u32>),
    /// The clause with this number need not hold where the goal does; or, where there is none, the certificate leaves the goal open.
    Goal(Option<u32>),
    /// At this clause this action does not pass.
    Pair { clause: u32, action: u32 },
    /// This action may raise the sum of the weights.
    Action(u32),
}

// What a verdict on clauses that are read forward says.
fn said_forward(count: u32, verdict: ForwardVerdict) -> Judgement
    ensures { result ≡ said_forward count verdict }
{
    match verdict {
        ForwardVerdict::Accepted => Judgement::Clauses(count),
        ForwardVerdict::Initial(clause) => Judgement::Initial(Some(clause)),
        ForwardVerdict::Goal => Judgement::Goal(None),
        ForwardVerdict::Pair(clause, action) => Judgement::Pair { clause, action },
    }
}

// The same of clauses that are read backward.
fn said_backward(count: u32, verdict: BackwardVerdict) -> Judgement
    ensures { result ≡ said_backward count verdict }
{
    match verdict {
        BackwardVerdict::Accepted => Judgement::Clauses(count),
        BackwardVerdict::Initial => Judgement::Initial(None),
        BackwardVerdict::Goal(clause) => Judgement::Goal(Some(clause)),
        BackwardVerdict::Pair(clause, action) => Judgement::Pair { clause, action },
    }
}

// The same of weights.
fn said_weights(verdict: WeightsVerdict) -> Judgement
    ensures { result ≡ said_weights verdict }
{
    match verdict {
        WeightsVerdict::Accepted => Judgement::Weights,
        WeightsVerdict::Goal => Judgement::Goal(None),
        WeightsVerdict::Action(action) => Judgement::Action(action),
    }
}

// What is said of clauses that are read forward.
fn judge_forward<H: Threads + Sync>(
    rt: &H,
    alloc: Global,
    task: &Task,
    clauses: &FlatLists<u32>,
) -> Result<Judgement, Memory>
    requires { AreClauses task.now.facts clauses.now }
    ensures said { IfOk result (IsSaidOf task.now (Ok (Forward clauses.now))) }
    ensures actions { IfOk result (HasActions (length task.now.actions)) }
{
    // For the proof: the task is lawful.
    let _facts = task.facts();
    let known = find(rt, alloc, task)?;
    let verdict = check_forward(alloc, task, &known, clauses)?;
    Ok(said_forward(clauses.len() as u32, verdict))
}

// The same of clauses that are read backward.
fn judge_backward<H: Threads + Sync>(
    rt: &H,
    alloc: Global,
    task: &Task,
    clauses: &FlatLists<u32>,
) -> Result<Judgement, Memory>
    requires { AreClauses task.now.facts clauses.now }
    ensures said { IfOk result (IsSaidOf task.now (Ok (Backward clauses.now))) }
    ensures actions { IfOk result (HasActions (length task.now.actions)) }
{
    // For the proof: the task is lawful.
    let _facts = task.facts();
    let known = find(rt, alloc, task)?;
    let verdict = check_backward(alloc, task, &known, clauses)?;
    Ok(said_backward(clauses.len() as u32, verdict))
}

// The same of weights.
fn judge_weights<H: Threads + Sync>(
    rt: &H,
    alloc: Global,
    task: &Task,
    weights: &[(u32, u64)],
) -> Result<Judgement, Memory>
    requires { AreWeighted task.now.facts weights.now }
    ensures said { IfOk result (IsSaidOf task.now (Ok (Weights weights.now))) }
    ensures actions { IfOk result (HasActions (length task.now.actions)) }
{
    // For the proof: the task is lawful.
    let _facts = task.facts();
    let known = find(rt, alloc, task)?;
    let verdict = check_weights(alloc, task, &known, weights)?;
    Ok(said_weights(verdict))
}

/// What is said of the text of a certificate.
pub(crate) fn judge<H: Threads + Sync>(
    rt: &H,
    alloc: Global,
    task: &Task,
    text: &[u8],
) -> Result<Judgement, Memory>
    requires { length text.now ≤ certificate_bytes }
    ensures said { IfOk result (IsSaidOf task.now (certificate_of task.now.facts text.now)) }
    ensures actions { IfOk result (HasActions (length task.now.actions)) }
{
    let reading = read(alloc, task.facts(), text)?;
    match &reading {
        Reading::Faulty { at, .. } => Ok(Judgement::Faulty { at: *at }),
        Reading::Forward(clauses) => judge_forward(rt, alloc, task, clauses),
        Reading::Backward(clauses) => judge_backward(rt, alloc, task, clauses),
        Reading::Weights(weights) => judge_weights(rt, alloc, task, weights),
    }
}
