//! Certificates over small tasks, and goals that are excluded without one. What has to be printed was worked out by hand.
//!
//! The facts are p and q, 1 and 2 in the texts. At first p alone is true, and both are the goal. The first action of each task
//! moves p to q.

ghost use Rattle.std.specs.Prelude.{◌≡◌};
ghost use Rattle.gt_core.specs.Clauses.{IsKnownClauses};

use crate::lines::{Out, put};
use containers::memory::Memory;
use gt_core::act::{Act, Acts};
use gt_core::lits::{Bits, Lits};
use gt_core::pairs::Pairs;
use gt_core::task::Task;
use never_check::backward::{BackwardVerdict, check_backward};
use never_check::excluded::{Exclusion, excluded_goal};
use never_check::forward::{ForwardVerdict, check_forward};
use never_check::weights::{WeightsVerdict, check_weights};
use never_text::read::{Reading, read};
use std::alloc::AllocError;
use std::thread::Threads;
use test_kit::actions::{action, plain, when};
use two_invariants::find;

/// Certificates, right ones and wrong ones.
const TEXTS: [&str; 16] = [
    "clauses forward\n-1 -2 0\n",
    "clauses forward\n-2 0\n",
    "clauses forward\n1 0\n",
    "clauses forward\n-1 0\n",
    "clauses forward\n1 2 0\n",
    "clauses backward\n1 0\n2 0\n",
    "clauses backward\n1 0\n",
    "clauses backward\n2 0\n",
    "clauses backward\n1 2 0\n",
    "clauses backward\n-1 0\n2 0\n",
    "clauses backward\n1 -2 0\n2 0\n",
    "weights\n1 1\n2 1\n",
    "weights\n1 1\n",
    "weights\n1 2\n2 1\n",
    "weights\n1 1\n2 2\n",
    "weights\n1 2\n2 3\n1 -1\n",
];

/// Writes what comes of a forward set.
fn put_forward(out: &mut Out, verdict: &ForwardVerdict) {
    match verdict {
        ForwardVerdict::Accepted => put(out, "forward accepted\n", &[]),
        ForwardVerdict::Initial(clause) => put(out, "forward initial #\n", &[u64::from(*clause)]),
        ForwardVerdict::Goal => put(out, "forward goal\n", &[]),
        ForwardVerdict::Pair(clause, act) => {
            put(
                out,
                "forward clause # action #\n",
                &[u64::from(*clause), u64::from(*act)],
            )
        }
    }
}

/// Writes what comes of a backward set.
fn put_backward(out: &mut Out, verdict: &BackwardVerdict) {
    match verdict {
        BackwardVerdict::Accepted => put(out, "backward accepted\n", &[]),
        BackwardVerdict::Initial => put(out, "backward initial\n", &[]),
        BackwardVerdict::Goal(clause) => put(out, "backward goal #\n", &[u64::from(*clause)]),
        BackwardVerdict::Pair(clause, act) => {
            put(
                out,
                "backward clause # action #\n",
                &[u64::from(*clause), u64::from(*act)],
            )
        }
    }
}

/// Writes what comes of weights.
fn put_weights(out: &mut Out, verdict: &WeightsVerdict) {
    match verdict {
        WeightsVerdict::Accepted => put(out, "weights accepted\n", &[]),
        WeightsVerdict::Goal => put(out, "weights goal\n", &[]),
        WeightsVerdict::Action(act) => put(out, "weights action #\n", &[u64::from(*act)]),
    }
}

/// Writes by what a goal is excluded.
fn put_exclusion(out: &mut Out, by: &Exclusion) {
    match by {
        Exclusion::Open => put(out, "goal open\n", &[]),
        Exclusion::Hopeless => put(out, "goal hopeless\n", &[]),
        Exclusion::One(lit) => put(out, "goal without #\n", &[u64::from(*lit)]),
        Exclusion::Two(lit, other) => put(
            out,
            "goal without # and #\n",
            &[u64::from(*lit), u64::from(*other)],
        ),
    }
}

/// Checks a certificate.
fn put_checked(out: &mut Out, task: &Task, known: &Pairs, text: &str) -> Result<(), Memory>
    requires facts { known.now.facts ≡ task.now.facts }
    requires known { IsKnownClauses known.now }
{
    let alloc = out.alloc;
    if text.len() > 1000 {
        return Ok(());
    }
    match read(alloc, task.facts(), text.as_bytes())? {
        Reading::Forward(clauses) => put_forward(
            out,
            &check_forward(alloc, task, known, &clauses)?,
        ),
        Reading::Backward(clauses) => put_backward(
            out,
            &check_backward(alloc, task, known, &clauses)?,
        ),
        Reading::Weights(weights) => put_weights(
            out,
            &check_weights(alloc, task, known, &weights)?,
        ),
        Reading::Faulty { at, fault: _ } => put(out, "fault at #\n", &[at]),
    }
    Ok(())
}

/// Checks the certificates with nothing known of the task, and finds by what its goal is excluded.
fn put_task<R: Threads + Sync>(rt: &R, out: &mut Out, task: &Task) -> Result<(), Memory> {
    let none = Pairs::empty(out.alloc, task.facts())?;
    for text in TEXTS {
        put_checked(out, task, &none, text)?;
    }
    let known = find(rt, out.alloc, task)?;
    put_exclusion(out, &excluded_goal(out.alloc, task, &known)?);
    Ok(())
}

/// The task with this second action.
fn task_of(out: &Out, second: Act) -> Result<Option<Task>, AllocError> {
    let mut acts = Vec::new(out.alloc);
    acts.push(plain(out.alloc, &[0], &[1, 2])?)?;
    acts.push(second)?;
    let init = Bits::copied_from(out.alloc, &[true, false])?;
    let goal = Lits::copied_from(out.alloc, &[0, 2])?;
    Ok(Task::try_new(2, init, goal, false, Acts::of(acts)))
}

/// An action that makes p true where q is false.
fn returning(out: &Out) -> Result<Act, AllocError> {
    let mut effects = Vec::new(out.alloc);
    effects.push(when(out.alloc, &[3], 0)?)?;
    action(out.alloc, &[], effects)
}

/// Writes what there is to say of the task with this second action.
fn put_second<R: Threads + Sync>(rt: &R, out: &mut Out, second: Result<Act, AllocError>) {
    let Ok(second) = second else {
        return out.fail();
    };
    let Ok(Some(task)) = task_of(out, second) else {
        return out.fail();
    };
    if put_task(rt, out, &task).is_err() {
        out.fail();
    }
}

/// The tasks whose second action makes p true where q is false, moves q to p, makes p true, and makes nothing true.
pub(crate) fn put_tasks<R: Threads + Sync>(rt: &R, out: &mut Out) {
    let alloc = out.alloc;
    put_second(rt, out, returning(out));
    put_second(rt, out, plain(alloc, &[2], &[0, 3]));
    put_second(rt, out, plain(alloc, &[], &[0]));
    put_second(rt, out, plain(alloc, &[0, 2], &[1]));
}
