//! Two worked tasks: a lamp, and two rivals.

use crate::actions::plain;
use gt_core::act::{Act, Acts};
use gt_core::lits::{Bits, Lits};
use gt_core::task::Task;
use std::alloc::{AllocError, Global};

/// Actions, each by the literals that it needs and those that it makes true.
fn acts_of(alloc: Global, told: &[(&[u32], &[u32])]) -> Result<Vec<Act>, AllocError> {
    let mut acts = Vec::new(alloc);
    for (needed, made) in told {
        acts.push(plain(alloc, needed, made)?)?;
    }
    Ok(acts)
}

/// The task of these actions over so many facts.
fn task_of(
    alloc: Global,
    facts: u32,
    init: &[bool],
    goal: &[u32],
    told: &[(&[u32], &[u32])],
) -> Result<Option<Task>, AllocError> {
    let init = Vec::from_slice(alloc, init)?;
    let goal = Vec::from_slice(alloc, goal)?;
    let acts = acts_of(alloc, told)?;
    Ok(Task::try_new(facts, Bits::of(init), Lits::of(goal), false, Acts::of(acts)))
}

/// A lamp that is off and is to be on: flip turns it on where it is off.
pub fn lamp(alloc: Global) -> Result<Option<Task>, AllocError> {
    task_of(alloc, 1, &[false], &[0], &[(&[1], &[0])])
}

/// Two actions, each of which takes what the other needs. Facts p 0, q 1, r 2, s 3.
pub fn rivals(alloc: Global) -> Result<Option<Task>, AllocError> {
    task_of(
        alloc,
        4,
        &[true, false, false, true],
        &[2, 4],
        &[(&[0], &[2, 7]), (&[6], &[1, 4])],
    )
}
