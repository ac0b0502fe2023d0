// What is known of a task's states.
use super::holding::holds;
use super::tasks::{Sketch, task_of};
use gt_core::pairs::Pairs;
use std::alloc::Global;
use std::process::Abort;
use std::thread::Threads;
use two_invariants::find;
use two_invariants::laws::laws;

/// A clause that is added both ways is there once.
fn is_once(rt: &impl Abort, pairs: &mut Pairs) {
    assert!(rt; pairs.facts() == 3);
    pairs.add(4, 0).ok().expect(rt, "memory");
    assert!(rt; pairs.facts() == 3);
    pairs.add(0, 4).ok().expect(rt, "memory");
    assert!(rt; pairs.count() == 1);
    holds(rt, matches!(pairs.at(0), (0, 4)), "the clause");
}

#[test]
fn clause_stays_once(rt: HostRuntime) {
    let mut pairs = Pairs::empty(rt.alloc(), 3).ok().expect(&rt, "memory");
    holds(&rt, pairs.count() == 0, "no clause yet");
    is_once(&rt, &mut pairs);
}

/// What is known of a task, by the first values of its facts and its actions.
fn known_of<H: Threads + Sync + Abort>(
    rt: &H,
    alloc: Global,
    facts: u32,
    init: &[bool],
    sketches: &[Sketch],
) -> Pairs {
    let task = task_of(rt, alloc, facts, init, sketches);
    find(rt, alloc, &task).ok().expect(rt, "memory")
}

/// Two clauses are known, and these.
fn are_two(rt: &impl Abort, pairs: &Pairs) {
    assert!(rt; pairs.count() == 2);
    holds(rt, matches!(pairs.at(0), (0, 4)), "the first clause");
    holds(rt, matches!(pairs.at(1), (1, 5)), "the second clause");
}

/// `burn` adds r and deletes p, `use` needs p and adds q.
const BURN_AND_USE: [Sketch; 2] = [(&[], &[(&[], 1), (&[], 4)]), (&[0], &[(&[], 2)])];

/// p is true, q and r are false. So p or r holds, and not both.
#[test]
fn burnt_or_there(rt: HostRuntime) {
    laws();
    let init = [true, false, false];
    are_two(&rt, &known_of(&rt, rt.alloc(), 3, &init, &BURN_AND_USE));
}

/// The third fact becomes true where it is false, and false at any time; where the first is false, it becomes true and the
/// second false if the second is true, and it becomes false if the fourth is false. What is known from no literal, and a
/// condition that rules an effect out, tell the nine.
const NINE: [Sketch; 3] = [
    (&[], &[(&[5], 4)]),
    (&[1], &[(&[2], 0), (&[7], 1), (&[2], 3)]),
    (&[], &[(&[], 5)]),
];

/// An effect that would be told by two hops never comes, and the third action adds the second fact in any case.
const THIRTEEN: [Sketch; 3] = [
    (&[], &[(&[4], 0), (&[], 3)]),
    (&[2], &[(&[3], 4), (&[], 6)]),
    (&[5, 6], &[(&[], 1), (&[3], 1), (&[], 2)]),
];

/// So many pairs are known of four facts, of which the second alone is true at first, under these actions.
fn are_known<H: Threads + Sync + Abort>(rt: &H, alloc: Global, sketches: &[Sketch], wanted: u32) {
    let pairs = known_of(rt, alloc, 4, &[false, true, false, false], sketches);
    holds(rt, pairs.count() == wanted, "how many are known");
}

#[test]
fn nine_with_conditions_and_thirteen_by_two_hops(rt: HostRuntime) {
    are_known(&rt, rt.alloc(), &NINE, 9);
    are_known(&rt, rt.alloc(), &THIRTEEN, 13);
}
