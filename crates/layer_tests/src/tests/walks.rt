// Walks through the states of small tasks.
ghost use Rattle.std.specs.Prelude.{◌<◌};

use super::holding::holds;
use super::tasks::{Sketch, task_of};
use greedy_walk::greedy::greedy;
use gt_core::task::Task;
use state_search::answer::{Answer, End};
use state_search::least::least;
use std::alloc::Global;
use std::process::Abort;
use test_kit::dice::Dice;
use test_kit::drawn;

/// No number of steps.
const NONE: u32 = 1000;

/// How many actions the plan has; `NONE` where there is none of any length, and one more where the walk is unfinished.
fn long(answer: &Answer) -> u32 {
    match &answer.end {
        End::Plan(actions) => actions.as_slice().len().min(999) as u32,
        End::NoPlan => NONE,
        End::Unfinished => NONE + 1,
    }
}

/// Both walks end as they should, with so many states entered by the one that goes breadth first.
fn end_so(rt: &impl Abort, alloc: Global, task: &Task, most: u32, wanted: u32, states: u32)
    requires { 0 < most }
{
    let first = least(alloc, task, most).ok().expect(rt, "memory");
    holds(rt, long(&first) == wanted, "the end, breadth first");
    holds(rt, first.states == states, "the states, breadth first");
    let second = greedy(alloc, task, most).ok().expect(rt, "memory");
    holds(rt, long(&second) == wanted, "the end of the greedy walk");
}

#[test]
fn goal_holds_at_once(rt: HostRuntime) {
    let task = task_of(&rt, rt.alloc(), 1, &[true], &[(&[], &[(&[], 1)])]);
    end_so(&rt, rt.alloc(), &task, 5, 0, 1);
}

/// Three actions in a row, and one that leads elsewhere.
const ROW: [Sketch; 4] = [
    (&[], &[(&[], 6)]),
    (&[], &[(&[], 2)]),
    (&[2], &[(&[], 4)]),
    (&[4], &[(&[], 0)]),
];

/// None of the two facts of the row, one, or both, each with or without the fact that leads elsewhere: six states, and a goal.
#[test]
fn three_actions_in_a_row(rt: HostRuntime) {
    let init = [false, false, false, false];
    let task = task_of(&rt, rt.alloc(), 4, &init, &ROW);
    end_so(&rt, rt.alloc(), &task, 100, 3, 7);
    end_so(&rt, rt.alloc(), &task, 1, NONE + 1, 1);
}

/// Three facts that can be made true and false, and a goal that no action makes: eight states.
const TOGGLES: [Sketch; 6] = [
    (&[3], &[(&[], 2)]),
    (&[2], &[(&[], 3)]),
    (&[5], &[(&[], 4)]),
    (&[4], &[(&[], 5)]),
    (&[7], &[(&[], 6)]),
    (&[6], &[(&[], 7)]),
];

#[test]
fn eight_states_and_no_plan(rt: HostRuntime) {
    let init = [false, false, false, false];
    let task = task_of(&rt, rt.alloc(), 4, &init, &TOGGLES);
    end_so(&rt, rt.alloc(), &task, 8, NONE, 8);
    end_so(&rt, rt.alloc(), &task, 7, NONE + 1, 7);
}

/// The action makes the fact true and false at once: it becomes true.
#[test]
fn add_wins_over_delete(rt: HostRuntime) {
    let task = task_of(
        &rt,
        rt.alloc(),
        1,
        &[false],
        &[(&[], &[(&[], 0), (&[], 1)])],
    );
    end_so(&rt, rt.alloc(), &task, 5, 1, 2);
}

/// Of each of the sixteen states of four facts in how many steps it is reached.
type Steps = [u32; 16];

/// The number of a state, its facts as bits.
fn number_of(state: &[bool]) -> usize {
    let mut number = 0usize;
    let mut bit = 1usize;
    for value in state {
        if *value {
            number = number.saturating_add(bit);
        }
        bit = bit.saturating_add(bit);
    }
    number
}

/// The states that one leads to are reached in a step more.
fn spread(task: &Task, state: &[bool], after: &mut [bool], step: u32, steps: &mut Steps) {
    if state.len() != task.facts() as usize || after.len() != task.facts() as usize {
        return;
    }
    for act in 0..task.acts().len() {
        if task.next(state, act.min(4_294_967_295) as u32, after)
            && let Some(old) = steps.get_mut(number_of(after))
            && *old > step
        {
            *old = step;
        }
    }
}

/// The truth values of a state.
fn values_of(alloc: Global, facts: usize, number: usize) -> Option<Vec<bool>> {
    let mut values = Vec::new(alloc);
    let mut rest = number;
    for _fact in 0..facts {
        values.push(rest % 2 == 1).ok()?;
        rest = rest / 2;
    }
    Some(values)
}

/// All states in how many steps they are reached, by sixteen rounds over all of them.
fn steps_of(alloc: Global, task: &Task) -> Option<Steps> {
    let mut steps = [NONE; 16];
    let facts = task.facts() as usize;
    let mut after = values_of(alloc, facts, 0)?;
    if let Some(first) = steps.get_mut(number_of(task.init())) {
        *first = 0;
    }
    for round in 0..256usize {
        let number = round % 16;
        let step = *steps.get(number)?;
        if step < NONE {
            let state = values_of(alloc, facts, number)?;
            spread(task, &state, &mut after, step + 1, &mut steps);
        }
    }
    Some(steps)
}

/// The least number of steps to a goal.
fn least_steps(alloc: Global, task: &Task) -> Option<u32> {
    let steps = steps_of(alloc, task)?;
    let mut best = NONE;
    for number in 0..16usize {
        let state = values_of(alloc, task.facts() as usize, number)?;
        let mut is_goal = !task.hopeless();
        for lit in task.goal() {
            if state.get((*lit / 2) as usize).copied() != Some(*lit % 2 == 0) {
                is_goal = false;
            }
        }
        if is_goal {
            best = best.min(*steps.get(number)?);
        }
    }
    Some(best)
}

/// A drawn task ends as all its states tell.
fn ends_as_drawn(rt: &impl Abort, alloc: Global, seed: u32) {
    let Some(Some(task)) = drawn::task(alloc, &mut Dice::new(seed)).ok() else {
        return;
    };
    let wanted = least_steps(alloc, &task).expect(rt, "memory");
    let first = least(alloc, &task, 16).ok().expect(rt, "memory");
    holds(rt, long(&first) == wanted, "the least number of actions");
    let second = greedy(alloc, &task, 16).ok().expect(rt, "memory");
    holds(
        rt,
        (long(&second) == NONE) == (wanted == NONE),
        "whether there is a plan",
    );
    holds(
        rt,
        long(&second) >= wanted && long(&second) <= NONE,
        "the length of the plan",
    );
}

#[test]
fn drawn_tasks_end_as_their_states_tell(rt: HostRuntime) {
    for seed in 1..400u32 {
        ends_as_drawn(&rt, rt.alloc(), seed);
    }
}
