// Choices backwards from the goal in the task of a lamp that is flipped once, over two steps: flip in the steps 0 and 1 are the
// variables 0 and 1, and the lamp at the times 0, 1 and 2 the variables 2, 3 and 4.
use super::holding::holds;
use super::tasks::{Sketch, task_of};
use clause_base::chooser::Chooser;
use clause_base::values::Values;
use formula_defs::layout::Layout;
use goal_choice::GoalChooser;
use gt_core::task::Task;
use std::alloc::Global;
use std::process::Abort;

/// Variables, some of which have values.
fn values_of(rt: &impl Abort, alloc: Global, count: u32, given: &[(u32, bool)]) -> Values {
    assert!(rt; count <= 1000);
    let mut values = Values::new(alloc, count).ok().expect(rt, "memory");
    for (v, value) in given {
        assert!(rt; *v < values.variables());
        values.set(*v, Some(*value));
    }
    values
}

/// The code of what is chosen in a task where these variables have values, 99 where nothing is.
fn chosen(rt: &impl Abort, alloc: Global, task: &Task, given: &[(u32, bool)]) -> u32 {
    assert!(rt; task.facts() <= 8 && task.acts().len() <= 8 && task.conditional() <= 8);
    let actions = task.acts().len() as u32;
    let layout = Layout::new(2, actions, task.conditional(), 0, task.facts());
    let count = layout.variables();
    let values = values_of(rt, alloc, count, given);
    assert!(rt; values.variables() == count);
    let Ok(mut chooser) = GoalChooser::new(alloc, task, layout) else {
        rt.panic("memory")
    };
    match chooser.choose(&values) {
        None => 99,
        Some(lit) => lit.0,
    }
}

/// Values of variables, and the code of what is chosen under them.
type Row = (&'static [(u32, bool)], u32);

const ROWS: [Row; 3] = [
    (&[(2, false), (4, true)], 0),
    (&[(2, true)], 1),
    (
        &[(0, true), (1, false), (2, false), (3, true), (4, true)],
        99,
    ),
];

const FLIP: Sketch = (&[1], &[(&[], 0)]);

#[test]
fn supporter_of_the_goal_is_chosen(rt: HostRuntime) {
    let task = task_of(&rt, rt.alloc(), 1, &[false], &[FLIP]);
    for (given, code) in &ROWS {
        let is = chosen(&rt, rt.alloc(), &task, given) == *code;
        holds(&rt, is, "a choice");
    }
}
