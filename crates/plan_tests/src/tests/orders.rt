// The published order of tasks written by hand.
ghost use Rattle.std.specs.Prelude.{◌<◌, ◌≤◌, length};
ghost use Rattle.gt_core.specs.Published.{order_of};
ghost use Rattle.gt_core.specs.Limits.{most_facts};

use super::runs::holds;
use action_order::numbers::ActNumbers;
use action_order::order::Order;
use action_order::publish::publish;
use gt_core::act::{Act, Acts};
use gt_core::eff::{Eff, Effs};
use gt_core::lits::{Bits, Lits};
use gt_core::pairs::Pairs;
use gt_core::task::Task;
use plan_report::linearise;
use std::alloc::Global;
use std::process::Abort;
use step_encoding::steps::Steps;

/// An action: the literals that it needs, those under which its effects come, and those that come true.
type Sketch = (&'static [u32], &'static [u32], &'static [u32]);

/// The action of a sketch.
fn act(rt: &impl Abort, alloc: Global, sketch: &Sketch) -> Act {
    let (pre, when, lits) = *sketch;
    let mut effects = Effs::new(alloc);
    for lit in lits {
        let when = Lits::copied_from(alloc, when).expect(rt, "memory");
        let effect = Eff::new(alloc, when, *lit).expect(rt, "memory");
        effects.push(effect).expect(rt, "memory");
    }
    Act::new(Lits::copied_from(alloc, pre).expect(rt, "memory"), effects)
}

/// A task without a goal, whose facts have these values at first.
fn task(rt: &impl Abort, alloc: Global, init: &[bool], sketches: &[Sketch]) -> Task {
    assert!(rt; init.len() <= 4);
    let mut acts = Acts::new(alloc);
    for sketch in sketches {
        acts.push(act(rt, alloc, sketch)).expect(rt, "memory");
    }
    let facts = init.len() as u32;
    let init = Bits::copied_from(alloc, init).expect(rt, "memory");
    Task::try_new(facts, init, Lits::new(alloc), false, acts).expect(rt, "a task")
}

/// Adds a clause of two literals of different facts.
fn add(rt: &impl Abort, pairs: &mut Pairs, l: u32, m: u32) {
    let facts = pairs.facts();
    assert!(rt; l / 2 < facts && m / 2 < facts && l / 2 != m / 2);
    pairs.add(l, m).ok().expect(rt, "memory");
}

/// Clauses of two literals over so many facts.
fn pairs_of(rt: &impl Abort, alloc: Global, facts: u32, clauses: &[(u32, u32)]) -> Pairs
    requires { facts ≤ most_facts }
{
    let mut pairs = Pairs::empty(alloc, facts).ok().expect(rt, "memory");
    for (l, m) in clauses {
        add(rt, &mut pairs, *l, *m);
    }
    holds(rt, pairs.count() as usize == clauses.len(), "clauses");
    pairs
}

/// The order of a task under clauses.
fn order_under(rt: &impl Abort, alloc: Global, task: &Task, clauses: &[(u32, u32)]) -> Order {
    let pairs = pairs_of(rt, alloc, task.facts(), clauses);
    assert!(rt; pairs.facts() == task.facts());
    publish(alloc, task, &pairs).ok().expect(rt, "memory")
}

/// At a place stands an action of a component.
fn is_placed(rt: &impl Abort, order: &Order, place: u32, wanted: (u32, u32))
    requires { place < length (order_of order.now) }
{
    let (component, action) = wanted;
    let a = order.at(place);
    let is = order.place(a) == place && order.component(a) == component && a == action;
    holds(rt, is, "a place of an order");
}

/// The values of facts at first, and two actions; clauses; and what the command `order` tells of the order of the task under them: so
/// many components, and at each place this component and this action.
type Row = (
    &'static [bool],
    &'static [Sketch],
    &'static [(u32, u32)],
    u32,
    [(u32, u32); 2],
);

/// The order of a row's task is so.
fn is_told(rt: &impl Abort, alloc: Global, row: &Row) {
    let (init, sketches, clauses, components, wanted) = *row;
    let task = task(rt, alloc, init, sketches);
    let order = order_under(rt, alloc, &task, clauses);
    assert!(rt; order.components() == components && order.actions() == 2);
    let [first, second] = wanted;
    is_placed(rt, &order, 0, first);
    is_placed(rt, &order, 1, second);
}

const THREE: &[bool] = &[true, true, true];

/// Facts p 0, q 1, r 2. Action 0 burns p, action 1 needs it.
const BURN_AND_USE: &[Sketch] = &[(&[], &[], &[1, 4]), (&[0], &[], &[2])];

/// Facts p 0, q 1, r 2, s 3. Each action takes what the other needs.
const EACH_TAKES: &[Sketch] = &[(&[0], &[], &[2, 7]), (&[6], &[], &[1, 4])];

/// Facts p 0, q 1, g 2. Action 0 deletes p; action 1 adds g where p holds.
const DROP_AND_GAIN: &[Sketch] = &[(&[], &[], &[1, 2]), (&[], &[0], &[4])];

// The user comes before the burner, under the invariants too: p or r, not p or not r. Two that take each other's need are one
// component; under the clause that not both needs hold, no edge is left. A condition of an effect is read.
const ROWS: [Row; 5] = [
    (THREE, BURN_AND_USE, &[], 2, [(1, 1), (0, 0)]),
    (THREE, BURN_AND_USE, &[(0, 4), (1, 5)], 2, [(1, 1), (0, 0)]),
    (
        &[true, true, true, true],
        EACH_TAKES,
        &[],
        1,
        [(0, 0), (0, 1)],
    ),
    (
        &[true, true, true, true],
        EACH_TAKES,
        &[(1, 7)],
        2,
        [(0, 0), (1, 1)],
    ),
    (THREE, DROP_AND_GAIN, &[], 2, [(1, 1), (0, 0)]),
];

#[test]
fn needs_come_before_what_takes_them(rt: HostRuntime) {
    for row in &ROWS {
        is_told(&rt, rt.alloc(), row);
    }
}

/// Steps, each by its actions.
fn steps_of(rt: &impl Abort, alloc: Global, sets: &[&[u32]]) -> Steps {
    let mut steps = Steps::new(alloc);
    for set in sets {
        let set = ActNumbers::copied_from(alloc, set).expect(rt, "memory");
        steps.push(set).expect(rt, "memory");
    }
    steps
}

/// The members of steps in published order.
fn listed(rt: &impl Abort, alloc: Global, order: &Order, steps: &Steps) -> ActNumbers {
    linearise(alloc, order, steps).ok().expect(rt, "memory")
}

// The members of each step are listed in published order.
#[test]
fn members_in_published_order(rt: HostRuntime) {
    let alloc = rt.alloc();
    let task = task(&rt, alloc, THREE, BURN_AND_USE);
    let order = order_under(&rt, alloc, &task, &[]);
    let steps = steps_of(&rt, alloc, &[&[0, 1], &[], &[0]]);
    let actions = listed(&rt, alloc, &order, &steps);
    holds(&rt, matches!(actions.as_slice(), [1, 0, 0]), "three steps");
}
