//! Lamps, as ground tasks with nothing known of them, and the runs of horizons of one.
ghost use Rattle.std.specs.Prelude.{◌≡◌, []};
ghost use Rattle.gt_core.specs.Published.{IsPublished};

use action_order::order::Order;
use action_order::publish::publish;
use gt_core::act::{Act, Acts};
use gt_core::eff::{Eff, Effs};
use gt_core::lits::{Bits, Lits};
use gt_core::pairs::Pairs;
use gt_core::task::Task;
use horizon_run::{AheadRun, HorizonRun, Started};
use std::alloc::Global;
use std::process::Abort;
use step_encoding::exists::ExistsForm;
use step_encoding::form::StepForm;
use step_encoding::limits::PLANNER_LITERALS;

/// A lamp, with an action that turns it on, and the goal that it is on.
fn lamp(rt: &impl Abort, alloc: Global, on: bool) -> Task {
    let mut effects = Effs::new(alloc);
    effects.push(Eff::sure(0)).expect(rt, "memory");
    let pre = Lits::copied_from(alloc, &[1]).expect(rt, "memory");
    let mut acts = Acts::new(alloc);
    acts.push(Act::new(pre, effects)).expect(rt, "memory");
    let init = Bits::copied_from(alloc, &[on]).expect(rt, "memory");
    let goal = Lits::copied_from(alloc, &[0]).expect(rt, "memory");
    Task::try_new(1, init, goal, false, acts).expect(rt, "a task")
}

/// A task with nothing known of it, and its order.
#[derive(Drop)]
pub(crate) struct Ground {
    pub(crate) task: Task,
    pub(crate) pairs: Pairs,
    pub(crate) order: Order,
    ghost facts: { pairs.facts ≡ task.facts },
    ghost none: { pairs.clauses ≡ [] },
}

/// The ground task of a lamp.
pub(crate) fn grounded(rt: &impl Abort, alloc: Global, on: bool) -> Ground
    ensures { IsPublished result.task result.pairs.clauses result.order }
{
    let task = lamp(rt, alloc, on);
    let pairs = Pairs::empty(alloc, task.facts()).ok().expect(rt, "memory");
    let order = publish(alloc, &task, &pairs).ok().expect(rt, "memory");
    Ground { task, pairs, order }
}

/// Its form.
pub(crate) fn form_of<'a>(rt: &impl Abort, alloc: Global, ground: &'a Ground) -> ExistsForm<'a>
    requires { IsPublished ground.now.task ground.now.pairs.clauses ground.now.order }
    ensures { result.task ≡ ground.now.task }
{
    ExistsForm::new(alloc, &ground.task, &ground.pairs, &ground.order)
        .ok()
        .expect(rt, "memory")
}

/// The run of a horizon over a form of a small task.
fn run_of<F: StepForm>(rt: &impl Abort, alloc: Global, task: &Task, form: &F, n: u8) -> HorizonRun
    requires { F.task form.now ≡ task.now }
{
    let n = u32::from(n);
    assert!(rt; form.size(n) <= PLANNER_LITERALS);
    HorizonRun::new(alloc, task, form, n)
        .ok()
        .expect(rt, "memory")
}

/// The run of a horizon of the lamp that is off. Its solver may be so many conflicts ahead.
pub(crate) fn lamp_run(rt: &impl Abort, alloc: Global, n: u8, most: u32) -> Started {
    let off = grounded(rt, alloc, false);
    let form = form_of(rt, alloc, &off);
    let run = run_of(rt, alloc, &off.task, &form, n);
    Started::of(alloc, AheadRun::of(alloc, run).allowed(most))
}
