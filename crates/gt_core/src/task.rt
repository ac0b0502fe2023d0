//! Grounded tasks of the size that the encoding takes, and what their actions do.
ghost use Rattle.std.specs.Prelude.{◌≡◌, ◌*◌, ◌<◌, ◌≤◌, length, true, if◌then◌else◌, None, Some};
ghost use Rattle.gt_core.specs.Literal.{holds, all_hold, state_of};
ghost use Rattle.gt_core.specs.Limits.{most_conditional};

use crate::act::{Act, Acts};
use crate::lawful::is_within;
use crate::limits::Limits;
use crate::lits::{Bits, Lits};
use crate::wide::WideTask;
use std::marker::Model;

/// A grounded task: numbered facts, the truth value of each in the initial state, the literals of the goal, and
/// numbered actions. The goal is hopeless where it has a literal that is never true. There are at most 2,048 facts,
/// 16,384 actions and 65,536 effects with a condition; literals are of these facts, sorted and without repeats, and
/// the effects of an action are sorted by literal and then by condition.
#[derive(Drop)]
pub struct Task {
    wide: WideTask,
}

impl Model for Task {
    ghost use Rattle.std.specs.Prelude.{◌≡◌, true};
    ghost use Rattle.gt_core.specs.Task.{Task};
    ghost use Rattle.gt_core.specs.Lawful.{is_task};

    ghost Value = { Task };

    ghost view = { λ t. t.wide };

    ghost invariant = { λ t. is_task t.wide ≡ true };
}

impl Task {
    ghost use Rattle.gt_core.specs.Task.{Task as TaskValue, action, precondition};
    ghost use Rattle.gt_core.specs.Lawful.{is_task, conditional_in};
    ghost use Rattle.gt_core.specs.Execution.{next_values};

    /// The task of these parts, which are those of a task.
    pub fn new(facts: u32, init: Bits, goal: Lits, hopeless: bool, acts: Acts) -> Task
        requires { is_task (record { facts = facts; initial = init; goal = goal; hopeless = hopeless; actions = acts }) ≡ true }
        ensures { result ≡ record { facts = facts; initial = init; goal = goal; hopeless = hopeless; actions = acts } }
    {
        Task::of(WideTask::new(facts, init, goal, hopeless, acts))
    }

    /// The task of these parts, or none where they are not those of a task.
    pub fn try_new(facts: u32, init: Bits, goal: Lits, hopeless: bool, acts: Acts) -> Option<Task>
        ensures { let task : TaskValue = record { facts = facts; initial = init; goal = goal; hopeless = hopeless; actions = acts } in
            result ≡ (if is_task task then Some task else None) }
    {
        let limits = Limits::race();
        if !is_within(
            &limits,
            facts,
            init.as_slice(),
            goal.as_slice(),
            hopeless,
            acts.as_slice(),
        ) {
            return None;
        }
        Some(Task::new(facts, init, goal, hopeless, acts))
    }

    /// The task, which is small enough to be encoded.
    pub(crate) fn of(wide: WideTask) -> Task
        requires { is_task wide ≡ true }
        ensures { result ≡ wide }
    {
        Task { wide }
    }

    /// The task, as what searches its states takes it.
    pub fn wide(&self) -> &WideTask
        ensures { result.now ≡ self.now }
    {
        &self.wide
    }

    /// How many facts there are.
    pub fn facts(&self) -> u32
        ensures facts { result ≡ self.now.facts }
        ensures lawful { is_task self.now ≡ true }
    {
        self.wide.facts()
    }

    /// The truth values of the facts in the initial state.
    pub fn init(&self) -> &[bool]
        ensures { result.now ≡ self.now.initial }
    {
        self.wide.init()
    }

    /// The literals of the goal.
    pub fn goal(&self) -> &[u32]
        ensures { result.now ≡ self.now.goal }
    {
        self.wide.goal()
    }

    /// The goal has a literal that is never true, besides those listed.
    pub fn hopeless(&self) -> bool
        ensures { result ≡ self.now.hopeless }
    {
        self.wide.hopeless()
    }

    /// The actions.
    pub fn acts(&self) -> &[Act]
        ensures acts { result.now ≡ self.now.actions }
        ensures lawful { is_task self.now ≡ true }
    {
        self.wide.acts()
    }

    /// One action.
    pub fn act(&self, act: u32) -> &Act
        requires { act < length self.now.actions }
        ensures act { result.now ≡ action self.now act }
        ensures lawful { is_task self.now ≡ true }
    {
        self.wide.act(act)
    }

    /// How many effects of the actions have a condition.
    pub fn conditional(&self) -> u32
        ensures conditional { result ≡ conditional_in self.now.actions }
        ensures few { result ≤ most_conditional }
    {
        self.wide.conditional()
    }

    /// Whether a literal holds in a state, which has a truth value for each fact.
    pub fn holds(&self, state: &[bool], lit: u32) -> bool
        requires state { length state.now ≡ self.now.facts }
        requires lit { lit < 2 * self.now.facts }
        ensures { result ≡ holds (state_of state.now) lit }
    {
        self.wide.holds(state, lit)
    }

    /// Whether an action can run in a state. If so, `into` becomes the state after it; else it stays as it is.
    /// Effects read the state before, and an add wins over a delete (PDDL 2.1, level 1).
    pub fn next(&self, state: &[bool], act: u32, into: &mut [bool]) -> bool
        requires state { length state.now ≡ self.now.facts }
        requires act { act < length self.now.actions }
        requires into { length into.old ≡ self.now.facts }
        ensures runs { result ≡ all_hold (state_of state.now) (precondition self.now act) }
        ensures next { into.new ≡ (if result then next_values self.now (state_of state.now) act else into.old) }
    {
        self.wide.next(state, act, into)
    }
}
