//! Grounded tasks of the size that a search of states takes, and what their actions do.

ghost use Rattle.std.specs.Prelude.{◌≡◌, ℕ, ◌+◌, ◌*◌, ◌/◌, ◌<◌, ◌≤◌, length, map, not, true, false, ◌&&◌, ◌||◌, if◌then◌else◌, None, Some};
ghost use Rattle.std.specs.List.{AllByRecursion, list_any};
ghost use Rattle.gt_core.specs.Literal.{holds, all_hold, state_of};
ghost use Rattle.gt_core.specs.Active.{is_active, EffectWithin};
ghost use Rattle.gt_core.specs.Limits.{most_wide_conditional};

use crate::act::{Act, Acts};
use crate::eff::Eff;
use crate::lawful::{conditional_in, is_within};
use crate::limits::Limits;
use crate::lits::{Bits, Lits};
use crate::task::Task;
use containers::let_go;
use std::marker::Model;

/// A grounded task: numbered facts, the truth value of each in the initial state, the literals of the goal, and
/// numbered actions. The goal is hopeless where it has a literal that is never true. There are at most 65,536 facts,
/// 1,048,576 actions and 4,194,304 effects with a condition; literals are of these facts, sorted and without repeats, and
/// the effects of an action are sorted by literal and then by condition.
pub struct WideTask {
    facts: u32,
    init: Bits,
    goal: Lits,
    hopeless: bool,
    acts: Acts,
}

impl Model for WideTask {
    ghost use Rattle.std.specs.Prelude.{◌≡◌, true};
    ghost use Rattle.gt_core.specs.Task.{Task};
    ghost use Rattle.gt_core.specs.Lawful.{is_wide};

    ghost Value = { Task };

    ghost view = { λ t. record { facts = t.facts; initial = t.init; goal = t.goal; hopeless = t.hopeless; actions = t.acts } };

    ghost invariant = { λ t. is_wide (record { facts = t.facts; initial = t.init; goal = t.goal; hopeless = t.hopeless; actions = t.acts }) ≡ true };
}

/// All parts are let go in one call, so that a proof has one step for it and not one for each part.
impl Drop for WideTask {
    fn drop(self) {
        let_go!(self: WideTask { facts, init, goal, hopeless, acts });
    }
}

impl WideTask {
    ghost use Rattle.gt_core.specs.Task.{Task as TaskValue, action, precondition};
    ghost use Rattle.gt_core.specs.Lawful.{is_task, is_wide, conditional_in};
    ghost use Rattle.gt_core.specs.Execution.{next_values};

    /// The task of these parts, which are those of a task.
    pub fn new(facts: u32, init: Bits, goal: Lits, hopeless: bool, acts: Acts) -> WideTask
        requires { is_wide (record { facts = facts; initial = init; goal = goal; hopeless = hopeless; actions = acts }) ≡ true }
        ensures { result ≡ record { facts = facts; initial = init; goal = goal; hopeless = hopeless; actions = acts } }
    {
        WideTask {
            facts,
            init,
            goal,
            hopeless,
            acts,
        }
    }

    /// The task of these parts, or none where they are not those of a task.
    pub fn try_new(
        facts: u32,
        init: Bits,
        goal: Lits,
        hopeless: bool,
        acts: Acts,
    ) -> Option<WideTask>
        ensures { let task : TaskValue = record { facts = facts; initial = init; goal = goal; hopeless = hopeless; actions = acts } in
            result ≡ (if is_wide task then Some task else None) }
    {
        let limits = Limits::wide();
        if !is_within(
            &limits,
            facts,
            init.as_slice(),
            goal.as_slice(),
            hopeless,
            acts.as_slice(),
        ) {
            return None;
        }
        Some(WideTask::new(facts, init, goal, hopeless, acts))
    }

    /// The same task, where it is as small as what is encoded.
    pub fn narrow(self) -> Task
        requires { is_task self ≡ true }
        ensures { result ≡ self }
    {
        Task::of(self)
    }

    /// How many facts there are.
    pub fn facts(&self) -> u32
        ensures facts { result ≡ self.now.facts }
        ensures lawful { is_wide self.now ≡ true }
    {
        self.facts
    }

    /// The truth values of the facts in the initial state.
    pub fn init(&self) -> &[bool]
        ensures { result.now ≡ self.now.initial }
    {
        self.init.as_slice()
    }

    /// The literals of the goal.
    pub fn goal(&self) -> &[u32]
        ensures { result.now ≡ self.now.goal }
    {
        self.goal.as_slice()
    }

    /// The goal has a literal that is never true, besides those listed.
    pub fn hopeless(&self) -> bool
        ensures { result ≡ self.now.hopeless }
    {
        self.hopeless
    }

    /// The actions.
    pub fn acts(&self) -> &[Act]
        ensures acts { result.now ≡ self.now.actions }
        ensures lawful { is_wide self.now ≡ true }
    {
        self.acts.as_slice()
    }

    /// One action.
    pub fn act(&self, act: u32) -> &Act
        requires { act < length self.now.actions }
        ensures act { result.now ≡ action self.now act }
        ensures lawful { is_wide self.now ≡ true }
    {
        &self.acts()[act as usize]
    }

    /// How many effects of the actions have a condition.
    pub fn conditional(&self) -> u32
        ensures conditional { result ≡ conditional_in self.now.actions }
        ensures few { result ≤ most_wide_conditional }
    {
        conditional_in(self.acts())
    }

    /// Whether a literal holds in a state, which has a truth value for each fact.
    pub fn holds(&self, state: &[bool], lit: u32) -> bool
        requires state { length state.now ≡ self.now.facts }
        requires lit { lit < 2 * self.now.facts }
        ensures { result ≡ holds (state_of state.now) lit }
    {
        literal_holds(state, lit)
    }

    /// Whether an action can run in a state. If so, `into` becomes the state after it; else it stays as it is.
    /// Effects read the state before, and an add wins over a delete (PDDL 2.1, level 1).
    pub fn next(&self, state: &[bool], act: u32, into: &mut [bool]) -> bool
        requires state { length state.now ≡ self.now.facts }
        requires act { act < length self.now.actions }
        requires into { length into.old ≡ self.now.facts }
        ensures runs { result ≡ all_hold (state_of state.now) (precondition self.now act) }
        ensures next { into.new ≡ (if result then next_values self.now (state_of state.now) act else into.old) }
    {
        let does = self.act(act);
        if !all_hold(state, does.pre()) {
            return false;
        }
        into.copy_from_slice(state);
        take_deletes(state, does.effects(), into);
        take_adds(state, does.effects(), into);
        true
    }
}

fn literal_holds(state: &[bool], lit: u32) -> bool
    requires { lit / 2 < length state.now }
    ensures { result ≡ holds (state_of state.now) lit }
{
    let value = state[(lit / 2) as usize];
    if lit % 2 == 0 { value } else { !value }
}

fn all_hold(state: &[bool], lits: &[u32]) -> bool
    requires { AllByRecursion (λ l. l / 2 < length state.now) lits.now }
    ensures { result ≡ all_hold (state_of state.now) lits.now }
{
    for lit in lits {
        if !literal_holds(state, *lit) {
            return false;
        }
    }
    true
}

/// Takes an active delete's fact from the state after.
fn take_delete(state: &[bool], effect: &Eff, into: &mut [bool])
    requires within { effect.now.literal / 2 < length into.old }
    requires condition { AllByRecursion (λ l. l / 2 < length state.now) effect.now.condition }
    ensures { (f : ℕ) → state_of into.new f ≡ (state_of into.old f && not (is_active (state_of state.now) (2 * f + 1) effect.now)) }
{
    if effect.lit() % 2 == 1 && all_hold(state, effect.cond()) {
        into[(effect.lit() / 2) as usize] = false;
    }
}

/// Puts an active add's fact into the state after.
fn take_add(state: &[bool], effect: &Eff, into: &mut [bool])
    requires within { effect.now.literal / 2 < length into.old }
    requires condition { AllByRecursion (λ l. l / 2 < length state.now) effect.now.condition }
    ensures { (f : ℕ) → f < length into.old → state_of into.new f ≡ (is_active (state_of state.now) (2 * f) effect.now || state_of into.old f) }
{
    if effect.lit() % 2 == 0 && all_hold(state, effect.cond()) {
        into[(effect.lit() / 2) as usize] = true;
    }
}

fn take_deletes(state: &[bool], effects: &[Eff], into: &mut [bool])
    requires same { length into.old ≡ length state.now }
    requires within { AllByRecursion (EffectWithin (length state.now)) effects.now }
    ensures { (f : ℕ) → state_of into.new f ≡ (state_of into.old f && not (list_any (is_active (state_of state.now) (2 * f + 1)) effects.now)) }
{
    for effect in effects {
        take_delete(state, effect, into);
    }
}

fn take_adds(state: &[bool], effects: &[Eff], into: &mut [bool])
    requires same { length into.old ≡ length state.now }
    requires within { AllByRecursion (EffectWithin (length state.now)) effects.now }
    ensures { (f : ℕ) → f < length into.old → state_of into.new f ≡ (list_any (is_active (state_of state.now) (2 * f)) effects.now || state_of into.old f) }
{
    for effect in effects {
        take_add(state, effect, into);
    }
}
