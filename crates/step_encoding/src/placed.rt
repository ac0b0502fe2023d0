//! Encodings that differ only in where their chains go.

ghost use Rattle.std.specs.Prelude.{◌≡◌, ◌==◌, ℕ, ◌<◌, ◌≤◌, Bool, List, false, length, IfOk};
ghost use Rattle.std.specs.List.{AllByRecursion};
ghost use Rattle.gt_core.specs.Task.{Task as TaskValue};
ghost use Rattle.gt_core.specs.Published.{Pairwise, order_of};
ghost use Rattle.clause_base.specs.Formula.{assignment_of};
ghost use Rattle.formula_defs.specs.Variables.{layout_of};
ghost use Rattle.formula_defs.specs.Coded.{formula_of};
ghost use Rattle.formula_defs.specs.Shift.{one_step, one_time};
ghost use Rattle.step_chains.specs.Chains.{AreChains};
ghost use Rattle.step_laws.specs.{Form.IsOrderedTask, Form.AreSets, Form.steps_at, Stepping.IsStepping};
ghost use Rattle.step_encoding.specs.{Limits.most_literals, Numbers.literals_of};
ghost use Rattle.step_encoding.specs.Laws.{numbers_of, plans_of, refutes_of, sets_of, members_of};
ghost use Rattle.horizon_rates.specs.Limits.{last_horizon};

use crate::form::{FormError, StepForm};
use crate::joining;
use crate::limits::{MOST_LITERALS, PLANNER_LITERALS};
use crate::steps::Steps;
use crate::truth::true_actions;
use action_order::order::Order;
use clause_base::clause_list::ClauseList;
use clause_base::formula::Formula;
use clause_base::shared_list::SharedList;
use containers::memory::Memory;
use formula_defs::layout::Layout;
use gt_core::pairs::Pairs;
use gt_core::task::Task;
use std::alloc::Global;
use std::marker::{Model, PhantomData};
use step_chains::Chains;
use step_formula::known::one_time;
use step_formula::known_size::known_size;
use step_formula::step_size::step_size;
use step_formula::template::one_step;

/// Where the chains of an encoding go, and which plans its formulas have by them. It is all that tells one encoding from
/// another.
pub trait Placing: Drop {
    /// The places of the chains, for a task and the components of an order of its actions.
    ghost places: { TaskValue → List (List ℕ) → List (List ℕ × ℕ) };

    /// Which sets of actions are a plan, for a task, an order of its actions and a number of steps.
    ghost are_plan: { TaskValue → List ℕ → (ℕ → ℕ → Bool) → ℕ → Type 0 };

    /// The plans are what satisfying assignments of the formulas stand for.
    ghost lawful: { IsStepping places are_plan };

    /// The chains at these places, for an order that has no action twice.
    fn find(alloc: Global, task: &Task, order: &Order) -> Result<Chains, Memory>
        requires members { AllByRecursion (λ ks. AllByRecursion (λ a. a < length task.now.actions) ks) order.now }
        requires distinct { Pairwise (λ a b. (a == b) ≡ false) (order_of order.now) }
        requires apart { AllByRecursion (λ ks. Pairwise (λ a b. (a == b) ≡ false) ks) order.now }
        ensures { IfOk result (λ c. AreChains task.now (places task.now order.now) c) };
}

/// A list in memory that formulas share, with the table of its pairs, where a formula with so many literals may be searched. Where none
/// may, one formula at most is made, as text, and the table would find no use.
fn held(alloc: Global, list: ClauseList, literals: u64) -> Result<SharedList, Memory>
    ensures { IfOk result (λ held. held ≡ list) }
{
    let held = SharedList::own(list);
    if literals > PLANNER_LITERALS {
        return Ok(held);
    }
    held.share(alloc)
}

/// The clauses of one step, where a formula with so many literals is not too large.
fn kept_step(
    alloc: Global,
    task: &Task,
    chains: &Chains,
    literals: u64,
) -> Result<SharedList, Memory>
    requires actions { chains.now.actions ≡ length task.now.actions }
    ensures { IfOk result (λ step. literals ≤ most_literals → (places : List (List ℕ × ℕ)) → AreChains task.now places chains.now → step ≡ one_step task.now places) }
{
    if literals > MOST_LITERALS {
        return Ok(SharedList::own(ClauseList::new(alloc)));
    }
    let step = one_step(alloc, task, chains)?;
    held(alloc, step, literals)
}

/// The clauses of the known pairs at one time, where a formula with so many literals is not too large.
fn kept_time(alloc: Global, pairs: &Pairs, literals: u64) -> Result<SharedList, Memory>
    ensures { IfOk result (λ known. literals ≤ most_literals → known ≡ one_time pairs.now.clauses) }
{
    if literals > MOST_LITERALS {
        return Ok(SharedList::own(ClauseList::new(alloc)));
    }
    let known = one_time(alloc, pairs)?;
    held(alloc, known, literals)
}

/// The encoding whose chains go where `P` says. The chains are found once, and how many literals a step has, and the known
/// pairs at one time, is counted once. The clauses of one step and of one time are made once, where some formula has them and
/// is not too large; all formulas that may be searched have them in the same memory, however many there are and however many
/// steps they have.
#[derive(Drop)]
pub struct Placed<'a, P: Placing> {
    task: &'a Task,
    pairs: &'a Pairs,
    order: &'a Order,
    conditional: u32,
    chains: Chains,
    step_size: u64,
    known_size: u64,
    step: SharedList,
    known: SharedList,
    placing: PhantomData<P>,
}

impl<'a, P: Placing> Model for Placed<'a, P> {
    ghost use Rattle.step_laws.specs.Form.{OrderedTask};
    ghost use Rattle.step_encoding.specs.own.Kept.{AreKept};

    ghost Value = { OrderedTask };

    ghost view = { λ f. record { task = f.task.now; known = f.pairs.now; components = f.order.now } };

    ghost invariant = { λ f. AreKept P.places (record { task = f.task.now; known = f.pairs.now; components = f.order.now }) f.conditional f.chains f.step_size f.known_size f.step f.known };
}

impl<'a, P: Placing> Placed<'a, P> {
    ghost use Rattle.gt_core.specs.Reached.{HoldsWherever};
    ghost use Rattle.gt_core.specs.Published.{IsPublished};

    /// The encoding for a task with an order of its actions: the published one under known pairs, each of which holds
    /// in every state that a sequence of actions reaches.
    pub fn new(
        alloc: Global,
        task: &'a Task,
        pairs: &'a Pairs,
        order: &'a Order,
    ) -> Result<Placed<'a, P>, Memory>
        requires facts { pairs.now.facts ≡ task.now.facts }
        requires hold { HoldsWherever task.now pairs.now.clauses }
        requires published { IsPublished task.now pairs.now.clauses order.now }
        ensures { IfOk result (λ form. form ≡ record { task = task.now; known = pairs.now; components = order.now }) }
    {
        // For the proof: the task is lawful.
        let _facts = task.facts();
        // For the proof: the known clauses are lawful.
        let _count = pairs.count();
        let chains = P::find(alloc, task, order)?;
        let step_size = step_size(task, &chains);
        let known_size = known_size(pairs);
        let ends = u64::from(task.facts()) + task.goal().len() as u64;
        let known = kept_time(alloc, pairs, ends + known_size)?;
        let step = kept_step(alloc, task, &chains, ends + step_size + 2 * known_size)?;
        Ok(Placed {
            task,
            pairs,
            order,
            conditional: task.conditional(),
            chains,
            step_size,
            known_size,
            step,
            known,
            placing: PhantomData,
        })
    }

    /// The formula of a horizon in its layout.
    fn built(&self, alloc: Global, layout: &Layout) -> Result<Formula, Memory>
        requires horizon { layout.now.horizon ≤ last_horizon }
        requires layout { layout.now ≡ layout_of self.now.task (P.places self.now.task self.now.components) layout.now.horizon }
        requires small { literals_of (formula_of self.now.task self.now.known.clauses (P.places self.now.task self.now.components) layout.now.horizon) ≤ most_literals }
        ensures { IfOk result (λ formula. formula ≡ formula_of self.now.task self.now.known.clauses (P.places self.now.task self.now.components) layout.now.horizon) }
    {
        let formula = joining::formula(alloc, self.task, layout, &self.step, &self.known)?;
        Ok(formula)
    }
}

impl<'a, P: Placing> StepForm for Placed<'a, P> {
    ghost is_form = { λ form. IsOrderedTask form };

    ghost task = { λ form. form.task };

    ghost layout_of = { λ form n. layout_of form.task (P.places form.task form.components) n };

    ghost formula_of = { λ form n. formula_of form.task form.known.clauses (P.places form.task form.components) n };

    ghost is_plan = { λ form n steps. AreSets P.are_plan form.task (order_of form.components) steps n };

    ghost stands_for = { λ form n values. steps_at form (P.places form.task form.components) n (assignment_of values) };

    ghost numbers = { λ form n. numbers_of P.places P.are_plan form n };

    ghost plans = { λ form n values is model. plans_of P.places P.are_plan P.lawful form n values is model };

    ghost long = { λ form n steps plan. sets_of P.places P.are_plan form n steps plan };

    ghost members = { λ form n steps plan. members_of P.places P.are_plan P.lawful form n steps plan };

    ghost refutes = { λ form n is unsatisfiable steps plan. refutes_of P.places P.are_plan P.lawful form n is unsatisfiable steps plan };

    fn layout(&self, n: u32) -> Layout {
        Layout::new(
            n,
            self.task.acts().len() as u32,
            self.conditional,
            self.chains.variables(),
            self.task.facts(),
        )
    }

    fn size(&self, n: u32) -> u64 {
        let ends = u64::from(self.task.facts()) + self.task.goal().len() as u64;
        ends + u64::from(n) * self.step_size + (u64::from(n) + 1) * self.known_size
    }

    fn formula(&self, alloc: Global, n: u32) -> Result<Formula, FormError> {
        let count = self.size(n);
        if count > MOST_LITERALS {
            return Err(FormError::Literals { count });
        }
        let layout = self.layout(n);
        match self.built(alloc, &layout) {
            Ok(formula) => Ok(formula),
            Err(_) => Err(FormError::Memory),
        }
    }

    fn steps_of(&self, alloc: Global, n: u32, values: &[bool]) -> Result<Steps, Memory> {
        let layout = self.layout(n);
        let mut steps = Vec::new(alloc);
        for t in 0..n {
            steps.push(true_actions(alloc, &layout, t, self.order, values)?)?;
        }
        Ok(Steps::of(steps))
    }
}
