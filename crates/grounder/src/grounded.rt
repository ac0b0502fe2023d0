//! What grounding gives.
ghost use Rattle.std.specs.Prelude.{ℕ, ◌≡◌, ◌≤◌, true, IfOk, Err, length, map};
ghost use Rattle.gt_core.specs.Lawful.{is_task};
ghost use Rattle.grounding_defs.specs.Instance.{instance_of};
ghost use Rattle.grounding_defs.specs.Simplify.{action_of, values_in, task_of};
ghost use Rattle.grounding_defs.specs.Sorted.{IsSorted, atom_less};
ghost use Rattle.grounding_defs.specs.Grounded.{IsGrounded};
ghost use Rattle.grounding_defs.specs.Limits.{most_tuples, IsWithin, IsOverTuples, IsOverFacts, IsOverActions, IsOverEffects};
ghost use Rattle.gt_core.specs.Limits.{most_facts};
ghost use Rattle.grounding_defs.specs.Tuples.{tuples_in};
ghost use Rattle.grounder.specs.own.Few.{HasFew, HaveFew};
ghost use Rattle.grounder.specs.own.Counted.{HasCounted};
ghost use Rattle.grounder.specs.own.Found.{AreFound};
ghost use Rattle.grounder.specs.own.Numbered.{grounded_with};
ghost use Rattle.grounder.specs.own.Known.{IsKnown};

use crate::actions::{actions_of, count_actions};
use crate::conditional::Counted;
use crate::constant::{Found, found_in};
use crate::effects::effects_of;
use crate::known::Known;
use crate::literals::any_never;
use crate::simplify::simplified;
use crate::tuples::count_tuples;
use atom_join::AtomTable;
use containers::let_go;
use grounding_defs::laws::laws;
use gt_core::act::{Act, Acts};
use gt_core::eff::Effs;
use gt_core::limits::{MOST_ACTIONS, MOST_CONDITIONAL, MOST_FACTS};
use gt_core::lits::{Bits, Lits};
use gt_core::task::Task;
use pd_model::{Atom, Atoms, Call, Calls, Memory, Pddl};
use reachability::CallRows;
use schema_domains::Domains;
use std::alloc::Global;
use std::marker::Model;

// How many tuples a task may have.
const MOST_TUPLES: u64 = 4_000_000;

/// A task over numbered facts and actions, with the atom of each fact and the call of each action.
pub struct Grounded {
    facts: Atoms,
    calls: Calls,
    task: Task,
}

impl Model for Grounded {
    ghost use Rattle.grounding_defs.specs.Grounded.{Grounded};

    ghost Value = { Grounded };

    ghost view = { λ g. record { facts = g.facts; calls = g.calls; task = g.task } };
}

/// All parts are let go in one call, so that a proof has one step for it and not one for each part.
impl Drop for Grounded {
    fn drop(self) {
        let_go!(self: Grounded { facts, calls, task });
    }
}

/// Why a task is not grounded: it is past a limit, told with its count, or memory ran out.
#[derive(Clone, Copy, PartialEq, Eq)]
pub enum GroundError {
    /// More than 4,000,000 tuples; a count past the greatest u64 is told as that number.
    Tuples { count: u64 },
    /// More than 2,048 facts.
    Facts { count: u64 },
    /// More than 16,384 actions.
    Actions { count: u64 },
    /// More than 65,536 effects with a condition; a count past the greatest u64 is told as that number.
    Effects { count: u64 },
    /// Memory ran out.
    Memory,
}

impl From<Memory> for GroundError {
    ghost use Rattle.std.specs.Prelude.{◌≡◌};
    ghost use Rattle.grounder.specs.declared.grounded.GroundError.TheVariants as error;

    ghost from_gives = { λ _ e. e ≡ error.Memory };

    fn from(_: Memory) -> Self {
        GroundError::Memory
    }
}

/// The action of a call.
fn action_of(known: &Known, call: &Call) -> Result<Act, Memory>
    requires known { IsKnown known.now }
    requires few { HasFew known.now.domains.now call.now }
    ensures { IfOk result (λ act. act ≡ action_of known.now.domains.now known.now.facts (instance_of known.now.domains.now call.now)) }
{
    let Some(schema) = known.domains.schemas().as_slice().get(call.schema as usize) else {
        return Ok(Act::new(
            Lits::of(Vec::new(known.alloc)),
            Effs::of(Vec::new(known.alloc)),
        ));
    };
    let objects = call.objects.as_slice();
    let pre = simplified(known, objects, schema.pre.as_slice())?;
    let effects = effects_of(known, objects, schema.effects.as_slice())?;
    Ok(Act::new(pre, effects))
}

/// The actions of calls, counted by their effects with a condition.
fn acts_of(known: &Known, calls: &[Call]) -> Result<Counted, Memory>
    requires known { IsKnown known.now }
    requires few { HaveFew known.now.domains.now calls.now }
    ensures { IfOk result (HasCounted (map (λ c. action_of known.now.domains.now known.now.facts (instance_of known.now.domains.now c)) calls.now)) }
{
    let mut counted = Counted {
        acts: Vec::with_capacity(known.alloc, calls.len())?,
        conditional: 0,
    };
    for call in calls {
        let act = action_of(known, call)?;
        counted.add(act)?;
    }
    Ok(counted)
}

/// The truth of each fact in the initial state.
fn initial_values(known: &Known) -> Result<Bits, Memory>
    requires { IsKnown known.now }
    ensures { IfOk result (λ values. values ≡ values_in known.now.facts known.now.domains.now.init) }
{
    let facts = known.facts.atoms();
    let mut values = Vec::with_capacity(known.alloc, facts.len())?;
    for atom in facts {
        values.push(known.initial.has(atom))?;
    }
    Ok(Bits::of(values))
}

/// A task with its facts and its initial atoms.
fn known_of<'a>(
    alloc: Global,
    domains: &'a Domains<'a>,
    facts: &'a [Atom],
) -> Result<Known<'a>, Memory>
    requires sorted { IsSorted atom_less facts.now }
    requires few { length facts.now ≤ most_facts }
    ensures known { IfOk result (λ known. IsKnown known) }
    ensures domains { IfOk result (λ known. known.domains.now ≡ domains.now) }
    ensures facts { IfOk result (λ known. known.facts ≡ facts.now) }
{
    Ok(Known {
        alloc,
        domains,
        facts: AtomTable::of(alloc, facts)?,
        initial: AtomTable::of(alloc, domains.init().as_slice())?,
    })
}

/// The task of facts, calls and their actions.
fn task_of(known: &Known, calls: &[Call], acts: Acts) -> Result<Task, Memory>
    requires known { IsKnown known.now }
    requires acts { acts ≡ map (λ c. action_of known.now.domains.now known.now.facts (instance_of known.now.domains.now c)) calls.now }
    requires task { is_task (task_of known.now.domains.now known.now.facts calls.now) ≡ true }
    ensures { IfOk result (λ task. task ≡ task_of known.now.domains.now known.now.facts calls.now) }
{
    let init = initial_values(known)?;
    let conds = known.domains.goal().as_slice();
    let goal = simplified(known, &[], conds)?;
    let hopeless = any_never(known, &[], conds);
    let facts = known.facts.atoms().len() as u32;
    Ok(Task::new(facts, init, goal, hopeless, acts))
}

/// The calls of the actions, and the task over numbers.
struct Numbered {
    calls: Calls,
    task: Task,
}

/// All parts are let go in one call, so that a proof has one step for it and not one for each part.
impl Drop for Numbered {
    fn drop(self) {
        let_go!(self: Numbered { calls, task });
    }
}

impl Numbered {
    /// The same with its facts.
    fn with(self, facts: Atoms) -> Grounded
        ensures { result ≡ grounded_with facts self }
    {
        let Numbered { calls, task } = self;
        Grounded { facts, calls, task }
    }
}

/// The actions and the task of these facts and kept calls.
fn make_numbered(
    alloc: Global,
    domains: &Domains,
    facts: &[Atom],
    kept: CallRows,
) -> Result<Numbered, GroundError>
    requires tuples { tuples_in domains.now ≤ most_tuples }
    requires found { AreFound domains.now facts.now kept }
    requires facts { length facts.now ≤ most_facts }
    ensures grounded { IfOk result (λ n. IsGrounded domains.now (grounded_with facts.now n)) }
    ensures within { IfOk result (λ n. IsWithin domains.now (grounded_with facts.now n)) }
    ensures tuples { (n : ℕ) → result ≡ Err (GroundError.Tuples n) → IsOverTuples domains.now n }
    ensures facts { (n : ℕ) → result ≡ Err (GroundError.Facts n) → IsOverFacts domains.now n }
    ensures actions { (n : ℕ) → result ≡ Err (GroundError.Actions n) → IsOverActions domains.now n }
    ensures effects { (n : ℕ) → result ≡ Err (GroundError.Effects n) → IsOverEffects domains.now n }
{
    laws();
    let known = known_of(alloc, domains, facts)?;
    let count = count_actions(&known, &kept) as u64;
    if count > MOST_ACTIONS {
        return Err(GroundError::Actions { count });
    }
    let calls = actions_of(&known, &kept)?;
    let counted = acts_of(&known, calls.as_slice())?;
    let count = counted.conditional;
    if count > MOST_CONDITIONAL {
        return Err(GroundError::Effects { count });
    }
    let task = task_of(&known, calls.as_slice(), Acts::of(counted.acts))?;
    Ok(Numbered { calls, task })
}

/// The same of a task that is within the limit on tuples.
fn ground_over(alloc: Global, domains: &Domains) -> Result<Grounded, GroundError>
    requires { tuples_in domains.now ≤ most_tuples }
    ensures grounded { IfOk result (λ g. IsGrounded domains.now g) }
    ensures within { IfOk result (λ g. IsWithin domains.now g) }
    ensures tuples { (n : ℕ) → result ≡ Err (GroundError.Tuples n) → IsOverTuples domains.now n }
    ensures facts { (n : ℕ) → result ≡ Err (GroundError.Facts n) → IsOverFacts domains.now n }
    ensures actions { (n : ℕ) → result ≡ Err (GroundError.Actions n) → IsOverActions domains.now n }
    ensures effects { (n : ℕ) → result ≡ Err (GroundError.Effects n) → IsOverEffects domains.now n }
{
    laws();
    let Found { facts, kept } = found_in(alloc, domains)?;
    let count = facts.as_slice().len() as u64;
    if count > MOST_FACTS {
        return Err(GroundError::Facts { count });
    }
    match make_numbered(alloc, domains, facts.as_slice(), kept) {
        Ok(numbered) => Ok(numbered.with(facts)),
        Err(error) => Err(error),
    }
}

/// The task that a task as it is written stands for, over numbered facts and actions.
pub fn ground(alloc: Global, p: &Pddl) -> Result<Grounded, GroundError>
    ensures grounded { IfOk result (λ g. IsGrounded p.now g) }
    ensures within { IfOk result (λ g. IsWithin p.now g) }
    ensures tuples { (n : ℕ) → result ≡ Err (GroundError.Tuples n) → IsOverTuples p.now n }
    ensures facts { (n : ℕ) → result ≡ Err (GroundError.Facts n) → IsOverFacts p.now n }
    ensures actions { (n : ℕ) → result ≡ Err (GroundError.Actions n) → IsOverActions p.now n }
    ensures effects { (n : ℕ) → result ≡ Err (GroundError.Effects n) → IsOverEffects p.now n }
{
    let count = count_tuples(p);
    if count > MOST_TUPLES {
        return Err(GroundError::Tuples { count });
    }
    let domains = Domains::of(alloc, p)?;
    ground_over(alloc, &domains)
}

impl Grounded {
    ghost use Rattle.std.specs.Prelude.{◌<◌, length, Some, slice_get};

    /// The task.
    pub fn task(&self) -> &Task
        ensures { result.now ≡ self.now.task }
    {
        &self.task
    }

    /// The atom of a fact.
    pub fn fact(&self, f: u32) -> &Atom
        requires { f < length self.now.facts }
        ensures { slice_get self.now.facts f ≡ Some result.now }
    {
        &self.facts.as_slice()[f as usize]
    }

    /// The call of an action.
    pub fn call(&self, a: u32) -> &Call
        requires { a < length self.now.calls }
        ensures { slice_get self.now.calls a ≡ Some result.now }
    {
        &self.calls.as_slice()[a as usize]
    }
}
