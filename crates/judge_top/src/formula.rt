//! The formula of a horizon of a ground task, for plans in steps of a kind.
ghost use Rattle.std.specs.Prelude.{◌≡◌, ◌≤◌, ◌<◌, ℕ, List, IfOk};
ghost use Rattle.clause_base.specs.Formula.{IsUnsatisfiable};
ghost use Rattle.step_encoding.specs.{Limits.most_literals, Numbers.literals_of};
ghost use Rattle.plan_endings.specs.Ends.{StopsBy};
ghost use Rattle.plan_tasks.specs.Stepping.{places_by, is_plan_by};
ghost use Rattle.judge_top.specs.Answers.{OfKnown, IsFormula, IsTooMany, TellsTooMany, word_of};
ghost use Rattle.horizon_rates.specs.Limits.{last_horizon};

use action_order::publish::publish;
use all_steps::form::BothWays;
use clause_base::formula::Formula;
use gt_core::task::Task;
use plan_endings::Ending;
use plan_endings::stop::Stop;
use requests::Stepping;
use std::alloc::Global;
use std::thread::Threads;
use step_encoding::exists::Components;
use step_encoding::form::{FormError, StepForm};
use step_encoding::placed::{Placed, Placing};
use two_invariants::find;

/// The word for a kind of steps.
pub fn word_of(steps: Stepping) -> &'static str
    ensures { result.now ≡ word_of steps }
{
    match steps {
        Stepping::Exists => "exists",
        Stepping::All => "all",
    }
}

/// The formula of a horizon of a task; or the run stops, where it has more than `MOST_LITERALS` literals.
pub fn formula_by<H: Threads + Sync>(
    rt: &H,
    alloc: Global,
    steps: Stepping,
    task: &Task,
    horizon: u32,
) -> Result<Formula, Stop>
    requires { horizon ≤ last_horizon }
    ensures formula { IfOk result (λ formula. OfKnown task.now (IsFormula (places_by steps) (is_plan_by steps) horizon formula)) }
    ensures stops { StopsBy (TellsTooMany (places_by steps) horizon task.now) result }
{
    match steps {
        Stepping::Exists => formula_in::<Components, H>(rt, alloc, task, horizon),
        Stepping::All => formula_in::<BothWays, H>(rt, alloc, task, horizon),
    }
}

// The same, for the places of the chains of one form.
fn formula_in<P: Placing, H: Threads + Sync>(
    rt: &H,
    alloc: Global,
    task: &Task,
    horizon: u32,
) -> Result<Formula, Stop>
    requires { horizon ≤ last_horizon }
    ensures formula { IfOk result (λ formula. OfKnown task.now (IsFormula P.places P.are_plan horizon formula)) }
    ensures stops { StopsBy (TellsTooMany P.places horizon task.now) result }
{
    let pairs = find(rt, alloc, task)?;
    let order = publish(alloc, task, &pairs)?;
    let form = Placed::<P>::new(alloc, task, &pairs, &order)?;
    formula_of(alloc, &form, horizon)
}

/// The formula of a horizon of a form.
pub fn formula_of<F: StepForm>(alloc: Global, form: &F, horizon: u32) -> Result<Formula, Stop>
    requires { horizon ≤ last_horizon }
    ensures formula { IfOk result (λ formula. formula ≡ F.formula_of form.now horizon) }
    ensures refutes { IfOk result (λ formula. IsUnsatisfiable formula.clauses → (steps : List (List ℕ)) → F.is_plan form.now horizon steps → ⊥) }
    ensures small { IfOk result (λ formula. literals_of (F.formula_of form.now horizon) ≤ most_literals) }
    ensures stops { StopsBy (IsTooMany (F.formula_of form.now horizon) horizon) result }
{
    // For the proof: the form is lawful, so its laws hold.
    let _lawful = form.size(horizon);
    match form.formula(alloc, horizon) {
        Ok(formula) => Ok(formula),
        Err(FormError::Literals { count }) => Err(Stop::Ends(Ending::TooLarge { horizon, count })),
        Err(FormError::Memory) => Err(Stop::Memory),
    }
}
