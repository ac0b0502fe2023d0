//! The formula of clauses, of a ground task.

ghost use Rattle.std.specs.Prelude.{◌≡◌, IfOk};
ghost use Rattle.clause_base.specs.Formula.{IsUnsatisfiable};
ghost use Rattle.gt_core.specs.Task.{initial_state};
ghost use Rattle.gt_core.specs.Laws.{HasNoRun};
ghost use Rattle.formula_defs.specs.Coded.{formula_of};
ghost use Rattle.step_laws.specs.Form.{places_of};
ghost use Rattle.step_laws.specs.Never.{never_formula};
ghost use Rattle.never_defs.specs.Sets.{AreTrue};
ghost use Rattle.never_text.specs.Reading.{AreClauses};
ghost use Rattle.plan_endings.specs.Ends.{StopsBy};
ghost use Rattle.never_form.specs.Formed.{IsNeverFormula, TellsTooLarge};
ghost use Rattle.never_form.specs.own.One.{TellsTooMany};

use crate::counted::counted;
use crate::joined::joined;
use action_order::publish::publish;
use clause_base::formula::Formula;
use containers::FlatLists;
use gt_core::task::Task;
use plan_endings::Ending;
use plan_endings::stop::Stop;
use std::alloc::Global;
use std::thread::Threads;
use step_encoding::exists::{Components, ExistsForm};
use step_encoding::form::{FormError, StepForm};
use step_encoding::limits::MOST_LITERALS;
use step_encoding::placed::Placed;
use two_invariants::find;

/// The end of a run whose formula has too many literals.
fn too_large(count: u64) -> Stop
    ensures { result ≡ Stop.Ends (Ending.TooLarge 1 count) }
{
    Stop::Ends(Ending::TooLarge { horizon: 1, count })
}

/// The formula of clauses, by a form of the task, or the run stops, where it has too many literals.
fn formula_in(
    alloc: Global,
    task: &Task,
    form: &ExistsForm<'_>,
    clauses: &FlatLists<u32>,
) -> Result<Formula, Stop>
    requires task { form.now.task ≡ task.now }
    requires over { AreClauses task.now.facts clauses.now }
    ensures formula { IfOk result (λ f. f ≡ never_formula task.now form.now.known.clauses (places_of form.now) clauses.now) }
    ensures stops { StopsBy (TellsTooMany (formula_of task.now form.now.known.clauses (places_of form.now) 1) task.now clauses.now) result }
    ensures refutes { IfOk result (λ f. IsUnsatisfiable f.clauses → AreTrue (initial_state task.now) clauses.now → HasNoRun task.now) }
{
    step_laws::laws::laws();
    let size = form.size(1);
    if MOST_LITERALS < size {
        return Err(too_large(size));
    }
    let goal = 2 * task.goal().len() as u64;
    let count = counted(size + goal + 1, clauses);
    if MOST_LITERALS < count {
        return Err(too_large(count));
    }
    match form.formula(alloc, 1) {
        Ok(one) => {
            let formula = joined(alloc, task, &one, clauses)?;
            Ok(formula)
        }
        Err(FormError::Literals { count }) => Err(too_large(count)),
        Err(FormError::Memory) => Err(Stop::Memory),
    }
}

/// The formula of clauses that are read forward, for a task with its invariants and the published order of its actions: where no
/// assignment satisfies it, and the clauses are true in the initial state, no actions lead to the goal, however many. The run stops where
/// it has more than `MOST_LITERALS` literals.
pub fn formula_of<H: Threads + Sync>(
    rt: &H,
    alloc: Global,
    task: &Task,
    clauses: &FlatLists<u32>,
) -> Result<Formula, Stop>
    requires { AreClauses task.now.facts clauses.now }
    ensures formula { IfOk result (IsNeverFormula task.now clauses.now) }
    ensures refutes { IfOk result (λ f. IsUnsatisfiable f.clauses → AreTrue (initial_state task.now) clauses.now → HasNoRun task.now) }
    ensures stops { StopsBy (TellsTooLarge clauses.now task.now) result }
{
    let pairs = find(rt, alloc, task)?;
    let order = publish(alloc, task, &pairs)?;
    let form = Placed::<Components>::new(alloc, task, &pairs, &order)?;
    formula_in(alloc, task, &form, clauses)
}
