//! The lines of the steps of a plan.
ghost use Rattle.std.specs.Prelude.{◌≡◌, ◌<◌, ◌∷◌, ◌++◌, [], map, length, OnOk, IfOk};
ghost use Rattle.std.specs.List.{flat_map, AllByRecursion};
ghost use Rattle.report_lines.specs.Lines.{joined};
ghost use Rattle.plan_report.specs.Report.{action_text, step_line, step_lines, calls_by_step};
ghost use Rattle.step_plans.specs.Plans.{actions_in};

use crate::push_call;
use action_order::numbers::ActNumbers;
use grounder::Grounded;
use pd_model::{Memory, Pddl};
use report_lines::push_number;
use std::alloc::Global;

/// Appends the line of an action's call.
fn push_action(p: &Pddl, g: &Grounded, a: u32, text: &mut Vec<u8>) -> Result<(), Memory>
    requires { a < length g.now.calls }
    ensures { OnOk result (text.new.items ≡ text.old.items ++ joined (action_text p.now g.now a ∷ [])) }
{
    push_call(p, g.call(a), text)?;
    text.extend_from_slice(b"\n")?;
    Ok(())
}

/// Appends the lines of the calls of actions, in their order.
pub fn push_actions(
    p: &Pddl,
    g: &Grounded,
    actions: &[u32],
    text: &mut Vec<u8>,
) -> Result<(), Memory>
    requires { AllByRecursion (λ a. a < length g.now.calls) actions.now }
    ensures { OnOk result (text.new.items ≡ text.old.items ++ flat_map (λ a. joined (action_text p.now g.now a ∷ [])) actions.now) }
{
    for a in actions {
        push_action(p, g, *a, text)?;
    }
    Ok(())
}

/// Appends the line of a step's number.
fn push_number_of_step(number: u64, text: &mut Vec<u8>) -> Result<(), Memory>
    ensures { OnOk result (text.new.items ≡ text.old.items ++ joined (step_line number ∷ [])) }
{
    text.extend_from_slice(b"; step ")?;
    push_number(text, number)?;
    text.extend_from_slice(b"\n")?;
    Ok(())
}

/// Appends the lines of a step.
fn push_step(
    p: &Pddl,
    g: &Grounded,
    number: u64,
    set: &[u32],
    text: &mut Vec<u8>,
) -> Result<(), Memory>
    requires { AllByRecursion (λ a. a < length g.now.calls) set.now }
    ensures { OnOk result (text.new.items ≡ text.old.items ++ joined (step_line number ∷ map (action_text p.now g.now) set.now)) }
{
    push_number_of_step(number, text)?;
    push_actions(p, g, set, text)?;
    Ok(())
}

/// Appends the lines of the steps of a plan, which are numbered from 1.
pub(crate) fn push_steps(
    p: &Pddl,
    g: &Grounded,
    steps: &[ActNumbers],
    text: &mut Vec<u8>,
) -> Result<(), Memory>
    requires { AllByRecursion (λ set. AllByRecursion (λ a. a < length g.now.calls) set) steps.now }
    ensures { OnOk result (text.new.items ≡ text.old.items ++ joined (step_lines 1 (calls_by_step p.now g.now steps.now))) }
{
    for (t, set) in steps.iter().enumerate() {
        push_step(p, g, t as u64 + 1, set.as_slice(), text)?;
    }
    Ok(())
}

/// The actions of steps, one step after the other.
pub(crate) fn actions_of(alloc: Global, steps: &[ActNumbers]) -> Result<Vec<u32>, Memory>
    ensures { IfOk result (λ actions. actions.items ≡ actions_in steps.now) }
{
    let mut actions = Vec::new(alloc);
    for set in steps {
        actions.extend_from_slice(set.as_slice())?;
    }
    Ok(actions)
}
