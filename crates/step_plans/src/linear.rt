//! The actions of steps, listed in published order.

ghost use Rattle.std.specs.Prelude.{◌≡◌, ◌∷◌, ◌++◌, [], OnOk, IfOk};
ghost use Rattle.std.specs.List.{filter};
ghost use Rattle.gt_core.specs.Literal.{is_in};
ghost use Rattle.gt_core.specs.Published.{order_of};
ghost use Rattle.step_plans.specs.Plans.{in_order};
ghost use Rattle.step_plans.specs.own.Linear.{ArePlanOf};

use action_order::numbers::ActNumbers;
use action_order::order::Order;
use pd_model::Memory;
use std::alloc::Global;
use step_encoding::steps::Steps;

/// Appends an action where it is a member of a set.
fn push_member(set: &[u32], a: u32, actions: &mut Vec<u32>) -> Result<(), Memory>
    ensures { OnOk result (actions.new.items ≡ actions.old.items ++ filter (is_in set.now) (a ∷ [])) }
{
    if set.contains(&a) {
        actions.push(a)?;
    }
    Ok(())
}

/// Appends the members of a set in the order.
fn push_members(order: &Order, set: &[u32], actions: &mut Vec<u32>) -> Result<(), Memory>
    ensures { OnOk result (actions.new.items ≡ actions.old.items ++ filter (is_in set.now) (order_of order.now)) }
{
    for place in 0..order.actions() {
        push_member(set, order.at(place), actions)?;
    }
    Ok(())
}

/// The members of each step in published order, step after step. Where the steps are a step plan, their calls are a plan.
/// The program does not call it, since the steps of its plans come listed in published order.
pub fn linearise(alloc: Global, order: &Order, steps: &Steps) -> Result<ActNumbers, Memory>
    ensures listed { IfOk result (λ actions. actions ≡ in_order (order_of order.now) steps.now) }
    ensures plan { IfOk result (λ actions. ArePlanOf order.now steps.now actions) }
{
    crate::laws::laws();
    let mut actions = Vec::new(alloc);
    for set in steps.as_slice() {
        push_members(order, set.as_slice(), &mut actions)?;
    }
    Ok(ActNumbers::of(actions))
}
