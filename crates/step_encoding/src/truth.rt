//! The actions that an assignment makes true.

ghost use Rattle.std.specs.Prelude.{◌≡◌, ◌<◌, ◌++◌, length, OnOk, IfOk};
ghost use Rattle.std.specs.List.{filter, AllByRecursion};
ghost use Rattle.formula_defs.specs.Layout.{action_at, variables};
ghost use Rattle.gt_core.specs.Published.{order_of};
ghost use Rattle.clause_base.specs.Formula.{assignment_of};

use action_order::numbers::ActNumbers;
use action_order::order::Order;
use containers::memory::Memory;
use formula_defs::layout::Layout;
use std::alloc::Global;

/// The value of a variable.
fn is_true(values: &[bool], variable: u32) -> bool
    requires { variable < length values.now }
    ensures { result ≡ assignment_of values.now variable }
{
    values[variable as usize]
}

/// Appends the members of a component that are true in a step.
fn add_true(
    layout: &Layout,
    step: u32,
    members: &[u32],
    values: &[bool],
    into: &mut Vec<u32>,
) -> Result<(), Memory>
    requires step { step < layout.now.horizon }
    requires members { AllByRecursion (λ a. a < layout.now.actions) members.now }
    requires values { length values.now ≡ variables layout.now }
    ensures { OnOk result (into.new.items ≡ into.old.items ++ filter (λ a. assignment_of values.now (action_at layout.now step a)) members.now) }
{
    for a in members {
        if is_true(values, layout.action(step, *a)) {
            into.push(*a)?;
        }
    }
    Ok(())
}

/// The actions that are true in a step, in published order.
pub(crate) fn true_actions(
    alloc: Global,
    layout: &Layout,
    step: u32,
    order: &Order,
    values: &[bool],
) -> Result<ActNumbers, Memory>
    requires step { step < layout.now.horizon }
    requires members { AllByRecursion (λ ks. AllByRecursion (λ a. a < layout.now.actions) ks) order.now }
    requires values { length values.now ≡ variables layout.now }
    ensures { IfOk result (λ actions. actions ≡ filter (λ a. assignment_of values.now (action_at layout.now step a)) (order_of order.now)) }
{
    let mut actions = Vec::new(alloc);
    for group in order.groups() {
        add_true(layout, step, group.as_slice(), values, &mut actions)?;
    }
    Ok(ActNumbers::of(actions))
}
