//! The members of the components.

ghost use Rattle.std.specs.Prelude.{◌≡◌, ℕ, ◌<◌, ◌≤◌, [], replicate, length, slice_index_or, OnOk, IfOk};
ghost use Rattle.std.specs.List.{AllByRecursion};
ghost use Rattle.action_order.specs.own.Graph.{class_at};
ghost use Rattle.action_order.specs.own.Group.{members, listed};
ghost use Rattle.gt_core.specs.Limits.{most_actions};

use crate::numbers::ActNumbers;
use containers::equal::empty_lists;
use std::alloc::{AllocError, Global};

/// The members of each component, by its number.
fn group(alloc: Global, numbers: &[usize], count: usize) -> Result<Vec<ActNumbers>, AllocError>
    requires below { AllByRecursion (λ c. c < count) numbers.now }
    requires few { length numbers.now ≤ most_actions }
    ensures long { IfOk result (λ groups. length groups.items ≡ count) }
    ensures members { IfOk result (λ groups. (c : ℕ) → c < count → slice_index_or groups.items c [] ≡ members numbers.now c) }
{
    let mut groups = empty_lists(alloc, count)?;
    for (a, number) in numbers.iter().enumerate() {
        let list = &mut groups[*number];
        list.push(a as u32)?;
    }
    Ok(groups)
}

/// The components in an order of their numbers.
pub fn list(
    alloc: Global,
    numbers: &[usize],
    count: usize,
    order: &[usize],
) -> Result<Vec<ActNumbers>, AllocError>
    requires below { AllByRecursion (λ c. c < count) numbers.now }
    requires few { length numbers.now ≤ most_actions }
    requires order { AllByRecursion (λ c. c < count) order.now }
    ensures { IfOk result (λ components. components.items ≡ listed numbers.now order.now) }
{
    let groups = group(alloc, numbers, count)?;
    let mut components = Vec::new(alloc);
    for c in order {
        components.push(ActNumbers::copied_from(alloc, groups[*c].as_slice())?)?;
    }
    Ok(components)
}
