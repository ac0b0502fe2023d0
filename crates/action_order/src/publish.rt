//! The published order of a task.

ghost use Rattle.std.specs.Prelude.{◌≡◌, ℕ, ◌<◌, ◌≤◌, [], length, map, IfOk};
ghost use Rattle.std.specs.List.{AllByRecursion};
ghost use Rattle.gt_core.specs.Literal.{range};
ghost use Rattle.gt_core.specs.Published.{IsListed, IsPublished, KeepsApart, HasEachOnce, order_of};
ghost use Rattle.action_order.specs.own.Graph.{IsGraph, leads, item};
ghost use Rattle.action_order.specs.Order.{name_in};
ghost use Rattle.gt_core.specs.Limits.{most_actions};

use crate::edges::edges;
use crate::group::list;
use crate::numbers::ActNumbers;
use crate::order::Order;
use crate::quotient::{names, quotient};
use crate::sort::sort_components;
use crate::walk::find_components;
use bit_sets::row::BitRow;
use containers::memory::Memory;
use gt_core::pairs::Pairs;
use gt_core::task::Task;
use std::alloc::{AllocError, Global};

/// The components of a graph in the published order, and the name of each vertex's.
#[derive(Drop)]
pub struct Listing {
    /// The members of each component.
    pub components: Vec<ActNumbers>,
    /// By vertex, the name of its component.
    pub names: Vec<u32>,
}

/// The name of each vertex's component.
fn names_of(alloc: Global, names: &[u32], numbers: &[usize]) -> Result<Vec<u32>, AllocError>
    requires { AllByRecursion (λ c. c < length names.now) numbers.now }
    ensures { IfOk result (λ r. r.items ≡ map (item names.now) numbers.now) }
{
    let mut all = Vec::new(alloc);
    for number in numbers {
        all.push(names[*number])?;
    }
    Ok(all)
}

/// The components of a graph in the published order.
fn list_components(alloc: Global, targets: Vec<BitRow>) -> Result<Listing, AllocError>
    requires graph { IsGraph targets.items }
    requires few { length targets.items ≤ most_actions }
    ensures listed { IfOk result (λ r. IsListed (leads targets.items) (range (length targets.items)) [] r.components.items) }
    ensures long { IfOk result (λ r. length r.names.items ≡ length targets.items) }
    ensures names { IfOk result (λ r. (a : ℕ) → a < length targets.items → item r.names.items a ≡ name_in r.components.items a) }
{
    let found = find_components(alloc, targets.as_slice())?;
    let numbers = found.numbers.as_slice();
    let rows = quotient(alloc, targets, numbers, found.roots.as_slice())?;
    let least = names(alloc, numbers, found.roots.as_slice())?;
    let order = sort_components(alloc, rows.as_slice(), least.as_slice(), numbers)?;
    let components = list(alloc, numbers, rows.len(), order.as_slice())?;
    let names = names_of(alloc, least.as_slice(), numbers)?;
    Ok(Listing { components, names })
}

/// The actions of the components, one after the other.
fn flatten(alloc: Global, components: &[ActNumbers]) -> Result<Vec<u32>, AllocError>
    ensures { IfOk result (λ order. order.items ≡ order_of components.now) }
{
    let mut order = Vec::new(alloc);
    for component in components {
        order.extend_from_slice(component.as_slice())?;
    }
    Ok(order)
}

/// The place of each action in an order.
fn places_of(alloc: Global, order: &[u32], count: usize) -> Result<Vec<u32>, AllocError>
    requires below { AllByRecursion (λ a. a < count) order.now }
    requires unequal { (k p : ℕ) → k < p → p < length order.now → item order.now k ≡ item order.now p → ⊥ }
    requires few { length order.now ≤ most_actions }
    ensures long { IfOk result (λ places. length places.items ≡ count) }
    ensures placed { IfOk result (λ places. (p : ℕ) → p < length order.now → item places.items (item order.now p) ≡ p) }
{
    let mut places = vec![in alloc; 0; count]?;
    for (p, a) in order.iter().enumerate() {
        places[*a as usize] = p as u32;
    }
    Ok(places)
}

/// The published order of the actions of a task, under the clauses of `pairs`, which are over the task's facts. The
/// only error is want of memory.
pub fn publish(alloc: Global, task: &Task, pairs: &Pairs) -> Result<Order, Memory>
    requires { pairs.now.facts ≡ task.now.facts }
    ensures published { IfOk result (λ order. IsPublished task.now pairs.now.clauses order) }
    ensures apart { IfOk result (λ order. KeepsApart task.now pairs.now.clauses order) }
    ensures each_once { IfOk result (λ order. HasEachOnce task.now order) }
{
    let targets = edges(alloc, task.facts(), task.acts(), pairs)?;
    let count = targets.len();
    let listing = list_components(alloc, targets)?;
    let order = flatten(alloc, listing.components.as_slice())?;
    let places = places_of(alloc, order.as_slice(), count)?;
    Ok(Order::of(listing.components, order, places, listing.names))
}
