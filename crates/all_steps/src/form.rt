//! The encoding of all-steps.

ghost use Rattle.gt_core.specs.AllStep.{IsAllStepPlan};
ghost use Rattle.step_chains.specs.BothWays.{all_places};
ghost use Rattle.all_steps.specs.Form.{by_both_ways};

use action_order::order::Order;
use containers::memory::Memory;
use gt_core::task::Task;
use std::alloc::Global;
use step_chains::Chains;
use step_encoding::placed::{Placed, Placing};

/// The members of a step run in every order, and for each fact literal chains go over all actions, forward and backward in
/// one order.
#[derive(Drop)]
pub struct BothWays;

impl Placing for BothWays {
    ghost places = { all_places };

    ghost are_plan = { IsAllStepPlan };

    ghost lawful = { by_both_ways };

    fn find(alloc: Global, task: &Task, order: &Order) -> Result<Chains, Memory> {
        Chains::find_both_ways(alloc, task, order)
    }
}

/// The encoding of steps in which the members run in every order.
pub type AllForm<'a> = Placed<'a, BothWays>;
