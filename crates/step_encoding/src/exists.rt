//! The encoding of exists-steps.

ghost use Rattle.gt_core.specs.Step.{IsStepPlan};
ghost use Rattle.formula_defs.specs.Variables.{chain_places};
ghost use Rattle.step_encoding.specs.Laws.{by_components};

use crate::placed::{Placed, Placing};
use action_order::order::Order;
use containers::memory::Memory;
use gt_core::task::Task;
use std::alloc::Global;
use step_chains::Chains;

/// The members of a step run in one published order, and the chains go over each component of it.
#[derive(Drop)]
pub struct Components;

impl Placing for Components {
    ghost places = { chain_places };

    ghost are_plan = { IsStepPlan };

    ghost lawful = { by_components };

    fn find(alloc: Global, task: &Task, order: &Order) -> Result<Chains, Memory> {
        Chains::find(alloc, task, order)
    }
}

/// The encoding of steps in which the members run in one published order.
pub type ExistsForm<'a> = Placed<'a, Components>;
