//! What a choice is made from: the goal, and the supporters of each fact literal.

ghost use Rattle.std.specs.Prelude.{◌≡◌, ◌/◌, ◌<◌, ◌≤◌, [], ◌++◌, Some, None, length, slice_index_or, IfOk, IfSome, IfNone};
ghost use Rattle.std.specs.List.{AllByRecursion};
ghost use Rattle.goal_choice.specs.Means.{gathered_of, variable_from};
ghost use Rattle.goal_choice.specs.Walk.{least_with};
ghost use Rattle.gt_core.specs.Limits.{most_facts};

use crate::flat_lists::list_at;
use crate::gather::{needs_by_variable, variables_by_literal};
use crate::needs::Needs;
use crate::search::least_variable;
use clause_base::values::Values;
use containers::memory::Memory;
use containers::{FlatLists, let_go};
use formula_defs::layout::Layout;
use gt_core::task::Task;
use std::alloc::Global;
use std::marker::Model;
use std::sync::Arc;
use step_formula::index::index_of;
use step_formula::template::one_layout;

/// The goal; for each fact literal the variables in the first step of the effects with it, in the order of the effects, and
/// whether each is at most the next one; and for each such variable what has to hold before the step.
struct Blocks {
    goal: Vec<u32>,
    variables: FlatLists<u32>,
    rising: Vec<bool>,
    needs: Needs,
}

/// All parts are let go in one call, so that a proof has one step for it and not one for each part.
impl Drop for Blocks {
    fn drop(self) {
        let_go!(self: Blocks { goal, variables, rising, needs });
    }
}

/// An effect as a supporter of its literal: its variable in the first step, and the literals that have to hold before it, those of
/// its action and its own.
#[derive(Clone, Copy)]
pub(crate) struct Supporter<'a> {
    pub(crate) variable: u32,
    pub(crate) precondition: &'a [u32],
    pub(crate) condition: &'a [u32],
}

/// What choosers look at of a task: the literals of its goal, and the supporters of each fact literal, in blocks that are made
/// once and shared. Contracts see what a choice over some layout is made from: here that of one step without chain variables.
/// For every layout with the same numbers of actions, conditional effects and facts it is the same, but for the layout, since
/// supporters are known by their variables in the first step.
#[derive(Drop)]
pub struct Supporters {
    layout: Layout,
    blocks: Arc<Blocks>,
}

impl Model for Supporters {
    ghost use Rattle.std.specs.Prelude.{◌≡◌, ◌+◌, length};
    ghost use Rattle.std.specs.Arc.{arc_value};
    ghost use Rattle.goal_choice.specs.Means.{Means};
    ghost use Rattle.goal_choice.specs.own.Members.{AreMeans};
    ghost use Rattle.goal_choice.specs.own.Needs.{supporters_in};
    ghost use Rattle.goal_choice.specs.own.Search.{AreMarked};

    ghost Value = { Means };

    ghost view = { λ s. record {
      layout = s.layout;
      goal = (arc_value s.blocks).goal.items;
      supporters = supporters_in (arc_value s.blocks).needs (arc_value s.blocks).variables;
    } };

    ghost invariant = { λ s.
        AreMeans (record { layout = s.layout; goal = (arc_value s.blocks).goal.items; supporters = supporters_in (arc_value s.blocks).needs (arc_value s.blocks).variables })
        × AreMarked (arc_value s.blocks).rising.items (arc_value s.blocks).variables
        × (length (arc_value s.blocks).needs ≡ s.layout.actions + s.layout.conditional) };
}

impl Supporters {
    ghost use Rattle.std.specs.Prelude.{◌≡◌};
    ghost use Rattle.clause_base.specs.Clause.{IsRising};
    ghost use Rattle.goal_choice.specs.own.Members.{AreMeans};

    /// What choosers look at of a task.
    pub fn new(alloc: Global, task: &Task) -> Result<Supporters, Memory>
        ensures { IfOk result (λ s. s ≡ gathered_of task.now) }
    {
        // For the proof: the task is lawful.
        let _lawful = task.facts();
        let layout = one_layout(task, 0);
        let index = index_of(alloc, &layout, task)?;
        let (variables, rising) = variables_by_literal(alloc, &index)?;
        let needs = needs_by_variable(alloc, task)?;
        let mut goal = Vec::with_capacity(alloc, task.goal().len())?;
        goal.extend_from_slice(task.goal())?;
        let blocks = Blocks {
            goal,
            variables,
            rising,
            needs,
        };
        Ok(Supporters {
            layout,
            blocks: Arc::new(alloc, blocks)?,
        })
    }

    /// The same blocks, over another layout with the same numbers of actions, conditional effects and facts.
    pub(crate) fn over(&self, layout: Layout) -> Result<Supporters, Memory>
        requires actions { layout.actions ≡ self.now.layout.actions }
        requires conditional { layout.conditional ≡ self.now.layout.conditional }
        requires facts { layout.facts ≡ self.now.layout.facts }
        ensures { IfOk result (λ s. s ≡ record self.now { layout = layout }) }
    {
        Ok(Supporters {
            layout,
            blocks: Arc::try_clone(&self.blocks)?,
        })
    }

    /// How the variables are numbered.
    pub(crate) fn layout(&self) -> &Layout
        ensures layout { result.now ≡ self.now.layout }
        ensures few { self.now.layout.facts ≤ most_facts }
        ensures kept { AreMeans self.now }
    {
        &self.layout
    }

    /// The literals of the goal, rising.
    pub(crate) fn goal(&self) -> &[u32]
        ensures goal { result.now ≡ self.now.goal }
        ensures rising { IsRising self.now.goal }
        ensures within { AllByRecursion (λ l. l / 2 < self.now.layout.facts) self.now.goal }
    {
        self.blocks.goal.as_slice()
    }

    /// Of the supporters of a literal, that with the least variable among those whose variable has a value in the step that
    /// begins at a variable.
    pub(crate) fn least_with(
        &self,
        lit: u32,
        values: &Values,
        start: u32,
        value: Option<bool>,
    ) -> Option<Supporter<'_>>
        requires lit { lit / 2 < self.now.layout.facts }
        requires within { AllByRecursion (λ s. variable_from start s < length values.now) (slice_index_or self.now.supporters lit []) }
        ensures some { IfSome result (λ s. least_with values.now value start (slice_index_or self.now.supporters lit []) ≡ Some (record { variable = s.variable; needs = s.precondition.now ++ s.condition.now })) }
        ensures none { IfNone result (least_with values.now value start (slice_index_or self.now.supporters lit []) ≡ None) }
    {
        let variables = list_at(&self.blocks.variables, lit as usize);
        let rising = self.blocks.rising[lit as usize];
        match least_variable(variables, rising, values, start, value) {
            None => None,
            Some(variable) => {
                let (precondition, condition) = self.blocks.needs.of(variable as usize);
                Some(Supporter {
                    variable,
                    precondition,
                    condition,
                })
            }
        }
    }
}
