//! The chains of a task.
ghost use Rattle.std.specs.Prelude.{◌≡◌, ◌+◌, ◌*◌, ◌/◌, ◌<◌, ◌≤◌, ◌==◌, List, ℕ, Bool, false, true, [], ◌∷◌, reverse, length, IfOk, OnOk};
ghost use Rattle.std.specs.List.{flat_map, AllByRecursion};
ghost use Rattle.gt_core.specs.Task.{Task as TaskValue};
ghost use Rattle.gt_core.specs.Literal.{range};
ghost use Rattle.gt_core.specs.Published.{Pairwise, order_of};
ghost use Rattle.formula_defs.specs.Layout.{Layout as LayoutValue, action_at, chain_at};
ghost use Rattle.formula_defs.specs.Variables.{chain_places, chains};
ghost use Rattle.formula_defs.specs.Formula.{chain_clauses};
ghost use Rattle.formula_defs.specs.Coded.{coded, literals_in};
ghost use Rattle.step_chains.specs.own.Touching.{links_of};
ghost use Rattle.step_chains.specs.BothWays.{ways, ways_in, all_places};
ghost use Rattle.step_chains.specs.Chains.{AreChains, AreWithin, Extends, HasRoom, links_in, all_clauses};
ghost use Rattle.gt_core.specs.Limits.{most_actions};

use crate::chain::{Chain, chain_size, count};
use crate::index::{LinkIndex, literals};
use crate::link::Link;
use action_order::order::Order;
use containers::let_go;
use containers::memory::Memory;
use gt_core::task::Task;
use std::alloc::Global;
use std::marker::Model;

/// The chains of a task that have a variable, in the order in which they were added, with as many links as
/// 1,073,741,824 at most.
pub struct Chains {
    actions: u32,
    chains: Vec<Chain>,
    variables: u32,
}

impl Drop for Chains {
    fn drop(self) {
        let_go!(self: Chains { actions, chains, variables });
    }
}

impl Model for Chains {
    ghost use Rattle.step_chains.specs.Chains.{LinkedChains, AreWithin};

    ghost Value = { LinkedChains };

    ghost view = { λ c. record { actions = c.actions; chains = c.chains.items; variables = c.variables } };

    ghost invariant = { λ c. AreWithin (record { actions = c.actions; chains = c.chains.items; variables = c.variables }) };
}

impl Chains {
    ghost use Rattle.step_chains.specs.Chains.{no_chains};

    /// No chain yet.
    pub fn new(alloc: Global, task: &Task) -> Chains
        ensures { result ≡ no_chains (length task.now.actions) }
    {
        Chains {
            actions: task.acts().len() as u32,
            chains: Vec::new(alloc),
            variables: 0,
        }
    }

    /// The chains of exists-steps: those of each component of an order of the task's actions, component after component
    /// and literal after literal.
    pub fn find(alloc: Global, task: &Task, order: &Order) -> Result<Chains, Memory>
        requires members { AllByRecursion (λ ks. AllByRecursion (λ a. a < length task.now.actions) ks) order.now }
        requires distinct { AllByRecursion (λ ks. Pairwise (λ a b. (a == b) ≡ false) ks) order.now }
        ensures { IfOk result (λ c. AreChains task.now (chain_places task.now order.now) c) }
    {
        let mut chains = Chains::new(alloc, task);
        let mut index = LinkIndex::new(alloc, task.facts())?;
        for members in order.groups() {
            chains.add_component(alloc, task, members.as_slice(), &mut index)?;
        }
        Ok(chains)
    }

    /// The chains of all-steps: for each literal, those of all actions of an order, forward and then backward.
    pub fn find_both_ways(alloc: Global, task: &Task, order: &Order) -> Result<Chains, Memory>
        requires members { AllByRecursion (λ ks. AllByRecursion (λ a. a < length task.now.actions) ks) order.now }
        requires distinct { Pairwise (λ a b. (a == b) ≡ false) (order_of order.now) }
        ensures { IfOk result (λ c. AreChains task.now (all_places task.now order.now) c) }
    {
        let actions = all_actions(alloc, order)?;
        let mut chains = Chains::new(alloc, task);
        let mut index = LinkIndex::new(alloc, task.facts())?;
        chains.add_members(alloc, task, actions.as_slice(), &mut index, true)?;
        Ok(chains)
    }

    /// How many chain variables there are.
    pub fn variables(&self) -> u32
        ensures count { result ≡ self.now.variables }
        ensures lawful { AreWithin self.now }
    {
        self.variables
    }

    /// How many literals the clauses of the chains have in one step, whatever the layout.
    pub fn size(&self) -> u64
        ensures added { (z : LayoutValue) → z.actions ≡ self.now.actions → result ≡ literals_in (coded (all_clauses (action_at z 0) (chain_at z 0) self.now.chains)) }
        ensures of_task { (task : TaskValue) (places : List (List ℕ × ℕ)) (z : LayoutValue) → AreChains task places self.now → z.actions ≡ length task.actions → result ≡ literals_in (coded (chain_clauses (action_at z 0) (chain_at z 0) task (chains task places))) }
        ensures few { result ≤ 6442450944 }
    {
        let mut size = 0;
        for chain in self.as_slice() {
            size += chain_size(chain.links.as_slice());
        }
        size
    }

    /// Adds the chain over these links, if it has a variable.
    pub fn add(&mut self, alloc: Global, links: &[Link]) -> Result<(), Memory>
        requires actions { AllByRecursion (λ k. k.action < self.old.actions) links.now }
        requires room { HasRoom self.old (length links.now) }
        ensures added { OnOk result ((task : TaskValue) (members : List ℕ) (m : ℕ) → links.now ≡ links_of task m members → Extends task ((members, m) ∷ []) self.old self.new) }
        ensures actions { self.new.actions ≡ self.old.actions }
        ensures few { links_in self.new.chains ≤ links_in self.old.chains + length links.now }
    {
        let count = count(links);
        if count == 0 {
            return Ok(());
        }
        let first = self.variables;
        let links = Vec::from_slice(alloc, links)?;
        self.chains.push(Chain { first, links })?;
        self.variables = first + count as u32;
        Ok(())
    }

    /// The chains.
    pub(crate) fn as_slice(&self) -> &[Chain]
        ensures chains { result.now ≡ self.now.chains }
        ensures lawful { AreWithin self.now }
    {
        self.chains.as_slice()
    }

    /// Adds the chains of a component; one of a single member has none.
    fn add_component(
        &mut self,
        alloc: Global,
        task: &Task,
        members: &[u32],
        index: &mut LinkIndex,
    ) -> Result<(), Memory>
        requires members { AllByRecursion (λ a. a < length task.now.actions) members.now }
        requires distinct { Pairwise (λ a b. (a == b) ≡ false) members.now }
        requires actions { self.old.actions ≡ length task.now.actions }
        requires index { length index.old ≡ 2 * task.now.facts }
        requires room { HasRoom self.old (4096 * length members.now) }
        ensures added { OnOk result (Extends task.now (chain_places task.now (members.now ∷ [])) self.old self.new) }
        ensures index { OnOk result (length index.new ≡ 2 * task.now.facts) }
    {
        if members.len() < 2 {
            return Ok(());
        }
        self.add_members(alloc, task, members, index, false)?;
        Ok(())
    }

    /// Adds the chains of some actions, literal after literal: those in their order and, if so asked, each time then those
    /// in the reverse order.
    fn add_members(
        &mut self,
        alloc: Global,
        task: &Task,
        members: &[u32],
        index: &mut LinkIndex,
        both: bool,
    ) -> Result<(), Memory>
        requires members { AllByRecursion (λ a. a < length task.now.actions) members.now }
        requires distinct { Pairwise (λ a b. (a == b) ≡ false) members.now }
        requires actions { self.old.actions ≡ length task.now.actions }
        requires index { length index.old ≡ 2 * task.now.facts }
        requires room { HasRoom self.old (4096 * ways_in both (length members.now)) }
        ensures added { OnOk result (Extends task.now (flat_map (ways both members.now) (range (2 * task.now.facts))) self.old self.new) }
        ensures index { OnOk result (length index.new ≡ 2 * task.now.facts) }
    {
        index.fill(task, members)?;
        let end = literals(task);
        let mut m = index.next(0, end);
        while m < end {
            self.add_ways(alloc, index.links(m), both)?;
            let after = index.next(m + 1, end);
            m = after;
        }
        Ok(())
    }

    /// Adds the chain over these links and, if so asked, then the one over them in the reverse order.
    fn add_ways(&mut self, alloc: Global, links: &[Link], both: bool) -> Result<(), Memory>
        requires actions { AllByRecursion (λ k. k.action < self.old.actions) links.now }
        requires room { HasRoom self.old (ways_in both (length links.now)) }
        ensures { OnOk result ((task : TaskValue) (members : List ℕ) (m : ℕ) → links.now ≡ links_of task m members → Extends task (ways both members m) self.old self.new) }
    {
        self.add(alloc, links)?;
        if both {
            self.add_backward(alloc, links)?;
        }
        Ok(())
    }

    /// Adds the chain over these links in the reverse order, if it has a variable.
    fn add_backward(&mut self, alloc: Global, links: &[Link]) -> Result<(), Memory>
        requires actions { AllByRecursion (λ k. k.action < self.old.actions) links.now }
        requires room { HasRoom self.old (length links.now) }
        ensures { OnOk result ((task : TaskValue) (members : List ℕ) (m : ℕ) → links.now ≡ links_of task m members → Extends task ((reverse members, m) ∷ []) self.old self.new) }
    {
        let mut back = Vec::from_slice(alloc, links)?;
        back.reverse();
        self.add(alloc, back.as_slice())?;
        Ok(())
    }
}

/// The actions of an order, one after the other.
fn all_actions(alloc: Global, order: &Order) -> Result<Vec<u32>, Memory>
    ensures all { IfOk result (λ actions. actions.items ≡ order_of order.now) }
    ensures few { length (order_of order.now) ≤ most_actions }
{
    let mut actions = Vec::new(alloc);
    for group in order.groups() {
        actions.extend_from_slice(group.as_slice())?;
    }
    Ok(actions)
}
