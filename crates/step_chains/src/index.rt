//! For each fact literal, the actions that touch it.
ghost use Rattle.std.specs.Prelude.{◌≡◌, ◌≢◌, ℕ, ◌+◌, ◌*◌, ◌/◌, ◌<◌, ◌≤◌, ◌==◌, ◌||◌, ◌&&◌, not, false, true, [], length, replicate, slice_index_or, if◌then◌else◌, IfOk, OnOk};
ghost use Rattle.std.specs.List.{list_any, AllByRecursion};
ghost use Rattle.bit_sets.specs.Rows.{row_has};
ghost use Rattle.gt_core.specs.Literal.{opposite, is_in};
ghost use Rattle.gt_core.specs.Lawful.{is_task};
ghost use Rattle.gt_core.specs.Interference.{takes, reads};
ghost use Rattle.gt_core.specs.Active.{EffectWithin};
ghost use Rattle.gt_core.specs.Published.{Pairwise};
ghost use Rattle.step_chains.specs.own.Index.{Marks, AreTouched, HasNoOther};
ghost use Rattle.gt_core.specs.Limits.{most_facts};

use crate::link::{Link, Links, mark};
use bit_sets::row::BitRow;
use containers::equal::items_of;
use containers::let_go;
use containers::memory::Memory;
use gt_core::eff::Eff;
use gt_core::lits::opposite;
use gt_core::task::Task;
use std::alloc::Global;
use std::marker::Model;

/// For each fact literal, the links of the actions that touch it, in the order of the actions. To fill it, and to go over
/// its links, takes time by the number of literals in the actions.
pub struct LinkIndex {
    lists: Vec<Links>,
    touched: BitRow,
}

impl Drop for LinkIndex {
    fn drop(self) {
        let_go!(self: LinkIndex { lists, touched });
    }
}

impl Model for LinkIndex {
    ghost use Rattle.std.specs.Prelude.{List};
    ghost use Rattle.step_chains.specs.declared.link.Link.{Link};
    ghost use Rattle.step_chains.specs.own.Index.{AreTouched, HasNoOther};

    ghost Value = { List (List Link) };

    ghost view = { λ i. i.lists.items };

    ghost invariant = { λ i. AreTouched i.touched i.lists.items × HasNoOther i.touched i.lists.items };
}

/// How many fact literals a task has.
pub fn literals(task: &Task) -> u32
    ensures value { result ≡ 2 * task.now.facts }
    ensures lawful { is_task task.now ≡ true }
{
    2 * task.facts()
}

/// So many empty lists.
fn empty_lists(alloc: Global, count: usize) -> Result<Vec<Links>, Memory>
    ensures { IfOk result (λ lists. lists.items ≡ replicate count []) }
{
    Ok(items_of(
        alloc,
        count,
        move ||
            ensures { result ≡ [] }
        { Links::new(alloc) },
    )?)
}

/// The least number of a row that is at least `from`, or `end` if there is none below it.
fn next_touched(touched: &BitRow, from: u32, end: u32) -> u32
    requires { from ≤ end }
    ensures from { from ≤ result }
    ensures within { result ≤ end }
    ensures none { (k : ℕ) → from ≤ k → k < result → row_has touched.now k ≡ false }
    ensures some { result < end → row_has touched.now result ≡ true }
{
    match touched.least(from) {
        Some(lit) => { if lit < end { lit } else { end } }
        None => end,
    }
}

/// Takes all links out of lists, of which the touched ones may have some.
fn clear_touched(lists: &mut Vec<Links>, touched: &BitRow, count: u32)
    requires long { length lists.old.items ≡ count }
    requires touched { AreTouched touched.now lists.old.items }
    ensures long { length lists.new.items ≡ length lists.old.items }
    ensures empty { (k : ℕ) → slice_index_or lists.new.items k [] ≡ [] }
{
    let mut lit = next_touched(touched, 0, count);
    while lit < count {
        lists[lit as usize].clear();
        let next = next_touched(touched, lit + 1, count);
        lit = next;
    }
}

/// Takes a literal out of a row where its list is empty.
fn take_out_if_empty(links: &Links, touched: &mut BitRow, lit: u32)
    ensures some { links.now ≢ [] → (k : ℕ) → row_has touched.new k ≡ row_has touched.old k }
    ensures none { links.now ≡ [] → (k : ℕ) → row_has touched.new k ≡ (not (lit == k) && row_has touched.old k) }
{
    if links.as_slice().is_empty() {
        touched.remove(lit);
    }
}

/// Notes that an action takes a literal, or reads it.
fn mark_in(lists: &mut Vec<Links>, touched: &mut BitRow, lit: u32, link: Link) -> Result<(), Memory>
    requires some { (link.takes || link.reads) ≡ true }
    requires lit { lit < length lists.old.items }
    requires touched { AreTouched touched.old lists.old.items }
    requires no_other { HasNoOther touched.old lists.old.items }
    ensures long { length lists.new.items ≡ length lists.old.items }
    ensures touched { AreTouched touched.new lists.new.items }
    ensures no_other { HasNoOther touched.new lists.new.items }
    ensures marks { OnOk result (Marks link.action (λ l. if lit == l then link.takes else false) (λ l. if lit == l then link.reads else false) lists.old.items lists.new.items) }
{
    touched.insert(lit)?;
    let links = &mut lists[lit as usize];
    match mark(links, link.action, link.takes, link.reads) {
        Ok(()) => Ok(()),
        Err(Memory) => {
            take_out_if_empty(links, touched, lit);
            Err(Memory)
        }
    }
}

impl LinkIndex {
    ghost use Rattle.step_chains.specs.own.Index.{IsIndexOf};

    /// An index of no action, over so many facts.
    pub fn new(alloc: Global, facts: u32) -> Result<LinkIndex, Memory>
        requires { facts ≤ most_facts }
        ensures { IfOk result (λ index. length index ≡ 2 * facts) }
    {
        let lists = empty_lists(alloc, 2 * facts as usize)?;
        Ok(LinkIndex {
            lists,
            touched: BitRow::new(alloc),
        })
    }

    /// The links of a literal.
    pub fn links(&self, lit: u32) -> &[Link]
        requires { lit < length self.now }
        ensures { result.now ≡ slice_index_or self.now lit [] }
    {
        self.lists[lit as usize].as_slice()
    }

    /// The first literal from one on that an action touches, or `end` if there is none below it.
    pub fn next(&self, from: u32, end: u32) -> u32
        requires { from ≤ end }
        ensures from { from ≤ result }
        ensures within { result ≤ end }
        ensures none { (k : ℕ) → from ≤ k → k < result → slice_index_or self.now k [] ≡ [] }
        ensures touched { result < end → slice_index_or self.now result [] ≢ [] }
    {
        next_touched(&self.touched, from, end)
    }

    /// Makes this the index of these actions, in their order.
    pub fn fill(&mut self, task: &Task, members: &[u32]) -> Result<(), Memory>
        requires long { length self.old ≡ 2 * task.now.facts }
        requires members { AllByRecursion (λ a. a < length task.now.actions) members.now }
        requires distinct { Pairwise (λ a b. (a == b) ≡ false) members.now }
        ensures { OnOk result (IsIndexOf task.now members.now self.new) }
    {
        self.clear(literals(task));
        for a in members {
            self.add(task, *a)?;
        }
        Ok(())
    }

    /// Takes all links out of the lists of so many literals.
    fn clear(&mut self, count: u32)
        requires { length self.old ≡ count }
        ensures long { length self.new ≡ length self.old }
        ensures empty { AllByRecursion (λ links. links ≡ []) self.new }
    {
        clear_touched(&mut self.lists, &self.touched, count);
        self.touched.clear();
    }

    /// Adds an action.
    fn add(&mut self, task: &Task, a: u32) -> Result<(), Memory>
        requires long { length self.old ≡ 2 * task.now.facts }
        requires a { a < length task.now.actions }
        ensures long { length self.new ≡ length self.old }
        ensures marks { OnOk result (Marks a (λ l. takes task.now l a) (λ l. reads task.now l a) self.old self.new) }
    {
        let act = task.act(a);
        self.add_takers(a, act.effects())?;
        self.add_readers(a, act.pre())?;
        self.add_conditions(a, act.effects())?;
        Ok(())
    }

    /// Notes the literals that an action's effects take away.
    fn add_takers(&mut self, a: u32, effects: &[Eff]) -> Result<(), Memory>
        requires { AllByRecursion (λ e. opposite e.literal < length self.old) effects.now }
        ensures long { length self.new ≡ length self.old }
        ensures marks { OnOk result (Marks a (λ l. list_any (λ e. e.literal == opposite l) effects.now) (λ _. false) self.old self.new) }
    {
        for effect in effects {
            self.mark_taker(a, opposite(effect.lit()))?;
        }
        Ok(())
    }

    /// Notes the literals that an action has in its precondition.
    fn add_readers(&mut self, a: u32, lits: &[u32]) -> Result<(), Memory>
        requires { AllByRecursion (λ l. l < length self.old) lits.now }
        ensures long { length self.new ≡ length self.old }
        ensures marks { OnOk result (Marks a (λ _. false) (λ l. is_in lits.now l) self.old self.new) }
    {
        for lit in lits {
            self.mark_reader(a, *lit)?;
        }
        Ok(())
    }

    /// Notes the literals of the facts in an action's effect conditions.
    fn add_conditions(&mut self, a: u32, effects: &[Eff]) -> Result<(), Memory>
        requires { AllByRecursion (λ e. AllByRecursion (λ c. 2 * (c / 2) + 1 < length self.old) e.condition) effects.now }
        ensures long { length self.new ≡ length self.old }
        ensures marks { OnOk result (Marks a (λ _. false) (λ l. list_any (λ e. list_any (λ c. c / 2 == l / 2) e.condition) effects.now) self.old self.new) }
    {
        for effect in effects {
            self.add_condition(a, effect.cond())?;
        }
        Ok(())
    }

    /// Notes the literals of the facts of these literals.
    fn add_condition(&mut self, a: u32, lits: &[u32]) -> Result<(), Memory>
        requires { AllByRecursion (λ c. 2 * (c / 2) + 1 < length self.old) lits.now }
        ensures long { length self.new ≡ length self.old }
        ensures marks { OnOk result (Marks a (λ _. false) (λ l. list_any (λ c. c / 2 == l / 2) lits.now) self.old self.new) }
    {
        for lit in lits {
            self.mark_fact(a, *lit)?;
        }
        Ok(())
    }

    /// Notes that an action reads both literals of a literal's fact.
    fn mark_fact(&mut self, a: u32, lit: u32) -> Result<(), Memory>
        requires { 2 * (lit / 2) + 1 < length self.old }
        ensures long { length self.new ≡ length self.old }
        ensures marks { OnOk result (Marks a (λ _. false) (λ l. lit / 2 == l / 2) self.old self.new) }
    {
        let add = lit - lit % 2;
        self.mark_reader(a, add)?;
        self.mark_reader(a, add + 1)?;
        Ok(())
    }

    /// Notes that an action takes a literal, or reads it.
    fn mark(&mut self, action: u32, lit: u32, takes: bool, reads: bool) -> Result<(), Memory>
        requires some { (takes || reads) ≡ true }
        requires lit { lit < length self.old }
        ensures long { length self.new ≡ length self.old }
        ensures marks { OnOk result (Marks action (λ l. if lit == l then takes else false) (λ l. if lit == l then reads else false) self.old self.new) }
    {
        let link = Link {
            action,
            takes,
            reads,
        };
        mark_in(&mut self.lists, &mut self.touched, lit, link)
    }

    /// Notes that an action takes a literal away.
    fn mark_taker(&mut self, a: u32, lit: u32) -> Result<(), Memory>
        requires { lit < length self.old }
        ensures long { length self.new ≡ length self.old }
        ensures marks { OnOk result (Marks a (λ l. lit == l) (λ _. false) self.old self.new) }
    {
        self.mark(a, lit, true, false)?;
        Ok(())
    }

    /// Notes that an action reads a literal.
    fn mark_reader(&mut self, a: u32, lit: u32) -> Result<(), Memory>
        requires { lit < length self.old }
        ensures long { length self.new ≡ length self.old }
        ensures marks { OnOk result (Marks a (λ _. false) (λ l. lit == l) self.old self.new) }
    {
        self.mark(a, lit, false, true)?;
        Ok(())
    }
}
