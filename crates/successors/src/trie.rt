//! Actions in a trie by their preconditions.
//!
//! The nodes stand in preorder. Where the literal of a node holds in a state, its actions can run as far as the literals on the way
//! to it tell, and the next node comes next; else all nodes below it are passed over.

ghost use Rattle.std.specs.Prelude.{◌≡◌, ℕ, ◌<◌, ◌≤◌, length, slice_index, IfOk};
ghost use Rattle.successors.specs.Trie.{IsTrie};

use crate::build::{Growing, grown};
use crate::check::is_trie;
use crate::row::tells;
use containers::memory::Memory;
use gt_core::task::Task;
use std::alloc::Global;
use std::marker::Model;

/// For each node its literal, the node that comes next where the literal does not hold, and where the node's actions begin; at the
/// end where they all end. The actions, those first that belong to no node.
pub struct Trie {
    pub(crate) lits: Vec<u32>,
    pub(crate) skips: Vec<u32>,
    pub(crate) froms: Vec<u32>,
    pub(crate) acts: Vec<u32>,
}

impl Model for Trie {
    ghost use Rattle.successors.specs.Trie.{Branches};

    ghost Value = { Branches };

    ghost view = { λ t. record { lits = t.lits.items; skips = t.skips.items; froms = t.froms.items; acts = t.acts.items } };
}

impl Drop for Trie {
    fn drop(self) {
        let Trie {
            lits: _,
            skips: _,
            froms: _,
            acts: _,
        } = self;
    }
}

impl Trie {
    /// The actions of a task in a trie.
    pub fn new(alloc: Global, task: &Task) -> Result<Trie, Memory>
        ensures { IfOk result (λ t. IsTrie task.now t) }
    {
        let Growing { trie, places } = grown(alloc, task)?;
        if is_trie(task, &trie, &places) {
            return Ok(trie);
        }
        flat(alloc, task)
    }

    /// How many nodes there are.
    #[inline(always)]
    pub fn len(&self) -> usize
        ensures { result ≡ length self.now.lits }
    {
        self.lits.len()
    }

    /// The literal of a node.
    #[inline(always)]
    pub fn lit(&self, node: usize) -> u32
        requires { node < length self.now.lits }
        ensures { result ≡ slice_index self.now.lits node }
    {
        self.lits[node]
    }

    /// The node that comes next where the literal of a node does not hold.
    #[inline(always)]
    pub fn skip(&self, node: usize) -> usize
        requires { node < length self.now.skips }
        ensures { result ≡ slice_index self.now.skips node }
    {
        self.skips[node] as usize
    }

    /// Where the actions of a node begin.
    #[inline(always)]
    pub fn from(&self, node: usize) -> usize
        requires { node < length self.now.froms }
        ensures { result ≡ slice_index self.now.froms node }
    {
        self.froms[node] as usize
    }

    /// The action at a place.
    #[inline(always)]
    pub fn act(&self, place: usize) -> u32
        requires { place < length self.now.acts }
        ensures { result ≡ slice_index self.now.acts place }
    {
        self.acts[place]
    }
}

impl Trie {
    /// Lists the actions between two places.
    fn add(&self, from: usize, to: usize, into: &mut Vec<u32>) -> Result<(), Memory> {
        for place in from..to {
            if let Some(act) = self.acts.get(place) {
                into.push(*act)?;
            }
        }
        Ok(())
    }

    /// The node that comes after one in the state of a row; past the last one there is none.
    #[inline(always)]
    fn after(&self, node: usize, row: &[u64]) -> Option<usize> {
        let lit = *self.lits.get(node)?;
        if tells(row, lit) {
            return Some(node);
        }
        Some(*self.skips.get(node)? as usize)
    }

    /// Lists the actions that can run in the state of a row, for one who proposes them. No clause says that these are all.
    pub fn list(&self, row: &[u64], into: &mut Vec<u32>) -> Result<(), Memory> {
        into.clear();
        if let Some(first) = self.froms.first() {
            self.add(0, *first as usize, into)?;
        }
        let mut node = 0usize;
        for _turn in 0..self.lits.len() {
            let Some(next) = self.after(node, row) else {
                break;
            };
            if next == node
                && let Some(from) = self.froms.get(node)
                && let Some(to) = self.froms.get(node.saturating_add(1))
            {
                self.add(*from as usize, *to as usize, into)?;
            }
            node = next.max(node.saturating_add(1));
        }
        Ok(())
    }
}

/// The numbers of the actions.
fn numbers(alloc: Global, task: &Task) -> Result<Vec<u32>, Memory>
    ensures long { IfOk result (λ ns. length ns.items ≡ length task.now.actions) }
    ensures few { IfOk result (λ ns. length ns.items ≤ 4294967295) }
    ensures each { IfOk result (λ ns. (p : ℕ) → p < length ns.items → slice_index ns.items p ≡ p) }
{
    let mut acts = Vec::new(alloc);
    for act in 0..task.acts().len() as u32 {
        acts.push(act)?;
    }
    Ok(acts)
}

/// A trie without nodes: no action is ever left out.
fn flat(alloc: Global, task: &Task) -> Result<Trie, Memory>
    ensures { IfOk result (λ t. IsTrie task.now t) }
{
    let acts = numbers(alloc, task)?;
    let mut froms = Vec::new(alloc);
    froms.push(acts.len() as u32)?;
    Ok(Trie {
        lits: Vec::new(alloc),
        skips: Vec::new(alloc),
        froms,
        acts,
    })
}
