//! Building of a trie. What comes of it is tested before it is used, so no clause speaks of it.

use crate::trie::Trie;
use containers::memory::Memory;
use gt_core::task::Task;
use std::alloc::Global;

/// No node, or no action.
const NONE: u32 = 4_294_967_295;

/// A trie, and for each action its place in it.
#[derive(Drop)]
pub(crate) struct Growing {
    pub(crate) trie: Trie,
    pub(crate) places: Vec<u32>,
}

/// A node: its literal, its first child, the next child of its parent, its parent, and the first of its actions.
#[derive(Clone, Copy)]
struct Branch {
    lit: u32,
    child: u32,
    beside: u32,
    above: u32,
    first: u32,
}

/// The nodes, of which the first one is above all others, for each action the next one of its node, and for each literal how many
/// actions need it.
#[derive(Drop)]
struct Tree {
    nodes: Vec<Branch>,
    nexts: Vec<u32>,
    counts: Vec<u32>,
}

/// A node without literal, children and actions.
fn bare() -> Branch {
    Branch {
        lit: NONE,
        child: NONE,
        beside: NONE,
        above: NONE,
        first: NONE,
    }
}

/// A number of 32 bits, the last one for all that are greater.
fn small(number: usize) -> u32 {
    number.min(4_294_967_295) as u32
}

impl Tree {
    /// A node; an empty one where there is none.
    fn node(&self, number: u32) -> Branch {
        match self.nodes.get(number as usize) {
            Some(node) => *node,
            None => bare(),
        }
    }

    /// The child of a node with a literal.
    fn child(&self, above: u32, lit: u32) -> u32 {
        let mut child = self.node(above).child;
        for _turn in 0..self.nodes.len() {
            if child == NONE || self.node(child).lit == lit {
                return child;
            }
            child = self.node(child).beside;
        }
        NONE
    }

    /// The child of a node with a literal, which is made where there is none.
    fn child_for(&mut self, above: u32, lit: u32) -> Result<u32, Memory> {
        let child = self.child(above, lit);
        if child != NONE {
            return Ok(child);
        }
        let number = small(self.nodes.len());
        let beside = self.node(above).child;
        self.nodes.push(Branch {
            lit,
            child: NONE,
            beside,
            above,
            first: NONE,
        })?;
        if let Some(node) = self.nodes.get_mut(above as usize) {
            node.child = number;
        }
        Ok(number)
    }

    /// Counts an action at the literals that it needs.
    fn count(&mut self, lits: &[u32]) {
        for lit in lits {
            if let Some(count) = self.counts.get_mut(*lit as usize) {
                *count = count.saturating_add(1);
            }
        }
    }

    /// A literal with its place in the order: those that most actions need come first, so that many actions are passed over at once.
    fn key_of(&self, lit: u32) -> u64 {
        let count = match self.counts.get(lit as usize) {
            Some(count) => *count,
            None => 0,
        };
        u64::from(4_294_967_295 - count) * 4_294_967_296 + u64::from(lit)
    }

    /// Puts an action at the end of the way of its literals.
    fn put(&mut self, act: u32, lits: &[u32], keys: &mut Vec<u64>) -> Result<(), Memory> {
        keys.clear();
        for lit in lits {
            keys.push(self.key_of(*lit))?;
        }
        keys.sort_unstable();
        let mut at = 0u32;
        for key in keys.as_slice() {
            at = self.child_for(at, (*key % 4_294_967_296) as u32)?;
        }
        let next = self.node(at).first;
        if let Some(place) = self.nexts.get_mut(act as usize) {
            *place = next;
        }
        if let Some(node) = self.nodes.get_mut(at as usize) {
            node.first = act;
        }
        Ok(())
    }
}

impl Growing {
    /// Adds the actions of a node.
    fn add_actions(&mut self, tree: &Tree, first: u32) -> Result<(), Memory> {
        let mut act = first;
        for _turn in 0..tree.nexts.len() {
            let Some(next) = tree.nexts.get(act as usize) else {
                break;
            };
            if let Some(place) = self.places.get_mut(act as usize) {
                *place = small(self.trie.acts.len());
            }
            self.trie.acts.push(act)?;
            act = *next;
        }
        Ok(())
    }

    /// Adds a node.
    fn add_node(&mut self, tree: &Tree, node: Branch) -> Result<(), Memory> {
        self.trie.lits.push(node.lit)?;
        self.trie.skips.push(0)?;
        self.trie.froms.push(small(self.trie.acts.len()))?;
        self.add_actions(tree, node.first)
    }

    /// All nodes below one were added.
    fn close(&mut self, place: u32) {
        let end = small(self.trie.lits.len());
        if let Some(skip) = self.trie.skips.get_mut(place as usize) {
            *skip = end;
        }
    }

    /// Adds all nodes below the first one in preorder. `orders` has the places of the nodes.
    fn add_all(&mut self, tree: &Tree, orders: &mut [u32]) -> Result<(), Memory> {
        let mut at = tree.node(0).child;
        let mut fresh = true;
        for _turn in 0..2 * tree.nodes.len() {
            if at == NONE || at == 0 {
                break;
            }
            let node = tree.node(at);
            if fresh {
                if let Some(order) = orders.get_mut(at as usize) {
                    *order = small(self.trie.lits.len());
                }
                self.add_node(tree, node)?;
            }
            if fresh && node.child != NONE {
                at = node.child;
                continue;
            }
            self.close(orders.get(at as usize).copied().unwrap_or(NONE));
            fresh = node.beside != NONE;
            at = if fresh { node.beside } else { node.above };
        }
        Ok(())
    }
}

/// The nodes of all actions.
fn tree_of(alloc: Global, task: &Task) -> Result<Tree, Memory> {
    let mut tree = Tree {
        nodes: Vec::new(alloc),
        nexts: vec![in alloc; NONE; task.acts().len()]?,
        counts: vec![in alloc; 0; 2 * task.facts() as usize]?,
    };
    tree.nodes.push(bare())?;
    for act in task.acts() {
        tree.count(act.pre());
    }
    let mut keys = Vec::new(alloc);
    // The last action first, since each comes before those that are there.
    let count = task.acts().len();
    for done in 0..count {
        let act = count - 1 - done;
        tree.put(small(act), task.acts()[act].pre(), &mut keys)?;
    }
    Ok(tree)
}

/// The actions of a task in a trie, and their places.
pub(crate) fn grown(alloc: Global, task: &Task) -> Result<Growing, Memory> {
    let tree = tree_of(alloc, task)?;
    let mut orders = vec![in alloc; NONE; tree.nodes.len()]?;
    let mut all = Growing {
        trie: Trie {
            lits: Vec::new(alloc),
            skips: Vec::new(alloc),
            froms: Vec::new(alloc),
            acts: Vec::new(alloc),
        },
        places: vec![in alloc; NONE; task.acts().len()]?,
    };
    all.add_actions(&tree, tree.node(0).first)?;
    all.add_all(&tree, &mut orders)?;
    all.trie.froms.push(small(all.trie.acts.len()))?;
    Ok(all)
}
