//! Whether what was built is a trie of a task's actions.

ghost use Rattle.std.specs.Prelude.{◌≡◌, ℕ, ◌+◌, ◌≤◌, ◌<◌, true, length, slice_index};
ghost use Rattle.gt_core.specs.Literal.{is_in};
ghost use Rattle.successors.specs.Trie.{IsTrie, IsNode, IsBefore, AreNeeding};

use crate::trie::Trie;
use gt_core::task::Task;

/// Whether a literal is among some.
fn has(lits: &[u32], lit: u32) -> bool
    ensures { result ≡ true → is_in lits.now lit ≡ true }
{
    for other in lits {
        if *other == lit {
            return true;
        }
    }
    false
}

/// Whether a node has a literal of the facts, and later nodes come next.
fn is_node(task: &Task, trie: &Trie, node: usize) -> bool
    requires node { node < length trie.now.lits }
    requires skips { length trie.now.skips ≡ length trie.now.lits }
    requires froms { length trie.now.froms ≡ length trie.now.lits + 1 }
    ensures { result ≡ true → IsNode task.now trie.now node }
{
    let len = trie.len();
    let skip = trie.skip(node);
    let end = trie.from(node + 1);
    trie.lit(node) / 2 < task.facts()
        && node < skip
        && skip <= len
        && trie.from(node) <= end
        && end <= trie.acts.len()
}

/// Whether all nodes are such.
fn are_nodes(task: &Task, trie: &Trie) -> bool
    requires skips { length trie.now.skips ≡ length trie.now.lits }
    requires froms { length trie.now.froms ≡ length trie.now.lits + 1 }
    ensures { result ≡ true → (i : ℕ) → i < length trie.now.lits → IsNode task.now trie.now i }
{
    for node in 0..trie.len() {
        if !is_node(task, trie, node) {
            return false;
        }
    }
    true
}

/// Whether all are numbers of actions.
fn are_actions(task: &Task, trie: &Trie) -> bool
    ensures { result ≡ true → (p : ℕ) → p < length trie.now.acts → slice_index trie.now.acts p < length task.now.actions }
{
    for place in 0..trie.acts.len() {
        if trie.act(place) as usize >= task.acts().len() {
            return false;
        }
    }
    true
}

/// Whether an action stands at its place, which is before a bound.
fn is_there(trie: &Trie, bound: usize, places: &[u32], act: usize) -> bool
    requires { bound ≤ length trie.now.acts }
    ensures { result ≡ true → IsBefore trie.now.acts bound act }
{
    let Some(place) = places.get(act) else {
        return false;
    };
    let place = *place as usize;
    place < bound && trie.act(place) as usize == act
}

/// Whether all actions stand at their places before a bound.
fn are_there(task: &Task, trie: &Trie, bound: usize, places: &[u32]) -> bool
    requires { bound ≤ length trie.now.acts }
    ensures { result ≡ true → (a : ℕ) → a < length task.now.actions → IsBefore trie.now.acts bound a }
{
    for act in 0..task.acts().len() {
        if !is_there(trie, bound, places, act) {
            return false;
        }
    }
    true
}

/// Whether all actions below a node need its literal.
fn are_needing(task: &Task, trie: &Trie, node: usize) -> bool
    requires node { IsNode task.now trie.now node }
    requires within { node < length trie.now.lits }
    requires skips { length trie.now.skips ≡ length trie.now.lits }
    requires froms { length trie.now.froms ≡ length trie.now.lits + 1 }
    requires acts { (p : ℕ) → p < length trie.now.acts → slice_index trie.now.acts p < length task.now.actions }
    ensures { result ≡ true → AreNeeding task.now trie.now node }
{
    let lit = trie.lit(node);
    let end = trie.from(trie.skip(node)).min(trie.acts.len());
    if trie.from(trie.skip(node)) > end {
        return false;
    }
    for place in trie.from(node)..end {
        if !has(task.act(trie.act(place)).pre(), lit) {
            return false;
        }
    }
    true
}

/// Whether that is so for all nodes.
fn are_all_needing(task: &Task, trie: &Trie) -> bool
    requires nodes { (i : ℕ) → i < length trie.now.lits → IsNode task.now trie.now i }
    requires skips { length trie.now.skips ≡ length trie.now.lits }
    requires froms { length trie.now.froms ≡ length trie.now.lits + 1 }
    requires acts { (p : ℕ) → p < length trie.now.acts → slice_index trie.now.acts p < length task.now.actions }
    ensures { result ≡ true → (i : ℕ) → i < length trie.now.lits → AreNeeding task.now trie.now i }
{
    for node in 0..trie.len() {
        if !are_needing(task, trie, node) {
            return false;
        }
    }
    true
}

/// Whether there are as many places as nodes ask for, and the actions that are in no node, and all of them, are there.
fn is_shaped(trie: &Trie) -> bool
    ensures skips { result ≡ true → length trie.now.skips ≡ length trie.now.lits }
    ensures froms { result ≡ true → length trie.now.froms ≡ length trie.now.lits + 1 }
    ensures first { result ≡ true → slice_index trie.now.froms 0 ≤ length trie.now.acts }
    ensures last { result ≡ true → slice_index trie.now.froms (length trie.now.lits) ≤ length trie.now.acts }
{
    let len = trie.lits.len();
    if trie.skips.len() != len || trie.froms.len() <= len || trie.froms.len() - 1 != len {
        return false;
    }
    trie.froms[0] as usize <= trie.acts.len() && trie.froms[len] as usize <= trie.acts.len()
}

/// Whether the nodes and the actions are those of a trie, and each action stands at its place.
pub(crate) fn is_trie(task: &Task, trie: &Trie, places: &[u32]) -> bool
    ensures { result ≡ true → IsTrie task.now trie.now }
{
    if !is_shaped(trie) || !are_nodes(task, trie) || !are_actions(task, trie) {
        return false;
    }
    if !are_there(task, trie, trie.from(trie.len()), places) {
        return false;
    }
    are_all_needing(task, trie)
}
