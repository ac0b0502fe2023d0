// The walk in depth through the tree of types.
ghost use Rattle.std.specs.Prelude.{◌≡◌, ◌<◌, ◌^◌, ◌+◌, ℕ, List, IfOk, IsTrue, false, length, slice_index};
ghost use Rattle.pd_model.specs.Types.{parents_of};
ghost use Rattle.pd_model.specs.own.TypeTree.{IsTypeTree};
ghost use Rattle.pd_model.specs.own.Walk.{AreRooted, AreChains, IsWalk, to_do};

use crate::{Memory, TypeDecl};
use std::alloc::Global;

/// The parent of a type.
fn parent_of(types: &[TypeDecl], kind: u32) -> u32
    ensures { result ≡ slice_index (parents_of types.now) kind }
{
    match types.get(kind as usize) {
        Some(declared) => declared.parent,
        None => 0,
    }
}

/// For each type its last child, and the child of its parent that comes before it; 0 where there is none.
#[derive(Drop)]
struct Chains {
    last: Vec<u32>,
    before: Vec<u32>,
}

/// Chains the children of each type.
fn chain_children(alloc: Global, types: &[TypeDecl]) -> Result<Chains, Memory>
    requires rooted { AreRooted (parents_of types.now) }
    requires few { length types.now < 2 ^ 32 }
    ensures { IfOk result (λ c. AreChains (parents_of types.now) c.last.items c.before.items (length types.now)) }
{
    let mut last = vec![in alloc; 0; types.len()]?;
    let mut before = vec![in alloc; 0; types.len()]?;
    for kind in 1..types.len() as u32 {
        let parent = parent_of(types, kind) as usize;
        before[kind as usize] = last[parent];
        last[parent] = kind;
    }
    Ok(Chains { last, before })
}

/// A walk that stands at an open type. Entries and exits are numbered from 1; 0 is that of a type that was not entered,
/// or not left.
#[derive(Drop)]
pub struct Walk {
    pub entries: Vec<usize>,
    pub exits: Vec<usize>,
    /// The last child of each type that was not entered yet, and 0 where there is none.
    last: Vec<u32>,
    before: Vec<u32>,
    next: usize,
    at: u32,
}

impl Walk {
    /// Enters type 0.
    pub fn start(alloc: Global, types: &[TypeDecl]) -> Result<Walk, Memory>
        requires rooted { AreRooted (parents_of types.now) }
        requires few { length types.now < 2 ^ 32 }
        ensures { IfOk result (λ w. IsWalk (parents_of types.now) w.entries.items w.exits.items w.last.items w.before.items w.next w.at) }
    {
        let Chains { last, before } = chain_children(alloc, types)?;
        let mut entries = vec![in alloc; 0; types.len()]?;
        entries[0] = 1;
        Ok(Walk {
            entries,
            exits: vec![in alloc; 0; types.len()]?,
            last,
            before,
            next: 2,
            at: 0,
        })
    }

    /// Enters a child, or leaves the type for its parent. Answers whether a type is open after it.
    pub fn step(&mut self, types: &[TypeDecl]) -> bool
        requires { IsWalk (parents_of types.now) self.old.entries.items self.old.exits.items self.old.last.items self.old.before.items self.old.next self.old.at }
        ensures goes_on { IsTrue result → IsWalk (parents_of types.now) self.new.entries.items self.new.exits.items self.new.last.items self.new.before.items self.new.next self.new.at }
        ensures done { result ≡ false → IsTypeTree (parents_of types.now) self.new.entries.items self.new.exits.items }
        ensures fewer { to_do self.new.entries.items + to_do self.new.exits.items < to_do self.old.entries.items + to_do self.old.exits.items }
    {
        let at = self.at as usize;
        let child = self.last[at];
        if child > 0 {
            self.last[at] = self.before[child as usize];
            self.entries[child as usize] = self.next;
            self.next += 1;
            self.at = child;
            return true;
        }
        self.exits[at] = self.next;
        if at == 0 {
            return false;
        }
        self.at = parent_of(types, self.at);
        true
    }
}
