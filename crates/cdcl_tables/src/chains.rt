//! Chains of numbered nodes, one chain for each code. A node stands on one chain at most, and is moved from one to another
//! without memory.
//!
//! The chains are for watched literals (Moskewicz and others, 2001): the nodes of a literal are those of the clauses that watch
//! it. A clause that watches another literal from now on changes its chain, so that with a vector for each literal some would
//! grow at each literal that becomes false, and memory could be wanting in the midst of it. Here two numbers are written, and
//! what is made once is enough for as long as no clause is added. Each node has a blocking literal beside it (Eén and
//! Sörensson, 2003): another literal of its clause, whose truth is known without a look at the clause.
ghost use Rattle.std.specs.Prelude.{◌≡◌, ℕ, ◌<◌, ◌≤◌, ◌+◌, ◌++◌, ◌∷◌, [], List, Option, Some, None, length, IfOk, OnOk, OnErr, MatchOption, slice_index, vec_capacity};
ghost use Rattle.cdcl_tables.specs.Linked.{IsLinked, IsLoose, ArePairLoose, placed, blocking_of};
ghost use Rattle.cdcl_tables.specs.Walk.{IsWalk, StandsAt};

use crate::refill::refill;
use std::alloc::AllocError;

/// Where a chain ends.
pub const END: u32 = 4_294_967_295;

/// A node of a chain: the node after it, and a blocking literal: where that is true, nothing need be done for the node.
#[derive(Clone, Copy)]
pub struct Node {
    pub next: u32,
    pub blocking: u32,
}

/// A place on a chain: a node, or the end, and the node before it, if there is one.
#[derive(Clone, Copy)]
pub struct Place {
    pub before: u32,
    pub node: u32,
}

/// For each code the first node of its chain, and the nodes.
#[derive(Drop)]
pub struct Chains {
    pub heads: Vec<u32>,
    pub nodes: Vec<Node>,
}

impl Chains {
    /// Chains without nodes, with room for so many, in the memory of chains that are done with.
    pub fn renewed(self, codes: u32, nodes: usize) -> Result<Chains, AllocError>
        ensures linked { IfOk result (λ c. IsLinked c.heads.items c.nodes.items (λ k. None)) }
        ensures codes { IfOk result (λ c. length c.heads.items ≡ codes) }
        ensures nodes { IfOk result (λ c. c.nodes.items ≡ []) }
    {
        let mut chains = self;
        refill(&mut chains.heads, codes as usize, END)?;
        chains.nodes.clear();
        chains.nodes.reserve(nodes)?;
        Ok(chains)
    }

    /// Adds two nodes that are on no chain.
    pub fn add_two(&mut self) -> Result<(), AllocError>
        requires { length self.old.nodes.items ≤ 4294967293 }
        ensures linked { OnOk result ((on : ℕ → Option ℕ) → IsLinked self.old.heads.items self.old.nodes.items on → IsLinked self.new.heads.items self.new.nodes.items on) }
        ensures nodes { OnOk result (length self.new.nodes.items ≡ length self.old.nodes.items + 2) }
        ensures blockings { (k : ℕ) → k < length self.old.nodes.items → blocking_of self.new.nodes.items k ≡ blocking_of self.old.nodes.items k }
        ensures heads { self.new.heads.items ≡ self.old.heads.items }
        ensures err { OnErr result (self.new.nodes.items ≡ self.old.nodes.items) }
    {
        self.nodes.reserve(2)?;
        self.nodes.push(Node {
            next: END,
            blocking: 0,
        })?;
        self.nodes.push(Node {
            next: END,
            blocking: 0,
        })?;
        Ok(())
    }

    /// The place of the first node of a chain.
    #[inline(always)]
    pub fn first(&self, code: u32) -> Place
        requires { code < length self.now.heads.items }
        ensures { (on : ℕ → Option ℕ) → IsLinked self.now.heads.items self.now.nodes.items on → StandsAt self.now.heads.items self.now.nodes.items on code result }
    {
        Place {
            before: END,
            node: self.heads[code as usize],
        }
    }

    /// The place after one with a node.
    #[inline(always)]
    pub fn after(&self, place: Place) -> Place
        requires { place.node < length self.now.nodes.items }
        ensures { (on : ℕ → Option ℕ) (code : ℕ) (rest : List ℕ) → IsWalk self.now.heads.items self.now.nodes.items on code (place.node ∷ rest) place → IsWalk self.now.heads.items self.now.nodes.items on code rest result }
    {
        let next = self.nodes[place.node as usize].next;
        Place {
            before: place.node,
            node: next,
        }
    }

    /// Takes the node at a place from its chain. The result is the place of the one after it.
    #[inline(always)]
    pub fn drop_at(&mut self, place: Place, code: u32) -> Place
        requires walk { (on : ℕ → Option ℕ) × (rest : List ℕ) × IsWalk self.old.heads.items self.old.nodes.items on code (place.node ∷ rest) place }
        ensures walk { (on : ℕ → Option ℕ) (rest : List ℕ) → IsWalk self.old.heads.items self.old.nodes.items on code (place.node ∷ rest) place → IsWalk self.new.heads.items self.new.nodes.items (placed place.node None on) code rest result }
        ensures blockings { (k : ℕ) → blocking_of self.new.nodes.items k ≡ blocking_of self.old.nodes.items k }
        ensures codes { length self.new.heads.items ≡ length self.old.heads.items }
        ensures nodes { length self.new.nodes.items ≡ length self.old.nodes.items }
    {
        let next = self.nodes[place.node as usize].next;
        if place.before == END {
            self.heads[code as usize] = next;
        } else {
            self.nodes[place.before as usize].next = next;
        }
        Place {
            before: place.before,
            node: next,
        }
    }

    /// Puts a node that is on no chain at the front of one.
    #[inline(always)]
    pub fn link(&mut self, node: u32, code: u32)
        requires code { code < length self.old.heads.items }
        requires node { node < length self.old.nodes.items }
        requires off { IsLoose self.old.heads.items self.old.nodes.items node }
        ensures linked { (on : ℕ → Option ℕ) → IsLinked self.old.heads.items self.old.nodes.items on → on node ≡ None → IsLinked self.new.heads.items self.new.nodes.items (placed node (Some code) on) }
        ensures walk { (on : ℕ → Option ℕ) (l : ℕ) (rest : List ℕ) (place : Place) → IsWalk self.old.heads.items self.old.nodes.items on l rest place → on node ≡ None → (l ≡ code → ⊥) → IsWalk self.new.heads.items self.new.nodes.items (placed node (Some code) on) l rest place }
        ensures blockings { (k : ℕ) → blocking_of self.new.nodes.items k ≡ blocking_of self.old.nodes.items k }
        ensures codes { length self.new.heads.items ≡ length self.old.heads.items }
        ensures nodes { length self.new.nodes.items ≡ length self.old.nodes.items }
    {
        let next = self.heads[code as usize];
        self.nodes[node as usize].next = next;
        self.heads[code as usize] = node;
    }

    /// Moves the node at a place to the front of another chain. The result is the place of the one that was after it.
    #[inline(always)]
    pub fn move_to(&mut self, place: Place, code: u32, to: u32) -> Place
        requires to { to < length self.old.heads.items }
        requires other { code ≡ to → ⊥ }
        requires walk { (on : ℕ → Option ℕ) × (rest : List ℕ) × IsWalk self.old.heads.items self.old.nodes.items on code (place.node ∷ rest) place }
        ensures walk { (on : ℕ → Option ℕ) (rest : List ℕ) → IsWalk self.old.heads.items self.old.nodes.items on code (place.node ∷ rest) place → IsWalk self.new.heads.items self.new.nodes.items (placed place.node (Some to) (placed place.node None on)) code rest result }
        ensures blockings { (k : ℕ) → blocking_of self.new.nodes.items k ≡ blocking_of self.old.nodes.items k }
        ensures codes { length self.new.heads.items ≡ length self.old.heads.items }
        ensures nodes { length self.new.nodes.items ≡ length self.old.nodes.items }
    {
        let next = self.drop_at(place, code);
        self.link(place.node, to);
        next
    }

    /// Gives a node another blocking literal.
    #[inline(always)]
    pub fn note(&mut self, node: u32, blocking: u32)
        requires { node < length self.old.nodes.items }
        ensures linked { (on : ℕ → Option ℕ) → IsLinked self.old.heads.items self.old.nodes.items on → IsLinked self.new.heads.items self.new.nodes.items on }
        ensures walk { (on : ℕ → Option ℕ) (code : ℕ) (rest : List ℕ) (place : Place) → IsWalk self.old.heads.items self.old.nodes.items on code rest place → IsWalk self.new.heads.items self.new.nodes.items on code rest place }
        ensures own { blocking_of self.new.nodes.items node ≡ blocking }
        ensures others { (k : ℕ) → (k ≡ node → ⊥) → blocking_of self.new.nodes.items k ≡ blocking_of self.old.nodes.items k }
        ensures heads { self.new.heads.items ≡ self.old.heads.items }
        ensures nodes { length self.new.nodes.items ≡ length self.old.nodes.items }
    {
        self.nodes[node as usize].blocking = blocking;
    }

    /// Puts two nodes with successive numbers, which are on no chain, at the front of two, each with the other's code as its
    /// blocking literal.
    pub fn link_two(&mut self, node: u32, code: u32, beside: u32)
        requires code { code < length self.old.heads.items }
        requires beside { beside < length self.old.heads.items }
        requires node { node + 1 < length self.old.nodes.items }
        requires off { ArePairLoose self.old.heads.items self.old.nodes.items node }
        ensures linked { (on : ℕ → Option ℕ) → IsLinked self.old.heads.items self.old.nodes.items on → on node ≡ None → on (node + 1) ≡ None → IsLinked self.new.heads.items self.new.nodes.items (placed (node + 1) (Some beside) (placed node (Some code) on)) }
        ensures first { blocking_of self.new.nodes.items node ≡ beside }
        ensures second { blocking_of self.new.nodes.items (node + 1) ≡ code }
        ensures others { (k : ℕ) → (k ≡ node → ⊥) → (k ≡ node + 1 → ⊥) → blocking_of self.new.nodes.items k ≡ blocking_of self.old.nodes.items k }
        ensures codes { length self.new.heads.items ≡ length self.old.heads.items }
        ensures nodes { length self.new.nodes.items ≡ length self.old.nodes.items }
    {
        self.link(node, code);
        self.link(node + 1, beside);
        self.note(node, beside);
        self.note(node + 1, code);
    }

    /// The blocking literal of a node.
    pub fn blocking(&self, node: u32) -> u32
        requires { node < length self.now.nodes.items }
        ensures { result ≡ blocking_of self.now.nodes.items node }
    {
        self.nodes[node as usize].blocking
    }
}
