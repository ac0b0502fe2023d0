//! Where a row is looked up: a decision tree for each bucket of a table.
//!
//! Each row brings a node with its own number. A node tests a bit, and has a link for each of its values: a number above its own
//! is that of the node where the way goes on, any other one that of the row where it ends. A row that ends beside another one gets
//! its node there, with a bit at which the two differ. But for the first node of a bucket, no bit is tested twice on a way, since two
//! rows that came the same way have the same values there: so a way has at most one node more than a row has bits, however many
//! hashes are equal. (No clause says this of the time.)

ghost use Rattle.std.specs.Prelude.{◌≡◌, ℕ, ◌+◌, ◌*◌, ◌≤◌, ◌<◌, ◌++◌, ◌∷◌, [], Some, length, slice_get, slice_set, replicate, List, IfOk, MatchOption};
ghost use Rattle.bit_sets.specs.Rows.{row_has, word_has};
ghost use Rattle.state_store.specs.own.Table.{mixed, hash_from, bucket, link, node_at, turned, fork, beside, Ends, head_of, AreTrees, IsSpot};
ghost use Rattle.state_store.specs.Distinct.{AreDistinct};

use crate::pack::has;
use crate::rows::Rows;
use bit_sets::word::least_bit;
use std::alloc::{AllocError, Global};
use std::marker::Model;

/// An empty bucket.
const EMPTY: u32 = 4_294_967_295;

/// A bit, and where the rows go on that have it not, and that have it.
#[derive(Clone, Copy)]
pub(crate) struct Node {
    pub(crate) bit: u32,
    pub(crate) zero: u32,
    pub(crate) one: u32,
}

/// Where a row belongs: it is known by a number, or alone in its bucket, or beside another one below a node, from which a bit
/// tells it.
#[derive(Clone, Copy)]
pub(crate) enum Spot {
    Known(u32),
    Alone,
    Beside { node: u32, other: u32, bit: u32 },
}

/// Where a row's way ends: at a node, which leads to a row.
#[derive(Clone, Copy)]
struct End {
    node: u32,
    row: u32,
}

fn mixed(hash: u64, word: u64) -> u64
    ensures { result ≡ mixed hash word }
{
    let scattered = hash.wrapping_add(word).wrapping_mul(11400714819323198485);
    scattered.wrapping_add(scattered >> 32)
}

fn hash_of(row: &[u64]) -> u64
    ensures { result ≡ hash_from 0 row.now }
{
    let mut hash = 0u64;
    for word in row {
        hash = mixed(hash, *word);
    }
    hash
}

/// The bucket of a row among so many.
fn bucket(size: usize, row: &[u64]) -> usize
    requires some { 0 < size }
    requires few { size ≤ 4294967295 }
    ensures bucket { result ≡ bucket size row.now }
    ensures within { result < size }
{
    (((hash_of(row) >> 32) * size as u64) >> 32) as usize
}

/// A bit at which two words differ, if there is one.
fn differing_bit(word: u64, other: u64) -> Option<u32>
    ensures { MatchOption result (word ≡ other) (λ b. (b < 64) × (word_has word b ≡ word_has other b → ⊥)) }
{
    let mixed = word ^ other;
    if mixed == 0 {
        return None;
    }
    Some(least_bit(mixed))
}

/// A bit at which two rows differ, if there is one.
fn differing(row: &[u64], other: &[u64]) -> Option<u32>
    requires width { length row.now ≡ length other.now }
    requires few { length row.now ≤ 67108863 }
    ensures { MatchOption result (row.now ≡ other.now) (λ b. (b < 64 * length row.now) × (row_has row.now b ≡ row_has other.now b → ⊥)) }
{
    for place in 0..row.len() {
        if let Some(bit) = differing_bit(row[place], other[place]) {
            return Some(64 * place as u32 + bit);
        }
    }
    None
}

/// Where a row goes on from a node.
#[inline(always)]
fn link(node: Node, row: &[u64]) -> u32
    requires { node.bit < 64 * length row.now }
    ensures { (nodes : List Node) (k : ℕ) → node_at nodes k ≡ node → result ≡ link nodes row.now k }
{
    if has(row, node.bit) {
        node.one
    } else {
        node.zero
    }
}

/// A node that sends the rows with one value of its bit to a node with a number.
fn turned(node: Node, one: bool, number: u32) -> Node
    ensures { result ≡ turned node one number }
{
    if one {
        Node {
            bit: node.bit,
            zero: node.zero,
            one: number,
        }
    } else {
        Node {
            bit: node.bit,
            zero: number,
            one: node.one,
        }
    }
}

/// The node with a number, from which a row with this value of a bit goes to the row with the number, and others to another row.
fn fork(bit: u32, one: bool, number: u32, other: u32) -> Node
    ensures { result ≡ fork bit one number other }
{
    if one {
        Node {
            bit,
            zero: other,
            one: number,
        }
    } else {
        Node {
            bit,
            zero: number,
            one: other,
        }
    }
}

/// For each bucket the number of the first row in it, and the nodes, one a row.
pub(crate) struct Table {
    most: u32,
    heads: Vec<u32>,
    nodes: Vec<Node>,
}

impl Model for Table {
    ghost use Rattle.std.specs.Prelude.{◌≤◌, ◌<◌, length, vec_capacity};
    ghost use Rattle.state_store.specs.own.Table.{Trees};

    ghost Value = { Trees };

    ghost view = { λ t. record { most = t.most; heads = t.heads.items; nodes = t.nodes.items } };

    ghost invariant = { λ t. (0 < length t.heads.items) × (length t.heads.items ≤ t.most) × (t.most ≤ vec_capacity t.heads) × (t.most ≤ vec_capacity t.nodes) };
}

impl Drop for Table {
    fn drop(self) {
        let Table {
            most: _,
            heads: _,
            nodes: _,
        } = self;
    }
}

impl Table {
    ghost use Rattle.state_store.specs.own.Table.{Trees};

    /// A table without rows, and room for so many.
    pub(crate) fn new(alloc: Global, most: u32) -> Result<Table, AllocError>
        requires { 0 < most }
        ensures most { IfOk result (λ t. t.most ≡ most) }
        ensures trees { IfOk result (λ t. (width : ℕ) (rows : List (List ℕ)) → AreTrees width t.heads t.nodes rows 0) }
    {
        let mut heads = Vec::with_capacity(alloc, most as usize)?;
        heads.resize(most.min(1024) as usize, EMPTY)?;
        Ok(Table {
            most,
            heads,
            nodes: Vec::with_capacity(alloc, most as usize)?,
        })
    }

    /// Lets go of all rows. The room stays.
    pub(crate) fn restart(&mut self)
        ensures most { self.new.most ≡ self.old.most }
        ensures trees { (width : ℕ) (rows : List (List ℕ)) → AreTrees width self.new.heads self.new.nodes rows 0 }
    {
        let size = self.heads.len();
        self.clear(size.min(1024));
    }

    /// How many nodes there are.
    fn count(&self) -> u32
        requires { length self.now.nodes ≤ self.now.most }
        ensures count { result ≡ length self.now.nodes }
        ensures few { self.now.most ≤ 4294967295 }
    {
        // For the proof: a number of 32 bits is no less.
        let _most = self.most;
        self.nodes.len() as u32
    }

    /// The node with this number.
    #[inline(always)]
    fn node(&self, number: u32) -> Node
        requires { number < length self.now.nodes }
        ensures { node_at self.now.nodes number ≡ result }
    {
        self.nodes[number as usize]
    }

    /// How many buckets there are.
    fn buckets(&self) -> usize
        ensures buckets { result ≡ length self.now.heads }
        ensures some { 0 < result }
        ensures few { result ≤ 4294967295 }
    {
        // For the proof: a number of 32 bits is no less.
        let _most = self.most;
        self.heads.len()
    }

    /// The node at which a row's way begins, or `EMPTY`.
    fn head(&self, row: &[u64]) -> u32
        ensures head { result ≡ head_of self.now.heads row.now }
        ensures within { bucket (length self.now.heads) row.now < length self.now.heads }
    {
        self.heads[bucket(self.buckets(), row)]
    }

    /// The way of a row down from a node.
    fn way_from(&self, rows: &Rows, row: &[u64], head: u32) -> End
        requires trees { AreTrees rows.now.width self.now.heads self.now.nodes rows.now.rows (length self.now.nodes) }
        requires width { length row.now ≡ rows.now.width }
        requires head { head < length self.now.nodes }
        ensures { Ends self.now.nodes row.now head result.node result.row }
    {
        let mut node = head;
        loop {
            let next = link(self.node(node), row);
            if next <= node {
                return End { node, row: next };
            }
            node = next;
        }
    }

    /// Where a row belongs.
    pub(crate) fn spot(&self, rows: &Rows, row: &[u64]) -> Spot
        requires trees { AreTrees rows.now.width self.now.heads self.now.nodes rows.now.rows (length self.now.nodes) }
        requires rows { length self.now.nodes ≤ length rows.now.rows }
        requires width { length row.now ≡ rows.now.width }
        requires few { rows.now.width ≤ 67108863 }
        ensures { IsSpot rows.now.width self.now.heads self.now.nodes rows.now.rows row.now result }
    {
        let head = self.head(row);
        if head == EMPTY {
            return Spot::Alone;
        }
        let end = self.way_from(rows, row, head);
        match differing(rows.at(end.row), row) {
            None => Spot::Known(end.row),
            Some(bit) => Spot::Beside {
                node: end.node,
                other: end.row,
                bit,
            },
        }
    }

    /// Puts a row beside another one: at the last node of its way comes a new one, which tells them apart by a bit.
    fn put_beside(&mut self, row: &[u64], node: u32, other: u32, bit: u32)
        requires room { length self.old.nodes < self.old.most }
        requires node { node < length self.old.nodes }
        requires tested { (node_at self.old.nodes node).bit < 64 * length row.now }
        requires bit { bit < 64 * length row.now }
        ensures nodes { self.new.nodes ≡ beside self.old.nodes row.now node other bit }
        ensures heads { self.new.heads ≡ self.old.heads }
        ensures most { self.new.most ≡ self.old.most }
    {
        let number = self.count();
        let last = self.nodes[node as usize];
        self.nodes[node as usize] = turned(last, has(row, last.bit), number);
        self.nodes
            .push_reserved(fork(bit, has(row, bit), number, other));
    }

    /// Puts the row with the next number where it belongs.
    pub(crate) fn put(&mut self, rows: &Rows, spot: Spot)
        requires trees { AreTrees rows.now.width self.old.heads self.old.nodes rows.now.rows (length self.old.nodes) }
        requires row { length self.old.nodes < length rows.now.rows }
        requires most { length rows.now.rows ≤ self.old.most }
        requires distinct { AreDistinct rows.now.rows }
        requires spot { (row : List ℕ) → slice_get rows.now.rows (length self.old.nodes) ≡ Some row → IsSpot rows.now.width self.old.heads self.old.nodes rows.now.rows row spot }
        requires width { 0 < rows.now.width }
        ensures trees { AreTrees rows.now.width self.new.heads self.new.nodes rows.now.rows (length self.new.nodes) }
        ensures one { length self.new.nodes ≡ length self.old.nodes + 1 }
        ensures heads { length self.new.heads ≡ length self.old.heads }
        ensures most { self.new.most ≡ self.old.most }
    {
        let number = self.count();
        let row = rows.at(number);
        match spot {
            Spot::Known(_) => unreachable!(),
            Spot::Alone => self.put_alone(row),
            Spot::Beside { node, other, bit } => self.put_beside(row, node, other, bit),
        }
    }

    /// Puts a row into its bucket, which is empty.
    fn put_alone(&mut self, row: &[u64])
        requires room { length self.old.nodes < self.old.most }
        ensures nodes { self.new.nodes ≡ self.old.nodes ++ record { bit = 0; zero = length self.old.nodes; one = length self.old.nodes } ∷ [] }
        ensures heads { self.new.heads ≡ slice_set self.old.heads (bucket (length self.old.heads) row.now) (length self.old.nodes) }
        ensures within { bucket (length self.old.heads) row.now < length self.old.heads }
        ensures most { self.new.most ≡ self.old.most }
    {
        let number = self.count();
        let bucket = bucket(self.buckets(), row);
        self.heads[bucket] = number;
        self.nodes.push_reserved(Node {
            bit: 0,
            zero: number,
            one: number,
        });
    }

    /// Empties the table, and makes so many buckets in the room that is there.
    fn clear(&mut self, size: usize)
        requires some { 0 < size }
        requires room { size ≤ self.old.most }
        ensures heads { self.new.heads ≡ replicate size 4294967295 }
        ensures nodes { self.new.nodes ≡ [] }
        ensures most { self.new.most ≡ self.old.most }
    {
        self.nodes.clear();
        self.heads.clear();
        let _room = self.heads.resize(size, EMPTY);
    }

    /// Makes more buckets, where they are not more than the rows, all of which are in the table.
    pub(crate) fn grow(&mut self, rows: &Rows)
        requires trees { AreTrees rows.now.width self.old.heads self.old.nodes rows.now.rows (length self.old.nodes) }
        requires all { length self.old.nodes ≡ length rows.now.rows }
        requires most { length rows.now.rows ≤ self.old.most }
        requires distinct { AreDistinct rows.now.rows }
        requires some { 0 < rows.now.width }
        requires few { rows.now.width ≤ 67108863 }
        ensures trees { AreTrees rows.now.width self.new.heads self.new.nodes rows.now.rows (length self.new.nodes) }
        ensures all { length self.new.nodes ≡ length rows.now.rows }
        ensures most { self.new.most ≡ self.old.most }
    {
        let size = self.heads.len();
        if (rows.len() as usize) < size || size == self.most as usize {
            return;
        }
        self.clear((2 * size).min(self.most as usize));
        for number in 0..rows.len() {
            let spot = self.spot(rows, rows.at(number));
            self.put(rows, spot);
        }
    }
}
