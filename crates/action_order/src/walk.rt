//! The components of a graph by one depth-first walk, after Gabow (Path-based depth-first search for strong and
//! biconnected components, 2000). The vertices that were seen and have no component yet stand on a stack. It is cut
//! into segments, each strongly connected by the edges that were followed, and each leads to the next. An edge back
//! into an earlier segment joins all segments from there on; the last segment is a component once its edges were
//! all followed. So an edge leads to a component that is finished earlier, or to its own.
//!
//! Edges are not followed one by one: when a vertex goes onto the stack, the lowest place that one of its targets has
//! there is looked up, and then, as long as there is one, its least target that was not seen is visited. Both are
//! found by words of the row of its targets.

ghost use Rattle.std.specs.Prelude.{◌≡◌, ℕ, ◌+◌, ◌<◌, ◌≤◌, ◌++◌, [], ◌∷◌, length, map, slice_set, true, false, nat_lt, Some, None, OnOk, IfOk, vec_len};
ghost use Rattle.bit_sets.specs.Rows.{row_has};
ghost use Rattle.gt_core.specs.Literal.{is_in};
ghost use Rattle.action_order.specs.own.Graph.{item, leads, IsGraph, IsClassed};
ghost use Rattle.action_order.specs.own.Walk.{IsLast, MarksFrom, TakesFrom, lower, place_of, ends_past, ends_with, number_of};
ghost use Rattle.gt_core.specs.Limits.{most_actions};

use bit_sets::row::BitRow;
use std::alloc::{AllocError, Global};

/// How far a vertex is: not seen yet, at a place of the stack, or in a finished component.
#[derive(Clone, Copy)]
pub enum Mark {
    Unseen,
    At(usize),
    Done(usize),
}

/// The state of the walk: the mark of each vertex; those that were not seen and those on the stack, as rows of bits;
/// the stack, the places where its segments start and those whose edges are not all followed; one vertex of each
/// finished component.
#[derive(Drop)]
pub struct Walk {
    marks: Vec<Mark>,
    unseen: BitRow,
    stacked: BitRow,
    stack: Vec<u32>,
    starts: Vec<usize>,
    work: Vec<usize>,
    roots: Vec<u32>,
}

impl Walk {
    ghost use Rattle.action_order.specs.own.Walk.{mark_of, IsWalkOf, AreSets, KeepsSeen, AllReach, IsLowest, work_left};

    /// Marks a vertex as one at the end of the stack, and puts it there.
    fn stack_up(&mut self, v: u32) -> Result<(), AllocError>
        requires sets { AreSets self.old.marks.items self.old.unseen self.old.stacked }
        requires vertex { v < length self.old.marks.items }
        ensures sets { OnOk result (AreSets self.new.marks.items self.new.unseen self.new.stacked) }
        ensures marks { OnOk result (self.new.marks.items ≡ slice_set self.old.marks.items v (Mark.At (length self.old.stack.items))) }
        ensures stack { OnOk result (self.new.stack.items ≡ self.old.stack.items ++ v ∷ []) }
        ensures work { OnOk result (self.new.work.items ≡ self.old.work.items ++ length self.old.stack.items ∷ []) }
        ensures starts { OnOk result (self.new.starts.items ≡ self.old.starts.items) }
        ensures roots { OnOk result (self.new.roots.items ≡ self.old.roots.items) }
    {
        let place = self.stack.len();
        self.stack.push(v)?;
        self.work.push(place)?;
        self.stacked.insert(v)?;
        self.unseen.remove(v);
        self.marks[v as usize] = Mark::At(place);
        Ok(())
    }

    /// Puts a vertex that was not seen and leads to none of the stack onto it, as a segment of its own.
    fn push_alone(&mut self, targets: &[BitRow], v: u32) -> Result<(), AllocError>
        requires walk { IsWalkOf targets.now self.old }
        requires vertex { v < length targets.now }
        requires unseen { mark_of self.old.marks.items v ≡ Mark.Unseen }
        requires reached { AllReach targets.now self.old.stack.items v }
        requires alone { IsLowest targets.now self.old.marks.items v None }
        ensures walk { OnOk result (IsWalkOf targets.now self.new) }
        ensures marks { OnOk result (self.new.marks.items ≡ slice_set self.old.marks.items v (Mark.At (length self.old.stack.items))) }
        ensures work { OnOk result (self.new.work.items ≡ self.old.work.items ++ length self.old.stack.items ∷ []) }
    {
        let place = self.stack.len();
        self.starts.push(place)?;
        self.stack_up(v)?;
        Ok(())
    }

    /// Puts a vertex that was not seen onto the stack, into the last segment; it leads to a place of that segment.
    fn push_joined(&mut self, targets: &[BitRow], v: u32, to: usize) -> Result<(), AllocError>
        requires walk { IsWalkOf targets.now self.old }
        requires vertex { v < length targets.now }
        requires unseen { mark_of self.old.marks.items v ≡ Mark.Unseen }
        requires reached { AllReach targets.now self.old.stack.items v }
        requires lowest { IsLowest targets.now self.old.marks.items v (Some to) }
        requires joined { (s : ℕ) → is_in self.old.starts.items s ≡ true → s ≤ to }
        ensures walk { OnOk result (IsWalkOf targets.now self.new) }
        ensures marks { OnOk result (self.new.marks.items ≡ slice_set self.old.marks.items v (Mark.At (length self.old.stack.items))) }
        ensures work { OnOk result (self.new.work.items ≡ self.old.work.items ++ length self.old.stack.items ∷ []) }
    {
        self.stack_up(v)?;
        Ok(())
    }

    /// Joins all segments from that of a place on, which every place of the stack reaches.
    fn join(&mut self, targets: &[BitRow], to: usize)
        requires walk { IsWalkOf targets.now self.old }
        requires to { to < length self.old.stack.items }
        requires reached { AllReach targets.now self.old.stack.items (item self.old.stack.items to) }
        ensures walk { IsWalkOf targets.now self.new }
        ensures joined { (s : ℕ) → is_in self.new.starts.items s ≡ true → s ≤ to }
        ensures marks { self.new.marks.items ≡ self.old.marks.items }
        ensures stack { self.new.stack.items ≡ self.old.stack.items }
        ensures work { self.new.work.items ≡ self.old.work.items }
    {
        while ends_past(self.starts.as_slice(), to) {
            self.starts.pop();
        }
    }

    /// The lowest place of the stack that a vertex leads to.
    fn lowest(&self, targets: &[BitRow], v: u32) -> Option<usize>
        requires walk { IsWalkOf targets.now self.now }
        requires graph { IsGraph targets.now }
        requires few { length targets.now ≤ most_actions }
        requires vertex { v < length targets.now }
        ensures { IsLowest targets.now self.now.marks.items v result }
    {
        let row = &targets[v as usize];
        let mut lowest = None;
        let mut from = 0;
        'look: loop {
            match row.least_common(&self.stacked, from) {
                None => return lowest,
                Some(w) => {
                    let place = place_of(self.marks[w as usize]);
                    if place == 0 {
                        return Some(0);
                    }
                    lowest = lower(lowest, place);
                    from = w + 1;
                }
            }
        }
    }

    /// Puts a vertex that was not seen onto the stack.
    fn open(&mut self, targets: &[BitRow], v: u32) -> Result<(), AllocError>
        requires walk { IsWalkOf targets.now self.old }
        requires graph { IsGraph targets.now }
        requires few { length targets.now ≤ most_actions }
        requires vertex { v < length targets.now }
        requires unseen { mark_of self.old.marks.items v ≡ Mark.Unseen }
        requires reached { AllReach targets.now self.old.stack.items v }
        ensures walk { OnOk result (IsWalkOf targets.now self.new) }
        ensures marks { OnOk result (self.new.marks.items ≡ slice_set self.old.marks.items v (Mark.At (length self.old.stack.items))) }
        ensures work { OnOk result (self.new.work.items ≡ self.old.work.items ++ length self.old.stack.items ∷ []) }
    {
        match self.lowest(targets, v) {
            None => {
                self.push_alone(targets, v)?;
                Ok(())
            }
            Some(to) => {
                self.join(targets, to);
                self.push_joined(targets, v, to)?;
                Ok(())
            }
        }
    }

    /// Takes the last place off the work: its edges were all followed, and it starts no segment.
    fn leave(&mut self, targets: &[BitRow], place: usize)
        requires walk { IsWalkOf targets.now self.old }
        requires last { IsLast self.old.work.items place }
        requires spent { (u : ℕ) → leads targets.now (item self.old.stack.items place) u ≡ true → mark_of self.old.marks.items u ≡ Mark.Unseen → ⊥ }
        requires no_start { is_in self.old.starts.items place ≡ false }
        ensures walk { IsWalkOf targets.now self.new }
        ensures marks { self.new.marks.items ≡ self.old.marks.items }
        ensures work { vec_len self.new.work + 1 ≡ vec_len self.old.work }
    {
        self.work.pop();
    }

    /// Finishes the last segment, whose edges were all followed, as a component.
    fn close(&mut self, targets: &[BitRow], place: usize) -> Result<(), AllocError>
        requires walk { IsWalkOf targets.now self.old }
        requires last { IsLast self.old.work.items place }
        requires start { IsLast self.old.starts.items place }
        requires spent { (u : ℕ) → leads targets.now (item self.old.stack.items place) u ≡ true → mark_of self.old.marks.items u ≡ Mark.Unseen → ⊥ }
        ensures walk { OnOk result (IsWalkOf targets.now self.new) }
        ensures keeps { OnOk result (KeepsSeen self.old.marks.items self.new.marks.items) }
        ensures less { OnOk result (work_left self.new.marks.items self.new.work.items < work_left self.old.marks.items self.old.work.items) }
    {
        let number = self.roots.len();
        self.roots.push(self.stack[place])?;
        finish(&mut self.marks, self.stack.as_slice(), place, number);
        unstack(&mut self.stacked, self.stack.as_slice(), place);
        self.stack.truncate(place);
        self.starts.pop();
        self.work.pop();
        Ok(())
    }

    /// Leaves the last place with work, whose edges were all followed; its segment is a component where it starts one.
    fn retreat(&mut self, targets: &[BitRow], place: usize) -> Result<(), AllocError>
        requires walk { IsWalkOf targets.now self.old }
        requires last { IsLast self.old.work.items place }
        requires spent { (u : ℕ) → leads targets.now (item self.old.stack.items place) u ≡ true → mark_of self.old.marks.items u ≡ Mark.Unseen → ⊥ }
        ensures walk { OnOk result (IsWalkOf targets.now self.new) }
        ensures keeps { OnOk result (KeepsSeen self.old.marks.items self.new.marks.items) }
        ensures less { OnOk result (work_left self.new.marks.items self.new.work.items < work_left self.old.marks.items self.old.work.items) }
    {
        if ends_with(self.starts.as_slice(), place) {
            self.close(targets, place)?;
            return Ok(());
        }
        self.leave(targets, place);
        Ok(())
    }

    /// One move of the walk, at the last place with work.
    fn step(&mut self, targets: &[BitRow]) -> Result<(), AllocError>
        requires walk { IsWalkOf targets.now self.old }
        requires graph { IsGraph targets.now }
        requires few { length targets.now ≤ most_actions }
        requires work { 0 < length self.old.work.items }
        ensures walk { OnOk result (IsWalkOf targets.now self.new) }
        ensures keeps { OnOk result (KeepsSeen self.old.marks.items self.new.marks.items) }
        ensures less { OnOk result (work_left self.new.marks.items self.new.work.items < work_left self.old.marks.items self.old.work.items) }
    {
        let place = last(self.work.as_slice());
        let row = &targets[self.stack[place] as usize];
        match row.least_common(&self.unseen, 0) {
            None => {
                self.retreat(targets, place)?;
                Ok(())
            }
            Some(w) => {
                self.open(targets, w)?;
                Ok(())
            }
        }
    }

    /// Puts a vertex onto the empty stack, unless it was seen.
    fn enter(&mut self, targets: &[BitRow], root: u32) -> Result<(), AllocError>
        requires walk { IsWalkOf targets.now self.old }
        requires graph { IsGraph targets.now }
        requires few { length targets.now ≤ most_actions }
        requires root { root < length targets.now }
        requires start { length self.old.stack.items ≡ 0 }
        ensures walk { OnOk result (IsWalkOf targets.now self.new) }
        ensures keeps { OnOk result (KeepsSeen self.old.marks.items self.new.marks.items) }
        ensures seen { OnOk result (mark_of self.new.marks.items root ≡ Mark.Unseen → ⊥) }
    {
        if let Mark::Unseen = self.marks[root as usize] {
            self.open(targets, root)?;
        }
        Ok(())
    }

    /// Walks on from the vertices of the stack, until it is empty.
    fn walk_on(&mut self, targets: &[BitRow]) -> Result<(), AllocError>
        requires walk { IsWalkOf targets.now self.old }
        requires graph { IsGraph targets.now }
        requires few { length targets.now ≤ most_actions }
        ensures walk { OnOk result (IsWalkOf targets.now self.new) }
        ensures keeps { OnOk result (KeepsSeen self.old.marks.items self.new.marks.items) }
        ensures end { OnOk result (length self.new.stack.items ≡ 0) }
    {
        while !self.work.is_empty() {
            self.step(targets)?;
        }
        Ok(())
    }

    /// The walk that has seen nothing.
    fn new(alloc: Global, targets: &[BitRow]) -> Result<Walk, AllocError>
        requires { length targets.now ≤ most_actions }
        ensures walk { IfOk result (λ walk. IsWalkOf targets.now walk) }
        ensures start { IfOk result (λ walk. length walk.stack.items ≡ 0) }
    {
        Ok(Walk {
            marks: vec![in alloc; Mark::Unseen; targets.len()]?,
            unseen: row_below(alloc, targets.len())?,
            stacked: BitRow::new(alloc),
            stack: Vec::new(alloc),
            starts: Vec::new(alloc),
            work: Vec::new(alloc),
            roots: Vec::new(alloc),
        })
    }
}

/// The number of a finished component.
fn number_of(mark: Mark) -> usize
    ensures { result ≡ number_of mark }
{
    match mark {
        Mark::Done(number) => number,
        _ => 0,
    }
}

/// The components of a graph: the number of each vertex's, and one vertex of each number. Components are numbered
/// so that no edge leads to a greater number.
#[derive(Drop)]
pub struct Components {
    pub numbers: Vec<usize>,
    pub roots: Vec<u32>,
}

/// The components of a graph.
pub fn find_components(alloc: Global, targets: &[BitRow]) -> Result<Components, AllocError>
    requires graph { IsGraph targets.now }
    requires few { length targets.now ≤ most_actions }
    ensures { IfOk result (λ r. IsClassed targets.now r.numbers.items r.roots.items) }
{
    let mut walk = Walk::new(alloc, targets)?;
    for root in 0..targets.len() as u32 {
        walk.enter(targets, root)?;
        walk.walk_on(targets)?;
    }
    let numbers = numbers_of(alloc, walk.marks.as_slice())?;
    Ok(Components {
        numbers,
        roots: walk.roots,
    })
}

/// The number of each vertex's component.
fn numbers_of(alloc: Global, marks: &[Mark]) -> Result<Vec<usize>, AllocError>
    ensures { IfOk result (λ r. r.items ≡ map number_of marks.now) }
{
    marks.iter().map(|mark| number_of(*mark)).collect(alloc)
}

/// The last of some places.
fn last(places: &[usize]) -> usize
    requires { 0 < length places.now }
    ensures { IsLast places.now result }
{
    places[places.len() - 1]
}

/// Whether places end with one.
fn ends_with(places: &[usize], place: usize) -> bool
    ensures { result ≡ ends_with place places.now }
{
    match places.len() {
        0 => false,
        count => places[count - 1] == place,
    }
}

/// Whether places end with one past another.
fn ends_past(places: &[usize], to: usize) -> bool
    ensures { result ≡ ends_past to places.now }
{
    match places.len() {
        0 => false,
        count => places[count - 1] > to,
    }
}

/// The place of a vertex on the stack.
fn place_of(mark: Mark) -> usize
    ensures { result ≡ place_of mark }
{
    match mark {
        Mark::At(place) => place,
        _ => 0,
    }
}

/// The lower of two places, of which the first may not be there.
fn lower(lowest: Option<usize>, place: usize) -> Option<usize>
    ensures { result ≡ Some (lower lowest place) }
{
    match lowest {
        Some(other) if other < place => Some(other),
        _ => Some(place),
    }
}

/// The numbers below one.
fn row_below(alloc: Global, count: usize) -> Result<BitRow, AllocError>
    requires { count ≤ most_actions }
    ensures { IfOk result (λ row. (k : ℕ) → row_has row k ≡ nat_lt k count) }
{
    let mut row = BitRow::new(alloc);
    for number in 0..count {
        row.insert(number as u32)?;
    }
    Ok(row)
}

/// Takes the vertices from a place of the stack on out of a set.
fn unstack(stacked: &mut BitRow, stack: &[u32], place: usize)
    requires { place ≤ length stack.now }
    ensures { TakesFrom stack.now place (length stack.now) stacked.old stacked.new }
{
    for i in place..stack.len() {
        stacked.remove(stack[i]);
    }
}

/// Marks the vertices from a place of the stack on as those of a finished component.
fn finish(marks: &mut Vec<Mark>, stack: &[u32], place: usize, number: usize)
    requires place { place ≤ length stack.now }
    requires within { (p : ℕ) → p < length stack.now → item stack.now p < length marks.old.items }
    ensures { MarksFrom marks.old.items marks.new.items stack.now place (length stack.now) (Mark.Done number) }
{
    for i in place..stack.len() {
        marks[stack[i] as usize] = Mark::Done(number);
    }
}
