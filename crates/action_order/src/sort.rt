//! The topological order of the components: again and again the least-named one whose targets were all taken. A
//! component that is not ready waits for that of one target; once it is taken, the component goes on with the next.
//! So each target is looked at once.

ghost use Rattle.std.specs.Prelude.{◌≡◌, ℕ, ◌+◌, ◌<◌, ◌≤◌, [], ◌∷◌, length, drop, true, false, slice_index_or, slice_set, replicate, OnOk, IfOk};
ghost use Rattle.bit_sets.specs.Rows.{row_has};
ghost use Rattle.gt_core.specs.Literal.{range};
ghost use Rattle.action_order.specs.own.Graph.{class_at};
ghost use Rattle.action_order.specs.own.Sorting.{IsPending, IsTopologicalOrder, AreNamedComponents};
ghost use Rattle.gt_core.specs.Limits.{most_actions};

use crate::numbers::ActNumbers;
use crate::ready::{put, take_first};
use bit_sets::row::BitRow;
use containers::equal::empty_lists;
use std::alloc::{AllocError, Global};
use std::collections::BTreeSet;
use std::mem;

/// The state of the sorting: which components are taken, of each up to which vertex its targets were found taken, the
/// components that wait for each, the names of those that are ready, and the order so far.
#[derive(Drop)]
pub struct TopologicalSort {
    taken: Vec<bool>,
    passed: Vec<u32>,
    waiting: Vec<ActNumbers>,
    ready: BTreeSet<u32>,
    order: Vec<usize>,
}

/// The least target of a component, from one vertex on, whose component is not taken.
fn pending(taken: &[bool], numbers: &[usize], row: &BitRow, start: u32) -> Option<u32>
    requires few { length numbers.now ≤ most_actions }
    requires vertex { (b : ℕ) → row_has row.now b ≡ true → b < length numbers.now }
    requires below { (b : ℕ) → row_has row.now b ≡ true → class_at numbers.now b < length taken.now }
    ensures { IsPending taken.now numbers.now row.now start result }
{
    let mut from = start;
    while let Some(b) = row.least(from) {
        if !taken[numbers[b as usize]] {
            return Some(b);
        }
        from = b + 1;
    }
    None
}

impl TopologicalSort {
    ghost use Rattle.action_order.specs.own.SortingOf.{IsSortingOf, TakesNext};

    /// Looks at one of the components to be looked at: it is ready, or waits for a target.
    fn settle(
        &mut self,
        rows: &[BitRow],
        names: &[u32],
        numbers: &[usize],
        c: usize,
        free: &[u32],
    ) -> Result<(), AllocError>
        requires rows { AreNamedComponents rows.now names.now numbers.now }
        requires few { length numbers.now ≤ most_actions }
        requires sorting { IsSortingOf rows.now names.now numbers.now self.old (c ∷ free.now) }
        requires below { c < length rows.now }
        requires small { length rows.now ≤ most_actions }
        ensures sorting { OnOk result (IsSortingOf rows.now names.now numbers.now self.new free.now) }
        ensures taken { OnOk result (self.new.taken.items ≡ self.old.taken.items) }
    {
        if self.taken[c] {
            return Ok(());
        }
        match pending(self.taken.as_slice(), numbers, &rows[c], self.passed[c]) {
            Some(b) => {
                self.passed[c] = b;
                let list = &mut self.waiting[numbers[b as usize]];
                list.push(c as u32)?;
                Ok(())
            }
            None => {
                put(&mut self.ready, names[c])?;
                Ok(())
            }
        }
    }

    /// Looks at all components that are to be looked at.
    fn release(
        &mut self,
        rows: &[BitRow],
        names: &[u32],
        numbers: &[usize],
        free: &[u32],
    ) -> Result<(), AllocError>
        requires rows { AreNamedComponents rows.now names.now numbers.now }
        requires few { length numbers.now ≤ most_actions }
        requires small { length rows.now ≤ most_actions }
        requires sorting { IsSortingOf rows.now names.now numbers.now self.old free.now }
        requires below { (i : ℕ) → i < length free.now → slice_index_or free.now i 0 < length rows.now }
        ensures sorting { OnOk result (IsSortingOf rows.now names.now numbers.now self.new []) }
        ensures taken { OnOk result (self.new.taken.items ≡ self.old.taken.items) }
    {
        for i in 0..free.len() {
            self.settle(rows, names, numbers, free[i] as usize, &free[i + 1..])?;
        }
        Ok(())
    }

    /// Takes a component that is ready.
    fn take(
        &mut self,
        alloc: Global,
        rows: &[BitRow],
        names: &[u32],
        numbers: &[usize],
        t: usize,
    ) -> Result<(), AllocError>
        requires rows { AreNamedComponents rows.now names.now numbers.now }
        requires few { length numbers.now ≤ most_actions }
        requires small { length rows.now ≤ most_actions }
        requires next { TakesNext rows.now names.now numbers.now self.old t }
        ensures sorting { OnOk result (IsSortingOf rows.now names.now numbers.now self.new []) }
        ensures taken { OnOk result (self.new.taken.items ≡ slice_set self.old.taken.items t true) }
    {
        self.taken[t] = true;
        self.order.push(t)?;
        let free = mem::replace(&mut self.waiting[t], ActNumbers::new(alloc));
        self.release(rows, names, numbers, free.as_slice())
    }

    /// The sorting before anything was looked at.
    fn new(alloc: Global, count: usize) -> Result<TopologicalSort, AllocError>
        ensures taken { IfOk result (λ sort. sort.taken.items ≡ replicate count false) }
        ensures passed { IfOk result (λ sort. sort.passed.items ≡ replicate count 0) }
        ensures waiting { IfOk result (λ sort. sort.waiting.items ≡ replicate count []) }
        ensures ready { IfOk result (λ sort. sort.ready.keys ≡ []) }
        ensures order { IfOk result (λ sort. sort.order.items ≡ []) }
    {
        Ok(TopologicalSort {
            taken: vec![in alloc; false; count]?,
            passed: vec![in alloc; 0; count]?,
            waiting: empty_lists(alloc, count)?,
            ready: BTreeSet::new(alloc),
            order: Vec::new(alloc),
        })
    }
}

/// The numbers below one, rising.
fn numbers_below(alloc: Global, count: usize) -> Result<Vec<u32>, AllocError>
    requires { count ≤ most_actions }
    ensures { IfOk result (λ numbers. numbers.items ≡ range count) }
{
    let mut numbers = Vec::new(alloc);
    for i in 0..count {
        numbers.push(i as u32)?;
    }
    Ok(numbers)
}

/// All components in topological order; `numbers` gives the component of each vertex.
pub fn sort_components(
    alloc: Global,
    rows: &[BitRow],
    names: &[u32],
    numbers: &[usize],
) -> Result<Vec<usize>, AllocError>
    requires rows { AreNamedComponents rows.now names.now numbers.now }
    requires few { length numbers.now ≤ most_actions }
    requires small { length rows.now ≤ most_actions }
    ensures { IfOk result (λ order. IsTopologicalOrder rows.now names.now numbers.now order.items) }
{
    let mut sort = TopologicalSort::new(alloc, rows.len())?;
    let all = numbers_below(alloc, rows.len())?;
    sort.release(rows, names, numbers, all.as_slice())?;
    loop {
        match take_first(&mut sort.ready) {
            None => return Ok(sort.order),
            Some(name) => sort.take(alloc, rows, names, numbers, numbers[name as usize])?,
        }
    }
}
