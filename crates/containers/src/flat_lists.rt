//! Lists in two blocks of memory.
ghost use Rattle.std.specs.Prelude.{◌≡◌, ◌∷◌, [], ◌++◌, ◌<◌, ◌≤◌, Some, length, slice_get, slice_range, OnOk, OnErr};
ghost use Rattle.containers.specs.own.Pieces.{pieces, start_of, AreEnds};

use std::alloc::{AllocError, Global};
use std::marker::Model;

/// Lists of items: the items one after another, and where each list ends. Contracts see the list of the lists.
#[derive(Drop)]
pub struct FlatLists<T> {
    items: Vec<T>,
    ends: Vec<usize>,
}

impl<T> Model for FlatLists<T> {
    ghost use Rattle.std.specs.Prelude.{List, length};
    ghost use Rattle.containers.specs.own.Pieces.{pieces, AreEnds};

    ghost Value = { List (List T) };

    ghost view = { λ l. pieces 0 l.items.items l.ends.items };

    ghost invariant = { λ l. AreEnds 0 l.ends.items (length l.items.items) };
}

/// Where the list with this number begins.
fn start_of(ends: &[usize], number: usize) -> usize
    requires { number < length ends.now }
    ensures { result ≡ start_of 0 ends.now number }
{
    if number == 0 { 0 } else { ends[number - 1] }
}

/// The items from one place to another.
fn part<T>(items: &[T], start: usize, end: usize) -> &[T]
    requires rising { start ≤ end }
    requires within { end ≤ length items.now }
    ensures { result.now ≡ slice_range items.now start end }
{
    &items[start..end]
}

/// The list with this number.
fn list_at<'a, T>(items: &'a [T], ends: &'a [usize], number: usize) -> &'a [T]
    requires cut { AreEnds 0 ends.now (length items.now) }
    requires in_range { number < length ends.now }
    ensures { slice_get (pieces 0 items.now ends.now) number ≡ Some result.now }
{
    let start = start_of(ends, number);
    part(items, start, ends[number])
}

/// Adds the items of two lists, one after the other, and their end. After `AllocError` the lists are unchanged.
fn push_joined<T: Copy>(
    items: &mut Vec<T>,
    ends: &mut Vec<usize>,
    first: &[T],
    second: &[T],
) -> Result<(), AllocError>
    requires cut { AreEnds 0 ends.old.items (length items.old.items) }
    ensures cut { AreEnds 0 ends.new.items (length items.new.items) }
    ensures ok { OnOk result (pieces 0 items.new.items ends.new.items ≡ pieces 0 items.old.items ends.old.items ++ (first.now ++ second.now) ∷ []) }
    ensures err { OnErr result (pieces 0 items.new.items ends.new.items ≡ pieces 0 items.old.items ends.old.items) }
{
    let start = items.len();
    items.extend_from_slice(first)?;
    if items.extend_from_slice(second).is_err() {
        items.truncate(start);
        return Err(AllocError);
    }
    if ends.push(items.len()).is_err() {
        items.truncate(start);
        return Err(AllocError);
    }
    Ok(())
}

impl<T> FlatLists<T> {
    /// No lists. It takes no memory, and keeps the allocator for the lists to come.
    pub fn new(alloc: Global) -> FlatLists<T>
        ensures { result ≡ [] }
    {
        FlatLists {
            items: Vec::new(alloc),
            ends: Vec::new(alloc),
        }
    }

    /// How many lists there are.
    #[inline]
    pub fn len(&self) -> usize
        ensures { result ≡ length self.now }
    {
        self.ends.len()
    }

    /// The list with this number, counted from 0.
    #[inline]
    pub fn at(&self, number: usize) -> &[T]
        requires { number < length self.now }
        ensures { slice_get self.now number ≡ Some result.now }
    {
        list_at(&self.items, &self.ends, number)
    }
}

impl<T: Drop> FlatLists<T> {
    ghost use Rattle.std.specs.Prelude.{IfOk};

    /// No lists, with room for so many, and for so many items in all.
    pub fn with_room(alloc: Global, lists: usize, items: usize) -> Result<FlatLists<T>, AllocError>
        ensures { IfOk result (λ l. l ≡ []) }
    {
        Ok(FlatLists {
            items: Vec::with_capacity(alloc, items)?,
            ends: Vec::with_capacity(alloc, lists)?,
        })
    }

    /// Makes room for so many more items and lists, as a vector does. The lists stay.
    pub fn reserve(&mut self, items: usize, lists: usize) -> Result<(), AllocError>
        ensures { self.new ≡ self.old }
    {
        self.items.reserve(items)?;
        self.ends.reserve(lists)?;
        Ok(())
    }
}

impl<T: Copy> FlatLists<T> {
    ghost use Rattle.std.specs.Prelude.{IfOk};

    /// Adds a list at the end. After `AllocError` the lists are unchanged.
    pub fn push(&mut self, list: &[T]) -> Result<(), AllocError>
        ensures ok { OnOk result (self.new ≡ self.old ++ list.now ∷ []) }
        ensures err { OnErr result (self.new ≡ self.old) }
    {
        self.push_joined(list, &[])
    }

    /// Adds a list at the end: the items of two lists, one after the other. After `AllocError` the lists are unchanged.
    pub fn push_joined(&mut self, first: &[T], second: &[T]) -> Result<(), AllocError>
        ensures ok { OnOk result (self.new ≡ self.old ++ (first.now ++ second.now) ∷ []) }
        ensures err { OnErr result (self.new ≡ self.old) }
    {
        push_joined(&mut self.items, &mut self.ends, first, second)
    }

    /// The same lists in memory of their own, with no room for more.
    pub fn copy(&self, alloc: Global) -> Result<FlatLists<T>, AllocError>
        ensures { IfOk result (λ lists. lists ≡ self.now) }
    {
        Ok(FlatLists {
            items: Vec::from_slice(alloc, &self.items)?,
            ends: Vec::from_slice(alloc, &self.ends)?,
        })
    }
}
