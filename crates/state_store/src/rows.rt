//! Rows of words of one width, one after another in one block of memory.

ghost use Rattle.std.specs.Prelude.{◌≡◌, ◌+◌, ◌*◌, ◌≤◌, ◌<◌, ◌++◌, ◌∷◌, [], Some, length, take, drop, slice_get, vec_capacity, IfOk};

use std::alloc::{AllocError, Global};
use std::marker::Model;

/// Rows of one width, with room for so many. Contracts see the list of the rows.
pub(crate) struct Rows {
    width: usize,
    most: u32,
    count: u32,
    words: Vec<u64>,
}

impl Model for Rows {
    ghost use Rattle.std.specs.Prelude.{◌≡◌, ◌*◌, ◌≤◌, length, vec_capacity};
    ghost use Rattle.state_store.specs.own.Rows.{Block, rows_of};

    ghost Value = { Block };

    ghost view = { λ r. record { width = r.width; most = r.most; rows = rows_of r.width r.count r.words.items } };

    ghost invariant = { λ r. (length r.words.items ≡ r.count * r.width) × (r.count ≤ r.most) × (r.most * r.width ≤ vec_capacity r.words) };
}

impl Drop for Rows {
    fn drop(self) {
        let Rows {
            width: _,
            most: _,
            count: _,
            words: _,
        } = self;
    }
}

/// The row with a number in the words of so many rows.
#[inline(always)]
fn part(words: &[u64], number: usize, width: usize, count: usize) -> &[u64]
    requires long { length words.now ≡ count * width }
    requires number { number < count }
    ensures row { result.now ≡ take width (drop (number * width) words.now) }
    ensures width { length result.now ≡ width }
{
    let from = number * width;
    &words[from..from + width]
}

/// Adds words in the room that is there.
fn extend(words: &mut Vec<u64>, row: &[u64])
    requires { length words.old.items + length row.now ≤ vec_capacity words.old }
    ensures words { words.new.items ≡ words.old.items ++ row.now }
    ensures room { vec_capacity words.old ≤ vec_capacity words.new }
{
    let _room = words.extend_from_slice(row);
}

impl Rows {
    ghost use Rattle.state_store.specs.own.Rows.{Block};

    /// No rows, and room for so many.
    pub(crate) fn new(alloc: Global, width: usize, most: u32) -> Result<Rows, AllocError>
        requires { width ≤ 67108864 }
        ensures { IfOk result (λ r. r ≡ record { width = width; most = most; rows = [] }) }
    {
        Ok(Rows {
            width,
            most,
            count: 0,
            words: Vec::with_capacity(alloc, most as usize * width)?,
        })
    }

    /// Lets go of all rows. The room stays.
    pub(crate) fn clear(&mut self)
        ensures { self.new ≡ record self.old { rows = [] } }
    {
        self.words.clear();
        self.count = 0;
    }

    /// How many rows there are.
    pub(crate) fn len(&self) -> u32
        ensures len { result ≡ length self.now.rows }
        ensures room { result ≤ self.now.most }
    {
        self.count
    }

    /// The row with this number.
    #[inline(always)]
    pub(crate) fn at(&self, number: u32) -> &[u64]
        requires { number < length self.now.rows }
        ensures row { slice_get self.now.rows number ≡ Some result.now }
        ensures width { length result.now ≡ self.now.width }
    {
        part(
            &self.words,
            number as usize,
            self.width,
            self.count as usize,
        )
    }

    /// Adds a row in the room that is there.
    pub(crate) fn push(&mut self, row: &[u64])
        requires room { length self.old.rows < self.old.most }
        requires width { length row.now ≡ self.old.width }
        ensures { self.new ≡ record self.old { rows = self.old.rows ++ row.now ∷ [] } }
    {
        extend(&mut self.words, row);
        self.count += 1;
    }
}
