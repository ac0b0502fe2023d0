//! A page of clauses.
ghost use Rattle.std.specs.Prelude.{◌≡◌, ◌∷◌, [], ◌++◌, ◌<◌, ◌≤◌, Some, None, length, set, slice_index_or, IfSome, IfNone, IfOk, OnOk, OnErr};

use clause_base::literal::Lit;
use containers::FlatLists;
use std::alloc::{AllocError, Global};
use std::marker::Model;

/// How many numbers a page has at most.
pub const PAGE: usize = 128;

/// The slot of a clause that was taken out.
const GONE: u8 = 255;

/// How many clauses have to be gone before a page that still grows is packed.
const MANY: usize = 32;

/// At most 128 clauses, each with its number from 0 on. Contracts see the list of them, with `None` for one that was taken out.
#[derive(Drop)]
pub struct Page {
    alloc: Global,
    lists: FlatLists<Lit>,
    slots: Vec<u8>,
    left: usize,
}

impl Model for Page {
    ghost use Rattle.std.specs.Prelude.{List, ℕ, Option, ◌≤◌, length};
    ghost use Rattle.rup_check.specs.own.Page.{AreSlots, clauses_at};

    ghost Value = { List (Option (List ℕ)) };

    ghost view = { λ p. clauses_at p.lists p.slots.items };

    ghost invariant = { λ p. (AreSlots (length p.lists) p.slots.items) × ((length p.lists ≤ length p.slots.items) × (length p.slots.items ≤ 128)) };
}

impl Page {
    /// The page without clauses.
    pub fn new(alloc: Global) -> Result<Page, AllocError>
        ensures { IfOk result (λ page. page ≡ []) }
    {
        Ok(Page {
            alloc,
            lists: FlatLists::new(alloc),
            slots: Vec::with_capacity(alloc, PAGE)?,
            left: 0,
        })
    }

    /// How many numbers there are.
    pub fn len(&self) -> usize
        ensures value { result ≡ length self.now }
        ensures few { result ≤ 128 }
    {
        self.slots.len()
    }

    /// The clause with this number, where it is there.
    #[inline]
    pub fn get(&self, number: usize) -> Option<&[Lit]>
        ensures some { IfSome result (λ clause. slice_index_or self.now number None ≡ Some clause.now) }
        ensures none { IfNone result (slice_index_or self.now number None ≡ None) }
    {
        let slot = *self.slots.get(number)? as usize;
        if slot < self.lists.len() {
            Some(self.lists.at(slot))
        } else {
            None
        }
    }

    /// Adds a clause at the end. After `AllocError` the page is unchanged.
    pub fn push(&mut self, clause: &[Lit]) -> Result<(), AllocError>
        requires { length self.old < 128 }
        ensures ok { OnOk result (self.new ≡ self.old ++ Some clause.now ∷ []) }
        ensures err { OnErr result (self.new ≡ self.old) }
    {
        let count = self.slots.len();
        self.slots.push(self.lists.len() as u8)?;
        match self.lists.push(clause) {
            Ok(()) => {
                self.left = self.left.saturating_add(1);
                Ok(())
            }
            Err(error) => {
                self.slots.truncate(count);
                Err(error)
            }
        }
    }

    /// Adds a number at the end whose clause was taken out. After `AllocError` the page is unchanged.
    fn push_gone(&mut self) -> Result<(), AllocError>
        requires { length self.old < 128 }
        ensures ok { OnOk result (self.new ≡ self.old ++ None ∷ []) }
        ensures err { OnErr result (self.new ≡ self.old) }
    {
        self.slots.push(GONE)?;
        Ok(())
    }

    /// The same page with room for the clauses that are there alone.
    fn packed(&self) -> Result<Page, AllocError>
        ensures { IfOk result (λ page. page ≡ self.now) }
    {
        let mut page = Page::new(self.alloc)?;
        for number in 0..self.len() {
            match self.get(number) {
                Some(clause) => page.push(clause)?,
                None => page.push_gone()?,
            }
        }
        Ok(page)
    }

    /// Whether more than half of the clauses that stand here are gone: of a page that still grows, so many that packing it is paid
    /// by them.
    fn is_due(&self) -> bool {
        let gone = self.lists.len().saturating_sub(self.left);
        gone > self.left && (gone >= MANY || self.slots.len() == PAGE)
    }

    /// Gives room back where it is due. For want of memory all stays as it is.
    fn pack(&mut self)
        ensures { self.new ≡ self.old }
    {
        if self.is_due() {
            if let Ok(page) = self.packed() {
                *self = page;
            }
        }
    }

    /// Takes the clause with this number out.
    pub fn remove(&mut self, number: usize)
        requires { number < length self.old }
        ensures { self.new ≡ set self.old number None }
    {
        self.slots[number] = GONE;
        self.left = self.left.saturating_sub(1);
        self.pack();
    }
}
