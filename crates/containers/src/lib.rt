//! Lists of items: a type that other crates give names of their own, as `pub type Files = ListOf<NamedFile>`; and lists of
//! lists in two blocks of memory; and lists in memory that their copies share.
//!
//! `let_go!` takes a struct apart and lets each part go: what each `drop` that a crate writes by hand does. `equal` has vectors
//! of items that are made alike. `codes` has literals as codes, `memory` the want of memory that all crates answer, and `limits` how long a file may be.
//!
//! `FlatLists` has lists of items in two blocks of memory: the items, and where each list ends. `SharedListOf` is a list that does not
//! change, in memory that its copies share. `equal` fills a vector with so many items that one closure makes. Other crates pass `Memory` on
//! under their own names, so that who stands on one of them names no crate more.
#![tactic(auto)]

pub mod codes;
pub mod equal;
mod flat_lists;
pub mod limits;
pub mod memory;
mod shared;

pub use flat_lists::FlatLists;
pub use shared::SharedListOf;
use std::alloc::{AllocError, Global};
use std::marker::Model;

/// Items in a row. Contracts see the list of them.
#[derive(Drop)]
pub struct ListOf<T> {
    items: Vec<T>,
}

impl<T> Model for ListOf<T> {
    ghost use Rattle.std.specs.Prelude.{List};

    ghost Value = { List T };

    ghost view = { λ l. l.items.items };
}

impl<T> ListOf<T> {
    ghost use Rattle.std.specs.Prelude.{◌≡◌, []};

    /// The list without items. It takes no memory, and keeps the allocator for the items to come.
    pub fn new(alloc: Global) -> ListOf<T>
        ensures { result ≡ [] }
    {
        ListOf {
            items: Vec::new(alloc),
        }
    }

    /// The list of these items. It takes no memory.
    pub fn of(items: Vec<T>) -> ListOf<T>
        ensures { result ≡ items.items }
    {
        ListOf { items }
    }

    /// The items as a vector. It takes no memory.
    pub fn into_vec(self) -> Vec<T>
        ensures { result.items ≡ self }
    {
        self.items
    }

    /// The items, lent.
    pub fn as_slice(&self) -> &[T]
        ensures { result.now ≡ self.now }
    {
        &self.items
    }
}

impl<T: Drop> ListOf<T> {
    ghost use Rattle.std.specs.Prelude.{◌≡◌, ◌++◌, ◌∷◌, [], OnOk, OnErr, IfSome, IfNone};

    /// Makes room for so many more items, or answers `AllocError`. The items stay.
    pub fn reserve(&mut self, more: usize) -> Result<(), AllocError>
        ensures { self.new ≡ self.old }
    {
        self.items.reserve(more)
    }

    /// Adds an item at the end. After `AllocError` the items are as they were.
    pub fn push(&mut self, item: T) -> Result<(), AllocError>
        ensures ok { OnOk result (self.new ≡ self.old ++ item ∷ []) }
        ensures err { OnErr result (self.new ≡ self.old) }
    {
        self.items.push(item)?;
        Ok(())
    }

    /// Takes the last item out, where there is one.
    pub fn pop(&mut self) -> Option<T>
        ensures some { IfSome result (λ item. self.old ≡ self.new ++ item ∷ []) }
        ensures none { IfNone result ((self.old ≡ []) × (self.new ≡ [])) }
    {
        self.items.pop()
    }

    /// Takes all items out. The room stays.
    pub fn clear(&mut self)
        ensures { self.new ≡ [] }
    {
        self.items.clear();
    }
}

impl<T: Copy> ListOf<T> {
    ghost use Rattle.std.specs.Prelude.{◌≡◌, IfOk};

    /// Another list of these items, in memory of its own.
    pub fn copied_from(alloc: Global, items: &[T]) -> Result<ListOf<T>, AllocError>
        ensures { IfOk result (λ copy. copy ≡ items.now) }
    {
        Ok(ListOf {
            items: Vec::from_slice(alloc, items)?,
        })
    }
}

/// Takes a struct apart and lets each part go: `let_go!(self: Pair { left, right })`. All fields of the struct are
/// named, in any order.
#[macro_export]
macro_rules! let_go {
    ($whole:tt : $name:ident { $($part:ident),+ }) => {
        let $name { $($part: _),+ } = $whole;
    };
}
