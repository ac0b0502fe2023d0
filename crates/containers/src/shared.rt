//! Lists in memory that their copies share.
use std::alloc::{AllocError, Global};
use std::marker::Model;
use std::sync::Arc;

/// Items in a row that do not change any more. Its copies stand in the same memory. Contracts see the list of the items.
#[derive(Drop)]
pub struct SharedListOf<T> {
    items: Arc<Vec<T>>,
}

impl<T> Model for SharedListOf<T> {
    ghost use Rattle.std.specs.Prelude.{List};
    ghost use Rattle.std.specs.Arc.{arc_value};

    ghost Value = { List T };

    ghost view = { λ l. (arc_value l.items).items };
}

impl<T: Drop> SharedListOf<T> {
    ghost use Rattle.std.specs.Prelude.{◌≡◌, IfOk};

    /// The list of these items.
    pub fn of(alloc: Global, items: Vec<T>) -> Result<SharedListOf<T>, AllocError>
        ensures { IfOk result (λ list. list ≡ items.items) }
    {
        Ok(SharedListOf {
            items: Arc::new(alloc, items)?,
        })
    }

    /// The same list, in the same memory.
    pub fn copy(&self) -> Result<SharedListOf<T>, AllocError>
        ensures { IfOk result (λ list. list ≡ self.now) }
    {
        Ok(SharedListOf {
            items: Arc::try_clone(&self.items)?,
        })
    }

    /// The items, lent.
    pub fn as_slice(&self) -> &[T]
        ensures { result.now ≡ self.now }
    {
        self.items.as_slice()
    }
}

impl<T: Copy + Drop> SharedListOf<T> {
    ghost use Rattle.std.specs.Prelude.{◌≡◌, IfOk};

    /// The list of these items, in memory of its own.
    pub fn copied_from(alloc: Global, items: &[T]) -> Result<SharedListOf<T>, AllocError>
        ensures { IfOk result (λ list. list ≡ items.now) }
    {
        SharedListOf::of(alloc, Vec::from_slice(alloc, items)?)
    }
}
