//! Vectors of so many items, each made alike.

ghost use Rattle.std.specs.Prelude.{◌≡◌, [], replicate, IfOk};

use crate::ListOf;
use std::alloc::{AllocError, Global};

/// So many items, each made by one call.
pub fn items_of<T: Drop, F: FnMut() -> T>(
    alloc: Global,
    count: usize,
    make: F,
) -> Result<Vec<T>, AllocError>
    requires { F.IsAlwaysCallable make }
    ensures { (item : _) → ((before : F) (made : _) (after : F) → F.step before made after → made ≡ item) → IfOk result (λ items. items.items ≡ replicate count item) }
{
    let mut items = Vec::new(alloc);
    items.resize_with(count, make)?;
    Ok(items)
}

/// So many empty lists.
pub fn empty_lists<T: Drop>(alloc: Global, count: usize) -> Result<Vec<ListOf<T>>, AllocError>
    ensures { IfOk result (λ lists. lists.items ≡ replicate count []) }
{
    items_of(
        alloc,
        count,
        move ||
            ensures { result ≡ [] }
        { ListOf::new(alloc) },
    )
}
