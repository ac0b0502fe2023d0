// Words with their places.
ghost use Rattle.std.specs.Prelude.{◌≡◌, IfOk};

use pd_sexp::Name;
use std::alloc::{AllocError, Global};

/// A word, and the offset of its first byte.
#[derive(Drop)]
pub struct Named {
    /// The offset of its first byte in the file, from 0.
    pub at: u32,
    /// The word.
    pub name: Name,
}

/// A copy of a word.
pub fn copy_name(alloc: Global, name: &Name) -> Result<Name, AllocError>
    ensures { IfOk result (λ n. n ≡ name.now) }
{
    Ok(Name::of(Vec::from_slice(alloc, name.as_slice())?))
}
