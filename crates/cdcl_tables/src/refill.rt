//! Vectors of equal items in memory that is there already.
ghost use Rattle.std.specs.Prelude.{◌≡◌, replicate, OnOk};

use std::alloc::{AllocError, Global};

/// Makes a vector that is done with one of so many equal items.
pub fn refill<T: Copy>(items: &mut Vec<T>, count: usize, item: T) -> Result<(), AllocError>
    ensures { OnOk result (items.new.items ≡ replicate count item) }
{
    items.clear();
    items.resize(count, item)?;
    Ok(())
}
