//! The names of the components that are ready to be taken.

ghost use Rattle.std.specs.Prelude.{◌≡◌, [], OnOk, IfSome, IfNone};
ghost use Rattle.action_order.specs.own.KeySet.{IsFirst, IsWith};

use std::alloc::{AllocError, Global};
use std::collections::BTreeSet;

/// Puts a name into the set.
pub fn put(ready: &mut BTreeSet<u32>, name: u32) -> Result<(), AllocError>
    ensures { OnOk result (IsWith ready.old.keys name ready.new.keys) }
{
    ready.insert(name)?;
    Ok(())
}

/// Takes the least name out of the set.
pub fn take_first(ready: &mut BTreeSet<u32>) -> Option<u32>
    ensures first { IfSome result (λ name. IsFirst ready.old.keys name ready.new.keys) }
    ensures none { IfNone result (ready.old.keys ≡ []) }
{
    ready.pop_first()
}
