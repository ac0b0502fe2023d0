// Faults of a shelf, written down under the names of the files.
ghost use Rattle.std.specs.Prelude.{◌≡◌, ◌≤◌, ◌++◌, ℕ, List, [], ◌∷◌, OnErr, OnOk};
ghost use Rattle.pl_io.specs.Outside.{Notes, fault_count, FaultRose};

use crate::{Bytes, Names, TakeError};
use std::alloc::{AllocError, Global};

/// Writes a fault down, if there is memory for it.
fn write_down(alloc: Global, failed: &mut Names, name: &str) -> Result<(), AllocError>
    ensures ok { OnOk result (failed.new ≡ failed.old ++ name.now ∷ []) }
    ensures err { OnErr result (failed.new ≡ failed.old) }
{
    let entry = Bytes::copied_from(alloc, name.as_bytes())?;
    failed.push(entry)
}

/// Writes a fault down, and answers it; or want of memory, where there was none to write it down.
#[tactic(auto, using(crate::proofs::Counted::counting))]
pub(crate) fn note(alloc: Global, failed: &mut Names, name: &str) -> TakeError
    ensures notes { Notes failed.old failed.new name.now }
    ensures never_falls { (other : List ℕ) → fault_count other failed.old ≤ fault_count other failed.new }
    ensures failed { result ≡ TakeError.Failed → failed.new ≡ failed.old ++ name.now ∷ [] }
    ensures rose { result ≡ TakeError.Failed → FaultRose name.now failed.old failed.new }
{
    match write_down(alloc, failed, name) {
        Ok(()) => TakeError::Failed,
        Err(_) => TakeError::Memory,
    }
}
