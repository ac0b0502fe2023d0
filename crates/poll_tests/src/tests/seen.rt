//! What is seen of the run of a horizon of a lamp that is off.
ghost use Rattle.std.specs.Prelude.{◌≡◌};

use cdcl_defs::standing::Standing;
use horizon_run::{AheadRun, Started};
use solver_pool::Resume;
use std::alloc::Global;
use std::process::Abort;

/// That this is so.
pub(crate) fn holds(rt: &impl Abort, is: bool) {
    assert!(rt; is);
}

/// A run of which tests see how far it is.
pub(crate) trait Seen: Resume {
    /// The run, where it has handled so many conflicts and stands so. The values of a found one say flip in the first step, with
    /// the lamp on after it and not before.
    fn seen_at(self, alloc: Global, conflicts: u64, wanted: Standing) -> Option<Self>;

    /// Whether it is refuted, by a log of one entry that is accepted for the formula that has the name 0.
    fn is_certified(self, alloc: Global) -> bool;
}

/// Whether its values are those.
fn has_values(alloc: Global, run: &AheadRun) -> bool
    requires { run.now.state.standing ≡ Standing.Found }
{
    match run.values(alloc) {
        Ok(values) => matches!(values.as_slice(), [true, false, true]),
        Err(_) => false,
    }
}

/// Whether a run has handled so many conflicts and stands so.
fn is_at(alloc: Global, run: &AheadRun, conflicts: u64, wanted: Standing) -> bool {
    let is_wanted = match run.standing() {
        Standing::Going => matches!(wanted, Standing::Going),
        Standing::Refuted => matches!(wanted, Standing::Refuted),
        Standing::Found => matches!(wanted, Standing::Found) && has_values(alloc, run),
    };
    is_wanted && run.conflicts() == conflicts
}

impl Seen for Started {
    fn seen_at(self, alloc: Global, conflicts: u64, wanted: Standing) -> Option<Started> {
        let run = self.made().ok()?;
        if !is_at(alloc, &run, conflicts, wanted) {
            return None;
        }
        Some(Started::of(alloc, run))
    }

    fn is_certified(self, alloc: Global) -> bool {
        let Ok(run) = self.made() else {
            return false;
        };
        if !matches!(run.standing(), Standing::Refuted) {
            return false;
        }
        match run.certify(alloc) {
            Ok(mark) => mark.entries() == 1 && mark.name() == 0,
            Err(_) => false,
        }
    }
}
