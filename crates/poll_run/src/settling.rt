// A run that is driven to its target.
ghost use Rattle.std.specs.Prelude.{◌≡◌, ◌≤◌, false, IfOk};
ghost use Rattle.pl_io.specs.Outside.{Rose};
ghost use Rattle.solver_pool.specs.Resume.{IsMoved};
ghost use Rattle.poll_run.specs.Polls.{IsSame, IsThere};

use crate::{Driver, PollRun};
use solver_pool::Resume;

/// Why a run was not brought to its target. The run is gone.
#[derive(Clone, Copy, PartialEq, Eq)]
pub enum SettleError {
    /// The driver gave up.
    Driver,
    /// Want of memory, also the run's own.
    Memory,
}

/// Drives a run to `target` units granted in all, at most 1,073,741,824, by polls of `slice` units, 1 to 10,000. `Driver` comes
/// only where the driver's count of faults rose, or stands at its last value. It may wait.
pub fn settle<R: Resume, D: Driver>(
    driver: &mut D,
    run: R,
    target: u64,
    slice: u32,
) -> Result<R, SettleError>
    requires sound { R.spoilt_at run ≡ false }
    requires granted { R.granted_of run ≤ target }
    requires target { target ≤ 1073741824 }
    requires slice { (1 ≤ slice) × (slice ≤ 10000) }
    ensures same { IfOk result (λ end. IsSame R.Resume run end) }
    ensures moved { IfOk result (λ end. IsMoved R.Resume (R.origin_of run) target end) }
    ensures there { IfOk result (λ end. IsThere R.Resume target end) }
    ensures later { D.faults driver.old ≤ D.faults driver.new }
    ensures failed { result ≡ Err SettleError.Driver → Rose (D.faults driver.old) (D.faults driver.new) }
{
    let Ok(end) = driver.drive(PollRun::new(run, target, slice)) else {
        return Err(SettleError::Driver);
    };
    if end.spoilt() {
        return Err(SettleError::Memory);
    }
    Ok(end)
}
