// A run that counts, for tests.
ghost use Rattle.std.specs.Prelude.{◌≡◌};

use crate::{Memory, Resume};

/// A run that does nothing but count the units that it is granted: it is unsettled while they are fewer than it needs,
/// and finds memory always. Tests use it in place of a solver.
#[derive(Drop)]
pub struct CountRun {
    /// Its key.
    pub horizon: u32,
    /// How many units settle it.
    pub need: u64,
    /// How many units it was granted.
    pub granted: u64,
}

impl CountRun {
    /// A run that was granted nothing.
    pub fn new(horizon: u32, need: u64) -> CountRun
        ensures { result ≡ record { horizon = horizon; need = need; granted = 0 } }
    {
        CountRun {
            horizon,
            need,
            granted: 0,
        }
    }
}

impl Resume for CountRun {
    ghost use Rattle.std.specs.Prelude.{false, nat_lt};
    ghost use Rattle.solver_pool.specs.CountRun.{count_moved, count_state, count_state-unsettled};

    ghost key_of = { λ r. r.horizon };

    ghost granted_of = { λ r. r.granted };

    ghost origin_of = { λ r. record r { granted = 0 } };

    ghost moved = { count_moved };

    ghost state_of = { count_state };

    ghost unsettled_at = { λ r. nat_lt r.granted r.need };

    ghost spoilt_at = { λ r. false };

    fn advance(&mut self, conflicts: u32) -> Result<(), Memory> {
        self.granted += conflicts as u64;
        Ok(())
    }

    fn horizon(&self) -> u32 {
        self.horizon
    }

    fn unsettled(&self) -> bool {
        self.granted < self.need
    }

    fn spoilt(&self) -> bool {
        false
    }

    fn granted(&self) -> u64 {
        self.granted
    }

    ghost by_state = { count_state-unsettled };
}
