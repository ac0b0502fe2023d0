ghost use Rattle.std.specs.Prelude.{◌≡◌, ◌≤◌};

use crate::Rates;

/// What a race is run by.
#[derive(Clone, Copy)]
pub struct Settings {
    /// Which horizons are listed, and what each may use in a round.
    pub rates: Rates,
    /// The conflicts of all horizons together: at most 1,000,000.
    pub budget: u64,
    /// How many conflicts a worker grants in one turn: 1 to 10,000.
    pub slice: u32,
    /// How many workers advance the horizons: 1 to 16.
    pub workers: u32,
    pub ghost budget_in_range: { budget ≤ 1000000 },
    pub ghost slice_in_range: { (1 ≤ slice) × (slice ≤ 10000) },
    pub ghost workers_in_range: { (1 ≤ workers) × (workers ≤ 16) },
}

impl Settings {
    /// By what a race is run that is polled: its workers are one.
    pub fn polled(rates: Rates, budget: u64, slice: u32) -> Settings
        requires budget { budget ≤ 1000000 }
        requires slice { (1 ≤ slice) × (slice ≤ 10000) }
        ensures rates { result.rates ≡ rates }
        ensures budget { result.budget ≡ budget }
        ensures slice { result.slice ≡ slice }
    {
        Settings {
            rates,
            budget,
            slice,
            workers: 1,
        }
    }
}
