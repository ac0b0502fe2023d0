// The grants of a round.
ghost use Rattle.std.specs.Prelude.{◌≡◌, ◌+◌, IfOk};
ghost use Rattle.horizon_rates.specs.Ledger.{left_of, SumsToBudget};
ghost use Rattle.race.specs.Grants.{grants};
ghost use Rattle.race.specs.Runs.{total, IsBooked};

use containers::memory::Memory;
use horizon_rates::{Ledger, Rates};
use std::alloc::Global;

/// Sets aside the quota of each place of the window, or what is left where that is less, and lists how much that was.
pub(crate) fn grant_all(
    alloc: Global,
    ledger: &mut Ledger,
    rates: &Rates,
    count: u32,
) -> Result<Vec<u32>, Memory>
    ensures grants { IfOk result (λ gs. gs.items ≡ grants rates.now 0 (left_of ledger.old) count) }
    ensures aside { IfOk result (λ gs. ledger.new ≡ record ledger.old { set_aside = ledger.old.set_aside + total gs.items }) }
{
    let mut granted = Vec::new(alloc);
    for place in 0..count {
        granted.push(ledger.grant(rates.quota(place)))?;
    }
    Ok(granted)
}

/// Books what a round used of its grants, by the conflicts of its runs before and after. The rest of the grants is free again.
pub(crate) fn book(ledger: &mut Ledger, granted: u64, before: u64, after: u64)
    requires { IsBooked ledger.old.set_aside granted before after }
    ensures spent { ledger.new.spent + before ≡ ledger.old.spent + after }
    ensures freed { ledger.new.set_aside ≡ 0 }
    ensures budget { ledger.new.budget ≡ ledger.old.budget }
    ensures sums { SumsToBudget ledger.new }
{
    ledger.enter(granted as u32, (after - before) as u32);
    // For the proof: what was granted and what is left are the budget.
    let _sums = ledger.left();
}
