//! The race on a ground task.
ghost use Rattle.std.specs.Prelude.{◌≡◌, IfOk};
ghost use Rattle.race_outcome.specs.Ends.{end_view};
ghost use Rattle.commands.specs.Stepping.{places_by, is_plan_by};
ghost use Rattle.commands.specs.Raced.{IsKnown, ComesTo, TellsTooLarge, outcome_of};
ghost use Rattle.plan_endings.specs.Ends.{StopsBy, OnlyMemory};

use action_order::order::Order;
use action_order::publish::publish;
use all_steps::form::BothWays;
use gt_core::pairs::Pairs;
use gt_core::task::Task;
use horizon_rates::Settings;
use plan_endings::stop::Stop;
use plan_endings::{Ending, Outcome};
use race::{RaceError, race};
use race_outcome::RaceEnd;
use requests::Stepping;
use solver_pool::Gate;
use std::alloc::Global;
use std::sync::Wait;
use std::thread::Threads;
use step_encoding::exists::Components;
use step_encoding::placed::{Placed, Placing};
use two_invariants::find;

/// What the race on a ground task comes to, for plans in steps of a kind.
pub(crate) fn raced<H: Threads + Wait + Sync, G: Gate>(
    rt: &H,
    alloc: Global,
    steps: Stepping,
    task: &Task,
    settings: &Settings,
    gate: &G,
) -> Result<RaceEnd, Stop>
    ensures ended { IfOk result (ComesTo (places_by steps) (is_plan_by steps) task.now settings.now) }
    ensures stops { StopsBy (TellsTooLarge (places_by steps) task.now settings.now) result }
{
    match steps {
        Stepping::Exists => raced_in::<Components, H, G>(rt, alloc, task, settings, gate),
        Stepping::All => raced_in::<BothWays, H, G>(rt, alloc, task, settings, gate),
    }
}

/// What is known of a ground task: its invariants of one or two literals, and its actions in published order.
pub struct Known {
    pub pairs: Pairs,
    pub order: Order,
}

/// All parts are let go in one call, so that a proof has one step for it and not one for each part.
impl Drop for Known {
    fn drop(self) {
        let Known { pairs: _, order: _ } = self;
    }
}

/// What is known of a ground task.
pub fn known_of<H: Threads + Sync>(rt: &H, alloc: Global, task: &Task) -> Result<Known, Stop>
    ensures known { IfOk result (IsKnown task.now) }
    ensures memory { OnlyMemory result }
{
    let pairs = find(rt, alloc, task)?;
    let order = publish(alloc, task, &pairs)?;
    Ok(Known { pairs, order })
}

// The same, for the places of the chains of one form.
fn raced_in<P: Placing + Sync, H: Threads + Wait + Sync, G: Gate>(
    rt: &H,
    alloc: Global,
    task: &Task,
    settings: &Settings,
    gate: &G,
) -> Result<RaceEnd, Stop>
    ensures ended { IfOk result (ComesTo P.places P.are_plan task.now settings.now) }
    ensures stops { StopsBy (TellsTooLarge P.places task.now settings.now) result }
{
    let known = known_of(rt, alloc, task)?;
    let form = Placed::<P>::new(alloc, task, &known.pairs, &known.order)?;
    match race(rt, alloc, task, &form, settings, gate) {
        Ok(end) => Ok(end),
        Err(RaceError::Literals { horizon, count }) => {
            Err(Stop::Ends(Ending::TooLarge { horizon, count }))
        }
        Err(RaceError::Memory) => Err(Stop::Memory),
    }
}

/// How an end is told.
pub(crate) fn outcome(end: &RaceEnd) -> Outcome
    ensures { result ≡ outcome_of (end_view end.now) }
{
    match end {
        RaceEnd::Plan { .. } => Outcome::Planned,
        RaceEnd::Exhausted { .. } => Outcome::Exhausted,
        RaceEnd::Unfinished { .. } => Outcome::Unfinished,
    }
}
