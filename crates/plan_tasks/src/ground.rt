//! Grounding a task.
ghost use Rattle.std.specs.Prelude.{◌≡◌, IfOk};
ghost use Rattle.grounding_defs.specs.Grounded.{IsGrounded};
ghost use Rattle.grounding_defs.specs.Limits.{IsWithin};
ghost use Rattle.plan_tasks.specs.Tasks.{TellsOver};
ghost use Rattle.plan_endings.specs.Ends.{StopsBy};

use grounder::{GroundError, Grounded, ground};
use pd_model::Pddl;
use plan_endings::stop::Stop;
use plan_endings::{Ending, Limit};
use std::alloc::Global;

fn too_many(what: Limit, count: u64) -> Stop
    ensures { result ≡ Stop.Ends (Ending.TooMany what count) }
{
    Stop::Ends(Ending::TooMany { what, count })
}

/// What a task is grounded to.
pub fn ground_task(alloc: Global, task: &Pddl) -> Result<Grounded, Stop>
    ensures grounded { IfOk result (IsGrounded task.now) }
    ensures within { IfOk result (IsWithin task.now) }
    ensures stops { StopsBy (TellsOver task.now) result }
{
    match ground(alloc, task) {
        Ok(grounded) => Ok(grounded),
        Err(GroundError::Tuples { count }) => Err(too_many(Limit::Tuples, count)),
        Err(GroundError::Facts { count }) => Err(too_many(Limit::Facts, count)),
        Err(GroundError::Actions { count }) => Err(too_many(Limit::Actions, count)),
        Err(GroundError::Effects { count }) => Err(too_many(Limit::Effects, count)),
        Err(GroundError::Memory) => Err(Stop::Memory),
    }
}
