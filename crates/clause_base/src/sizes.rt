//! What is worked out once of clauses that are seen for each step and for each time.
ghost use Rattle.std.specs.Prelude.{◌≡◌, ◌+◌, ◌*◌, ◌≤◌, length, All};
ghost use Rattle.clause_base.specs.Clause.{IsClause};

use crate::divisor::Divisor;
use crate::shared_list::SharedList;

/// How many variables all steps have of their own, and how many clauses there are of one step, of one time, of all steps,
/// and of all steps and times.
#[derive(Clone, Copy)]
pub(crate) struct Sizes {
    pub(crate) first: u32,
    pub(crate) per_step: Divisor,
    pub(crate) per_time: Divisor,
    pub(crate) steps: u32,
    pub(crate) all: u32,
}

/// The sizes for so many steps, each with so many variables of its own.
pub(crate) fn sizes_of(horizon: u32, width: u32, step: &SharedList, time: &SharedList) -> Sizes
    requires few { horizon * length step.now + (horizon + 1) * length time.now ≤ 1073741824 }
    requires small { horizon * width ≤ 2147483647 }
    ensures first { result.first ≡ horizon * width }
    ensures per_step { result.per_step ≡ length step.now }
    ensures per_time { result.per_time ≡ length time.now }
    ensures steps { result.steps ≡ horizon * length step.now }
    ensures all { result.all ≡ horizon * length step.now + (horizon + 1) * length time.now }
    ensures step_lawful { All IsClause step.now }
    ensures time_lawful { All IsClause time.now }
{
    let per_step = step.count();
    let per_time = time.count();
    let steps = horizon as usize * per_step;
    Sizes {
        first: horizon * width,
        per_step: Divisor::of(per_step),
        per_time: Divisor::of(per_time),
        steps: steps as u32,
        all: (steps + (horizon as usize + 1) * per_time) as u32,
    }
}
