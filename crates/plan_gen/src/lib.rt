//! Planning tasks of any size, written as PDDL: a corridor to walk along, and a robot with two
//! grippers that carries balls (a domain of the first international planning competition, 1998).
//!
//! ```text
//! let made = generate(alloc, Kind::Gripper, 2)?;
//! read(made.domain.as_slice(), made.problem.as_slice())
//! ```
#![tactic(auto)]

ghost use Rattle.std.specs.Prelude.{◌≡◌, ◌≤◌, IfOk, length};
ghost use Rattle.plan_gen.specs.Task.{domain_of, problem_of};
ghost use Rattle.containers.specs.Limits.{most_bytes};

mod corridor;
mod gripper;
mod head;
mod text;

use std::alloc::Global;
pub use text::{Memory, Text};

/// Which task is written.
#[derive(Clone, Copy, Debug, PartialEq, Eq)]
pub enum Kind {
    /// Rooms in a row with doors between neighbours, and a walk from the first room to the last.
    Corridor,
    /// Balls that a robot with two grippers carries from one room to another.
    Gripper,
}

/// A written task: the texts of its domain and of its problem.
#[derive(Drop)]
pub struct Made {
    pub domain: Text,
    pub problem: Text,
}

/// Writes the task of a kind. Its size is `number`, from 1 to 64: a corridor of `number` steps, or
/// as many balls. The one error is want of memory.
pub fn generate(alloc: Global, kind: Kind, number: u32) -> Result<Made, Memory>
    requires number_in_range { (1 ≤ number) × (number ≤ 64) }
    ensures domain { IfOk result (λ made. made.domain ≡ domain_of kind) }
    ensures problem { IfOk result (λ made. made.problem ≡ problem_of kind number) }
    // Neither text is longer than a file may be.
    ensures domain_fits { IfOk result (λ made. length made.domain ≤ most_bytes) }
    ensures problem_fits { IfOk result (λ made. length made.problem ≤ most_bytes) }
{
    let (domain, problem) = match kind {
        Kind::Corridor => (corridor::DOMAIN, corridor::problem(alloc, number)?),
        Kind::Gripper => (gripper::DOMAIN, gripper::problem(alloc, number)?),
    };
    Ok(Made {
        domain: Text::of(domain.as_bytes().to_vec(alloc)?),
        problem,
    })
}
