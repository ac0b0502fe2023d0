// A run with a target.
use crate::Resume;
use std::marker::Model;

/// A run, and how many units it is to be granted in all: at least what it was granted, and at most 1,073,741,824.
#[derive(Drop)]
pub struct Job<R: Resume> {
    /// The run, as far as it is.
    pub run: R,
    /// How many units it is to be granted in all.
    pub target: u64,
}

impl<R: Resume> Model for Job<R> {
    ghost use Rattle.std.specs.Prelude.{◌≤◌};
    ghost use Rattle.solver_pool.specs.Job.{JobView};

    ghost Value = { JobView R };

    ghost view = { λ j. record { run = j.run; target = j.target } };

    ghost invariant = { λ j. (R.granted_of j.run ≤ j.target) × (j.target ≤ 1073741824) };
}
