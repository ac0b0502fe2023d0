// A list of jobs.
ghost use Rattle.std.specs.Prelude.{◌≡◌, ◌↔◌, true, length, IsTrue};
ghost use Rattle.solver_pool.specs.Job.{Differ, key_in, AreSound, AreRising};

use crate::sorted::are_sound;
use crate::{Job, Resume};
use std::marker::Model;

/// Jobs in a row. It is made from a vector and gives it back without memory.
#[derive(Drop)]
pub struct Jobs<R: Resume> {
    items: Vec<Job<R>>,
}

impl<R: Resume> Model for Jobs<R> {
    ghost use Rattle.std.specs.Prelude.{List};
    ghost use Rattle.solver_pool.specs.Job.{JobView};

    ghost Value = { List (JobView R) };

    ghost view = { λ j. j.items.items };
}

impl<R: Resume> Jobs<R> {
    /// The list of these jobs.
    pub fn new(items: Vec<Job<R>>) -> Jobs<R>
        ensures { result ≡ items.items }
    {
        Jobs { items }
    }

    /// The jobs as a vector.
    pub fn into_vec(self) -> Vec<Job<R>>
        ensures { result.items ≡ self }
    {
        self.items
    }

    /// The jobs, lent.
    pub fn as_slice(&self) -> &[Job<R>]
        ensures { result.now ≡ self.now }
    {
        self.items.as_slice()
    }

    /// How many jobs there are.
    pub fn len(&self) -> usize
        ensures { result ≡ length self.now }
    {
        self.items.len()
    }

    /// Whether there is no job.
    pub fn is_empty(&self) -> bool
        ensures { IsTrue result ↔ (length self.now ≡ 0) }
    {
        self.items.is_empty()
    }

    /// Whether each key is above the one before it. Then they differ, which is what [`crate::round`] asks.
    pub fn are_rising(&self) -> bool
        ensures value { IsTrue result ↔ AreRising R.Resume self.now }
        ensures differ { result ≡ true → Differ (key_in R.Resume) self.now }
    {
        are_rising(self.as_slice())
    }

    /// Whether no run is spoilt.
    pub fn are_sound(&self) -> bool
        ensures { IsTrue result ↔ AreSound R.Resume self.now }
    {
        are_sound(self.as_slice())
    }
}

fn are_rising<R: Resume>(jobs: &[Job<R>]) -> bool
    ensures value { IsTrue result ↔ AreRising R.Resume jobs.now }
    ensures differ { result ≡ true → Differ (key_in R.Resume) jobs.now }
{
    let mut least = 0u64;
    for job in jobs {
        let key = job.run.horizon() as u64;
        if key < least {
            return false;
        }
        least = key + 1;
    }
    true
}
