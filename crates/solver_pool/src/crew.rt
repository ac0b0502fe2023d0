// Who is at work in a round, and how many jobs are not done.
use std::sync::atomic::{AtomicU64, Ordering};

/// The workers of a round, and how many of its jobs are not done. It is told to no client, and no answer of the pool depends on it.
#[derive(Drop)]
pub(crate) struct Crew {
    workers: u64,
    turns: u64,
    open: AtomicU64,
}

impl Crew {
    /// So many workers that make at most so many turns each, with so many jobs.
    pub(crate) fn new(workers: u32, turns: u64, jobs: usize) -> Crew {
        Crew {
            workers: u64::from(workers),
            turns,
            open: AtomicU64::new(jobs as u64),
        }
    }

    /// How many turns a worker may make.
    pub(crate) fn turns(&self) -> u64 {
        self.turns
    }

    /// Notes that one job more is done.
    pub(crate) fn note_done(&self) {
        self.open.fetch_sub(1, Ordering::SeqCst);
    }

    /// Whether some job is not done, while some worker has none to do.
    pub(crate) fn has_rest(&self) -> bool {
        let open = self.open.load(Ordering::SeqCst);
        0 < open && open < self.workers
    }
}
