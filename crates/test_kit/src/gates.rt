//! Gates that note what they are told of the turns of runs, for tests of other crates.
//!
//! ```text
//! let notes = Notes::new();
//! round(rt, alloc, jobs, 1, 1, &notes)?;      // one run, of horizon 4
//! notes.are(&[12, 14])                        // it entered, and left
//! ```

ghost use Rattle.std.specs.Prelude.{◌≤◌};

use solver_pool::Gate;
use std::sync::atomic::{AtomicU64, Ordering};
use std::thread;

/// How many steps there is room for.
const STEPS: usize = 9;

/// The first nine steps of runs in order, each as a number, for a horizon h: `3h` that its run enters, `3h + 1` that it is advanced,
/// `3h + 2` that it leaves.
#[derive(Drop)]
pub struct Notes {
    count: AtomicU64,
    steps: [AtomicU64; STEPS],
}

impl Notes {
    /// No step yet.
    pub fn new() -> Notes {
        Notes {
            count: AtomicU64::new(0),
            steps: [
                AtomicU64::new(0),
                AtomicU64::new(0),
                AtomicU64::new(0),
                AtomicU64::new(0),
                AtomicU64::new(0),
                AtomicU64::new(0),
                AtomicU64::new(0),
                AtomicU64::new(0),
                AtomicU64::new(0),
            ],
        }
    }

    fn note(&self, horizon: u32, kind: u64)
        requires { kind ≤ 2 }
    {
        let place = self.count.fetch_add(1, Ordering::SeqCst);
        if place < STEPS as u64 {
            let step = 3 * u64::from(horizon) + kind;
            self.steps[place as usize].store(step, Ordering::SeqCst);
        }
    }

    /// Notes that the run of a horizon is advanced.
    pub fn advance(&self, horizon: u32) {
        self.note(horizon, 1);
    }

    /// Whether there are these steps and no others, at most nine.
    pub fn are(&self, wanted: &[u64]) -> bool {
        let mut same = self.count.load(Ordering::SeqCst) == wanted.len() as u64;
        for (step, wanted) in self.steps.iter().zip(wanted) {
            same &= step.load(Ordering::SeqCst) == *wanted;
        }
        same
    }
}

impl Gate for Notes {
    fn enter(&self, horizon: u32) {
        self.note(horizon, 0);
    }

    fn leave(&self, horizon: u32) {
        self.note(horizon, 2);
    }
}

/// Counts how often runs entered and left.
#[derive(Drop)]
pub struct CountGate {
    entered: AtomicU64,
    left: AtomicU64,
}

impl CountGate {
    /// None has entered yet.
    pub fn new() -> CountGate {
        CountGate {
            entered: AtomicU64::new(0),
            left: AtomicU64::new(0),
        }
    }

    /// How often runs entered, and left.
    pub fn counts(&self) -> (u64, u64) {
        let entered = self.entered.load(Ordering::SeqCst);
        (entered, self.left.load(Ordering::SeqCst))
    }
}

impl Gate for CountGate {
    fn enter(&self, _horizon: u32) {
        self.entered.fetch_add(1, Ordering::SeqCst);
    }

    fn leave(&self, _horizon: u32) {
        self.left.fetch_add(1, Ordering::SeqCst);
    }
}

/// Lets two horizons wait at their entry until the other has entered, for a million looks at most.
#[derive(Drop)]
pub struct PairGate {
    one: u32,
    two: u32,
    one_entered: AtomicU64,
    two_entered: AtomicU64,
    failed: AtomicU64,
}

impl PairGate {
    /// For these two horizons, none of which has entered.
    pub fn new(one: u32, two: u32) -> PairGate {
        PairGate {
            one,
            two,
            one_entered: AtomicU64::new(0),
            two_entered: AtomicU64::new(0),
            failed: AtomicU64::new(0),
        }
    }

    fn wait_for(&self, entered: &AtomicU64) {
        for _ in 0..1_000_000u32 {
            if entered.load(Ordering::SeqCst) != 0 {
                return;
            }
            thread::yield_now();
        }
        self.failed.store(1, Ordering::SeqCst);
    }

    /// Whether both have entered, and neither waited in vain.
    pub fn met(&self) -> bool {
        self.failed.load(Ordering::SeqCst) == 0
            && self.one_entered.load(Ordering::SeqCst) == 1
            && self.two_entered.load(Ordering::SeqCst) == 1
    }
}

impl Gate for PairGate {
    fn enter(&self, horizon: u32) {
        if horizon == self.one {
            self.one_entered.store(1, Ordering::SeqCst);
            self.wait_for(&self.two_entered);
        } else if horizon == self.two {
            self.two_entered.store(1, Ordering::SeqCst);
            self.wait_for(&self.one_entered);
        }
    }

    fn leave(&self, _horizon: u32) {}
}
