//! What words can ask for.
ghost use Rattle.std.specs.Prelude.{◌≡◌, option_map, slice_get};
ghost use Rattle.requests.specs.Seen.{files_of, seen};

use containers::ListOf;
use horizon_rates::Settings;
use plan_gen::Kind;

/// Which text of a generated task is shown.
#[derive(Clone, Copy, Debug, PartialEq, Eq)]
pub enum Show {
    /// None: the task is planned for.
    None,
    /// The domain.
    Domain,
    /// The problem.
    Problem,
}

/// Which orders of a step's members run.
#[derive(Clone, Copy, PartialEq, Eq)]
pub enum Stepping {
    /// Some order, which the plan tells (Rintanen, Heljanko and Niemelä 2006: an ∃-step).
    Exists,
    /// Every order (the same: a ∀-step).
    All,
}

/// In which order the problems of a batch are polled. What is printed does not depend on it.
#[derive(Clone, Copy, Debug, PartialEq, Eq)]
pub enum Turns {
    /// The first problem first.
    Forward,
    /// The last problem first.
    Backward,
}

/// The names of the problems of a batch, in the order of the words. Contracts see the list of them.
pub type Problems<'a> = ListOf<&'a str>;

/// What is asked for. A file is named by its word.
#[derive(Drop)]
pub enum Request<'a> {
    /// A plan of the problem, or that there is none within the horizons that are listed.
    Plan {
        stepping: Stepping,
        domain: &'a str,
        problem: &'a str,
        settings: Settings,
    },
    /// What the calls of a plan file come to.
    Check {
        domain: &'a str,
        problem: &'a str,
        plan: &'a str,
    },
    /// The facts and the actions of the problem.
    Ground {
        domain: &'a str,
        problem: &'a str,
    },
    /// The actions in published order.
    Order {
        domain: &'a str,
        problem: &'a str,
    },
    /// A text of a generated task, or what a race comes to on it. Its size is a number from 1 to 64.
    Gen {
        kind: Kind,
        number: u32,
        settings: Settings,
        show: Show,
    },
    /// A certificate that there is no plan up to this horizon, from 0 to the greatest one, by at most so many conflicts, from 0 to
    /// 1,000,000.
    Prove {
        domain: &'a str,
        problem: &'a str,
        horizon: u32,
        budget: u64,
    },
    /// Whether a file is such a certificate.
    Verify {
        domain: &'a str,
        problem: &'a str,
        certificate: &'a str,
    },
    /// A plan of each of 1 to 16 problems of one domain. One thread polls them, so there is one worker.
    Batch {
        domain: &'a str,
        problems: Problems<'a>,
        settings: Settings,
        turns: Turns,
    },
}

impl<'a> Request<'a> {
    /// The name of the file at this place, counted from 0, in the order of the words; `None` exactly past the last one.
    pub fn file(&self, place: usize) -> Option<&'a str>
        ensures { option_map (λ name. name.now) result ≡ slice_get (files_of (seen self.now)) place }
    {
        match (self, place) {
            (Request::Gen { .. }, _) => None,
            (Request::Plan { domain, .. }, 0)
            | (Request::Check { domain, .. }, 0)
            | (Request::Ground { domain, .. }, 0)
            | (Request::Order { domain, .. }, 0)
            | (Request::Prove { domain, .. }, 0)
            | (Request::Verify { domain, .. }, 0)
            | (Request::Batch { domain, .. }, 0) => Some(*domain),
            (Request::Batch { problems, .. }, _) => { problems.as_slice().get(place - 1).copied() }
            (Request::Plan { problem, .. }, 1)
            | (Request::Check { problem, .. }, 1)
            | (Request::Ground { problem, .. }, 1)
            | (Request::Order { problem, .. }, 1)
            | (Request::Prove { problem, .. }, 1)
            | (Request::Verify { problem, .. }, 1) => Some(*problem),
            (Request::Check { plan, .. }, 2) => Some(*plan),
            (Request::Verify { certificate, .. }, 2) => Some(*certificate),
            _ => None,
        }
    }
}
