//! What words can ask for.
ghost use Rattle.std.specs.Prelude.{◌≡◌};
ghost use Rattle.judge_top.specs.Seen.{seen, domain_of, problem_of};

use requests::Stepping;

/// What is asked for, of a horizon from 0 to the greatest one. A file is named by its word.
#[derive(Clone, Copy)]
pub enum Request<'a> {
    /// The formula of the horizon.
    Formula {
        domain: &'a str,
        problem: &'a str,
        horizon: u32,
        stepping: Stepping,
    },
    /// Whether a file proves that the horizon has no plan.
    Judge {
        domain: &'a str,
        problem: &'a str,
        horizon: u32,
        proof: &'a str,
        stepping: Stepping,
    },
    /// The plan that the values in a file stand for.
    Model {
        domain: &'a str,
        problem: &'a str,
        horizon: u32,
        model: &'a str,
        stepping: Stepping,
    },
}

impl<'a> Request<'a> {
    /// The name of the domain.
    pub fn domain(&self) -> &'a str
        ensures { result.now ≡ domain_of (seen self.now) }
    {
        match self {
            Request::Formula { domain, .. } => domain,
            Request::Judge { domain, .. } => domain,
            Request::Model { domain, .. } => domain,
        }
    }

    /// The name of the problem.
    pub fn problem(&self) -> &'a str
        ensures { result.now ≡ problem_of (seen self.now) }
    {
        match self {
            Request::Formula { problem, .. } => problem,
            Request::Judge { problem, .. } => problem,
            Request::Model { problem, .. } => problem,
        }
    }
}
