//! What words can ask for.
ghost use Rattle.std.specs.Prelude.{◌≡◌};
ghost use Rattle.plan_tasks.specs.Named.{names_of as names_in};
ghost use Rattle.search_top.specs.Seen.{seen, names_of};

use plan_tasks::take::Names;

/// How a walk through the states goes.
#[derive(Clone, Copy, PartialEq, Eq)]
pub enum How {
    /// After proposals, to some plan.
    Greedy,
    /// Breadth first, to a plan with the least number of actions.
    Least,
}

/// A format of transition systems.
#[derive(Clone, Copy, PartialEq, Eq)]
pub enum Format {
    /// The Berkeley Logic Interchange Format.
    Blif,
    /// AIGER, as text.
    Aiger,
}

/// What is asked for. A file is named by its word.
#[derive(Clone, Copy)]
pub enum Request<'a> {
    /// A walk through the states, by entering so many of them at most, in tables of so many megabytes together.
    Search {
        domain: &'a str,
        problem: &'a str,
        how: How,
        states: u32,
        memory: u32,
    },
    /// Whether grounding or the invariants alone show that there is no plan of any length.
    Never {
        domain: &'a str,
        problem: &'a str,
    },
    /// Whether a certificate shows it.
    Certify {
        domain: &'a str,
        problem: &'a str,
        certificate: &'a str,
    },
    /// A certificate, by a search that meets so many obligations at most.
    NeverSearch {
        domain: &'a str,
        problem: &'a str,
        budget: u32,
    },
    /// The ground task as a transition system, in a format.
    System {
        domain: &'a str,
        problem: &'a str,
        format: Format,
    },
    /// The formula of a certificate.
    NeverFormula {
        domain: &'a str,
        problem: &'a str,
        certificate: &'a str,
    },
    /// Whether a proof refutes the formula of a certificate.
    NeverJudge {
        domain: &'a str,
        problem: &'a str,
        certificate: &'a str,
        proof: &'a str,
    },
}

impl<'a> Request<'a> {
    /// The names of the files that are taken from the shelf, in the order of the words.
    pub fn names(&self) -> Names<'a>
        ensures { names_in result ≡ names_of (seen self.now) }
    {
        match self {
            Request::Search {
                domain,
                problem,
                ..
            }
            | Request::Never { domain, problem }
            | Request::System {
                domain,
                problem,
                ..
            }
            | Request::NeverSearch {
                domain,
                problem,
                ..
            } => Names {
                domain,
                problem,
                third: None,
            },
            Request::Certify {
                domain,
                problem,
                certificate,
            }
            | Request::NeverFormula {
                domain,
                problem,
                certificate,
            }
            | Request::NeverJudge {
                domain,
                problem,
                certificate,
                ..
            } => Names {
                domain,
                problem,
                third: Some(certificate),
            },
        }
    }
}
