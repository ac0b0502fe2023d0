//! The values in a command's matches.
ghost use Rattle.std.specs.Prelude.{◌≡◌, ◌≤◌, codes};
ghost use Rattle.clap.specs.Words.{found_of, rows_of};
ghost use Rattle.requests.specs.Passed.{HasNumber, text_at};
ghost use Rattle.judge_top.specs.Seen.{seen, seen_in, steps_of, horizon_of};
ghost use Rattle.horizon_rates.specs.Limits.{last_horizon};

use crate::command::Name;
use crate::request::Request;
use clap::ArgMatches;
use horizon_rates::LAST_HORIZON;
use requests::{Stepping, number, text};

// In which steps.
fn stepping_in(matches: &ArgMatches<'_>) -> Stepping
    ensures { result ≡ steps_of (text_at (codes "steps") (rows_of (found_of matches.now))) }
{
    match text(matches, "steps") {
        "all" => Stepping::All,
        _ => Stepping::Exists,
    }
}

/// What the matches of a command ask for.
pub(crate) fn request_in<'a>(name: Name, matches: &ArgMatches<'a>) -> Request<'a>
    requires { HasNumber 0 last_horizon (codes "horizon") (rows_of (found_of matches.now)) }
    ensures value { seen result ≡ seen_in name (rows_of (found_of matches.now)) }
    ensures sized { horizon_of (seen result) ≤ last_horizon }
{
    let domain = text(matches, "domain");
    let problem = text(matches, "problem");
    let horizon = number(matches, "horizon", 0, LAST_HORIZON);
    let stepping = stepping_in(matches);
    match name {
        Name::Formula => Request::Formula {
            domain,
            problem,
            horizon,
            stepping,
        },
        Name::Judge => Request::Judge {
            domain,
            problem,
            horizon,
            proof: text(matches, "proof"),
            stepping,
        },
        Name::Model => Request::Model {
            domain,
            problem,
            horizon,
            model: text(matches, "model"),
            stepping,
        },
    }
}
