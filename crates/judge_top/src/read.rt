//! What the words of a command line ask of the judge.
//!
//! ```text
//! match read_words::<Request>(alloc, words)? {
//!     Some(Request::Formula { domain, problem, horizon, stepping }) => ..,
//!     Some(Request::Judge { domain, problem, horizon, proof, stepping }) => ..,
//!     Some(Request::Model { domain, problem, horizon, model, stepping }) => ..,
//!     None => usage(),
//! }
//! ```
ghost use Rattle.std.specs.Prelude.{◌≡◌, ◌≤◌, IfOk, IfSome, List, codes, option_map};
ghost use Rattle.clap.specs.Walk.{Row};
ghost use Rattle.clap.specs.Words.{app_of, found_of, rows_of};
ghost use Rattle.requests.specs.Fit.{IsFit};
ghost use Rattle.requests.specs.Passed.{HasNumber, Passed};
ghost use Rattle.requests.specs.Same.{IsSame};
ghost use Rattle.judge_top.specs.Command.{command_of, named, steps_list};
ghost use Rattle.judge_top.specs.Seen.{Seen, seen, some_in, horizon_of};
ghost use Rattle.horizon_rates.specs.Limits.{last_horizon};

use crate::command::{Name, command_by, name_of, steps_reader};
use crate::request::Request;
use crate::values::request_in;
use clap::{ArgMatches, Command};
use requests::{Asked, Memory};
use std::alloc::{AllocError, Global};

impl<'a> Asked<'a> for Request<'a> {
    type Name = Name;

    ghost Seen = { Seen };

    ghost seen = { seen };

    ghost is_sized = { λ request. horizon_of request ≤ last_horizon };

    ghost named = { named };

    ghost command = { command_of steps_list };

    ghost has_values = { λ _ rows. HasNumber 0 last_horizon (codes "horizon") rows };

    ghost seen_in = { some_in };

    fn name_of(word: &str) -> Option<Name>
        ensures { result ≡ named word.now }
    {
        name_of(word)
    }

    fn command_for(alloc: Global, name: Name) -> Result<Command<'a>, AllocError>
        ensures fit { IfOk result (λ c. IsFit (app_of c)) }
        ensures same { IfOk result (λ c. IsSame (app_of c) (command_of steps_list name)) }
        ensures values { IfOk result (λ c. (rows : List Row) → Passed (app_of c).top.rules rows → HasNumber 0 last_horizon (codes "horizon") rows) }
    {
        command_by(alloc, name, steps_reader())
    }

    fn request_in(
        alloc: Global,
        name: Name,
        matches: &ArgMatches<'a>,
    ) -> Result<Option<Request<'a>>, Memory>
        requires { HasNumber 0 last_horizon (codes "horizon") (rows_of (found_of matches.now)) }
        ensures value { IfOk result (λ o. option_map seen o ≡ some_in name (rows_of (found_of matches.now))) }
        ensures sized { IfOk result (λ o. IfSome o (λ r. horizon_of (seen r) ≤ last_horizon)) }
    {
        Ok(Some(request_in(name, matches)))
    }
}
