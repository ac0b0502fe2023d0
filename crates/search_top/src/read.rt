//! What the words of a command line ask for.
//!
//! ```text
//! match read_words::<Request>(alloc, words)? {
//!     Some(Request::Search { domain, problem, how, states, memory }) => ..,
//!     Some(Request::Never { domain, problem }) => ..,
//!     Some(Request::Certify { domain, problem, certificate }) => ..,
//!     None => usage(),
//! }
//! ```
ghost use Rattle.std.specs.Prelude.{◌≡◌, IfOk, IfSome, List, option_map};
ghost use Rattle.clap.specs.Walk.{Row};
ghost use Rattle.clap.specs.Words.{app_of, found_of, rows_of};
ghost use Rattle.requests.specs.Fit.{IsFit};
ghost use Rattle.requests.specs.Passed.{Passed};
ghost use Rattle.requests.specs.Same.{IsSame};
ghost use Rattle.search_top.specs.Command.{simple_command, named, Has};
ghost use Rattle.search_top.specs.Seen.{Seen, seen, seen_in, IsSized};

use crate::command::{Name, command_by, list_reader, name_of};
use crate::request::Request;
use crate::values::request_in;
use clap::{ArgMatches, Command};
use requests::{Asked, Memory};
use std::alloc::{AllocError, Global};

impl<'a> Asked<'a> for Request<'a> {
    type Name = Name;

    ghost Seen = { Seen };

    ghost seen = { seen };

    ghost is_sized = { IsSized };

    ghost named = { named };

    ghost command = { simple_command };

    ghost has_values = { Has };

    ghost seen_in = { seen_in };

    fn name_of(word: &str) -> Option<Name>
        ensures { result ≡ named word.now }
    {
        name_of(word)
    }

    fn command_for(alloc: Global, name: Name) -> Result<Command<'a>, AllocError>
        ensures fit { IfOk result (λ c. IsFit (app_of c)) }
        ensures same { IfOk result (λ c. IsSame (app_of c) (simple_command name)) }
        ensures values { IfOk result (λ c. (rows : List Row) → Passed (app_of c).top.rules rows → Has name rows) }
    {
        command_by(alloc, name, list_reader(name))
    }

    fn request_in(
        alloc: Global,
        name: Name,
        matches: &ArgMatches<'a>,
    ) -> Result<Option<Request<'a>>, Memory>
        requires { Has name (rows_of (found_of matches.now)) }
        ensures value { IfOk result (λ o. option_map seen o ≡ seen_in name (rows_of (found_of matches.now))) }
        ensures sized { IfOk result (λ o. IfSome o (λ r. IsSized (seen r))) }
    {
        Ok(request_in(name, matches))
    }
}
