//! Reading the words of the planner.
ghost use Rattle.std.specs.Prelude.{◌≡◌, IfOk, IfSome, List, option_map};
ghost use Rattle.clap.specs.Walk.{Row};
ghost use Rattle.clap.specs.Words.{app_of, found_of, rows_of};
ghost use Rattle.requests.specs.Command.{command_of, lists, named};
ghost use Rattle.requests.specs.Fit.{IsFit};
ghost use Rattle.requests.specs.Passed.{Passed};
ghost use Rattle.requests.specs.own.Ranges.{Has};
ghost use Rattle.requests.specs.Same.{IsSame};
ghost use Rattle.requests.specs.Requested.{counted_in};
ghost use Rattle.requests.specs.Seen.{IsSized, Seen, seen};

use crate::Memory;
use crate::asked::Asked;
use crate::command::{Name, command_by, lists_of_words, name_of};
use crate::request::Request;
use crate::values::request_in;
use clap::{ArgMatches, Command};
use std::alloc::{AllocError, Global};

impl<'a> Asked<'a> for Request<'a> {
    type Name = Name;

    ghost Seen = { Seen };

    ghost seen = { seen };

    ghost is_sized = { IsSized };

    ghost named = { named };

    ghost command = { command_of lists };

    ghost has_values = { Has };

    ghost seen_in = { counted_in };

    fn name_of(word: &str) -> Option<Name>
        ensures { result ≡ named word.now }
    {
        name_of(word)
    }

    fn command_for(alloc: Global, name: Name) -> Result<Command<'a>, AllocError>
        ensures fit { IfOk result (λ c. IsFit (app_of c)) }
        ensures same { IfOk result (λ c. IsSame (app_of c) (command_of lists name)) }
        ensures values { IfOk result (λ c. (rows : List Row) → Passed (app_of c).top.rules rows → Has name rows) }
    {
        command_by(alloc, name, lists_of_words())
    }

    fn request_in(
        alloc: Global,
        name: Name,
        matches: &ArgMatches<'a>,
    ) -> Result<Option<Request<'a>>, Memory>
        requires { Has name (rows_of (found_of matches.now)) }
        ensures value { IfOk result (λ o. option_map seen o ≡ counted_in name (rows_of (found_of matches.now))) }
        ensures sized { IfOk result (λ o. IfSome o (λ r. IsSized (seen r))) }
    {
        request_in(alloc, name, matches)
    }
}
