//! What the words of a command line ask of a program.
//!
//! The first word names a command, and `clap` reads it and the rest as one simple command of that name. A program says
//! which commands it has, and what the values of each ask for, in an `impl` of [`Asked`]:
//!
//! ```text
//! match read_words::<Request>(alloc, words)? {
//!     Some(request) => serve(&request),
//!     None => usage(),
//! }
//! ```
ghost use Rattle.std.specs.Prelude.{◌≡◌, IfOk, IfSome, Ok, None, List, ℕ, Option, map, string_bytes, option_map};
ghost use Rattle.clap.specs.Walk.{Row};
ghost use Rattle.clap.specs.Words.{App, app_of, found_of, rows_of};
ghost use Rattle.requests.specs.Asked.{requested, requested_of, command_named};
ghost use Rattle.requests.specs.Fit.{IsFit};
ghost use Rattle.requests.specs.Passed.{Passed};
ghost use Rattle.requests.specs.Same.{IsSame};

use crate::{Memory, parse};
use clap::{ArgMatches, Command};
use std::alloc::{AllocError, Global};

/// What the words of a program can ask for.
pub trait Asked<'a>: Sized + Drop {
    /// The commands.
    type Name: Copy;

    /// What is asked for, as contracts see it.
    ghost Seen: { Type 0 };

    /// A request, as contracts see it.
    ghost seen: { Self → Seen };

    /// What holds of each request: its numbers are in their ranges.
    ghost is_sized: { Seen → Type 0 };

    /// The command that a word names.
    ghost named: { List ℕ → Option Self.Name };

    /// The one simple command of a name. Where its lists of words lie in memory is of no account.
    ghost command: { Self.Name → App };

    /// What the readers of a command's values say of its matches.
    ghost has_values: { Self.Name → List Row → Type 0 };

    /// What the matches of a command ask for; nothing where they are too many.
    ghost seen_in: { Self.Name → List Row → Option Seen };

    /// The command that a word names.
    fn name_of(word: &str) -> Option<Self::Name>
        ensures { result ≡ named word.now };

    /// The one simple command of a name, as `clap` is told of it.
    fn command_for(alloc: Global, name: Self::Name) -> Result<Command<'a>, AllocError>
        ensures fit { IfOk result (λ c. IsFit (app_of c)) }
        ensures same { IfOk result (λ c. IsSame (app_of c) (command name)) }
        ensures values { IfOk result (λ c. (rows : List Row) → Passed (app_of c).top.rules rows → has_values name rows) };

    /// What the matches of a command ask for.
    fn request_in(
        alloc: Global,
        name: Self::Name,
        matches: &ArgMatches<'a>,
    ) -> Result<Option<Self>, Memory>
        requires { has_values name (rows_of (found_of matches.now)) }
        ensures value { IfOk result (λ o. option_map seen o ≡ seen_in name (rows_of (found_of matches.now))) }
        ensures sized { IfOk result (λ o. IfSome o (λ r. is_sized (seen r))) };
}

/// What the words after the program's name ask for; `None` exactly where they are not taken.
pub fn read_words<'a, A: Asked<'a>>(alloc: Global, words: &'a [String]) -> Result<Option<A>, Memory>
    ensures request { IfOk result (λ r. option_map A.seen r ≡ requested A.named A.command A.seen_in (map string_bytes words.entry.now)) }
    ensures sized { IfOk result (λ o. IfSome o (λ r. A.is_sized (A.seen r))) }
    // Where the first word names no command there is no other answer.
    ensures no_command { command_named A.named (map string_bytes words.entry.now) ≡ None → result ≡ Ok None }
{
    let Some(first) = words.first() else {
        return Ok(None);
    };
    match A::name_of(first.as_str()) {
        Some(name) => read_command(alloc, name, words),
        None => Ok(None),
    }
}

// The same of the command of this name.
fn read_command<'a, A: Asked<'a>>(
    alloc: Global,
    name: A::Name,
    words: &'a [String],
) -> Result<Option<A>, Memory>
    ensures request { IfOk result (λ r. option_map A.seen r ≡ requested_of A.command A.seen_in name (map string_bytes words.entry.now)) }
    ensures sized { IfOk result (λ o. IfSome o (λ r. A.is_sized (A.seen r))) }
{
    let Ok(command) = A::command_for(alloc, name) else {
        return Err(Memory);
    };
    match parse(command, words) {
        Ok(Some(matches)) => A::request_in(alloc, name, &matches),
        Ok(None) => Ok(None),
        Err(error) => Err(error),
    }
}
