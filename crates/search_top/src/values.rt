//! The values in a command's matches.
ghost use Rattle.std.specs.Prelude.{◌≡◌, codes, option_map, IfSome};
ghost use Rattle.clap.specs.Words.{found_of, rows_of};
ghost use Rattle.requests.specs.Passed.{text_at};
ghost use Rattle.search_top.specs.Command.{Has};
ghost use Rattle.search_top.specs.Seen.{seen, seen_in, how_of, format_of, IsSized};

use crate::command::Name;
use crate::limits::{MOST_COUNT, MOST_MEMORY};
use crate::request::{Format, How, Request};
use clap::ArgMatches;
use requests::{number, text, texts};

// How the walk goes.
fn how_in(matches: &ArgMatches<'_>) -> How
    ensures { result ≡ how_of (text_at (codes "how") (rows_of (found_of matches.now))) }
{
    match text(matches, "how") {
        "least" => How::Least,
        _ => How::Greedy,
    }
}

// The format of a transition system.
fn format_in(matches: &ArgMatches<'_>) -> Format
    ensures { result ≡ format_of (text_at (codes "format") (rows_of (found_of matches.now))) }
{
    match text(matches, "format") {
        "aiger" => Format::Aiger,
        _ => Format::Blif,
    }
}

/// What the matches of a command ask for; `None` where they have more files than it takes.
pub(crate) fn request_in<'a>(name: Name, matches: &ArgMatches<'a>) -> Option<Request<'a>>
    requires { Has name (rows_of (found_of matches.now)) }
    ensures value { option_map seen result ≡ seen_in name (rows_of (found_of matches.now)) }
    ensures sized { IfSome result (λ r. IsSized (seen r)) }
{
    match name {
        Name::Search => Some(Request::Search {
            domain: text(matches, "domain"),
            problem: text(matches, "problem"),
            how: how_in(matches),
            states: number(matches, "states", 1, MOST_COUNT),
            memory: number(matches, "memory", 1, MOST_MEMORY),
        }),
        Name::Never => never_in(matches),
        Name::System => Some(Request::System {
            domain: text(matches, "domain"),
            problem: text(matches, "problem"),
            format: format_in(matches),
        }),
        Name::NeverFormula => Some(Request::NeverFormula {
            domain: text(matches, "domain"),
            problem: text(matches, "problem"),
            certificate: text(matches, "certificate"),
        }),
        Name::NeverJudge => Some(Request::NeverJudge {
            domain: text(matches, "domain"),
            problem: text(matches, "problem"),
            certificate: text(matches, "certificate"),
            proof: text(matches, "proof"),
        }),
        Name::NeverSearch => Some(Request::NeverSearch {
            domain: text(matches, "domain"),
            problem: text(matches, "problem"),
            budget: number(matches, "budget", 1, MOST_COUNT),
        }),
    }
}

// The same of `never`.
fn never_in<'a>(matches: &ArgMatches<'a>) -> Option<Request<'a>>
    ensures value { option_map seen result ≡ seen_in Name.Never (rows_of (found_of matches.now)) }
    ensures sized { IfSome result (λ r. IsSized (seen r)) }
{
    let domain = text(matches, "domain");
    let files = texts(matches, "problem")?;
    if files.len() == 1 {
        return Some(Request::Never {
            domain,
            problem: files[0],
        });
    }
    if files.len() == 2 {
        return Some(Request::Certify {
            domain,
            problem: files[0],
            certificate: files[1],
        });
    }
    None
}
